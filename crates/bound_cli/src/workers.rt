//! The number of workers that the words of `threads` name.
ghost use Rattle.std.specs.Prelude.{◌≡◌, ◌≤◌, map, IfOk, IfSome};
ghost use Rattle.std.specs.String.{string_bytes};
ghost use Rattle.clock_gate.specs.declared.limits.TheConstants.{MOST_CLIENTS};
ghost use Rattle.bound_cli.specs.Workers.{workers_after, workers_alone, workers_for, workers_of, workers_told};

use clock_gate::MOST_CLIENTS;
use csv_records::number;

fn workers_alone(workers: u32, words: &[String]) -> Result<Option<u32>, u32>
    requires { (1 ≤ workers) × (workers ≤ MOST_CLIENTS) }
    ensures some { IfOk result (λ workers. IfSome workers (λ number. 1 ≤ number)) }
    ensures most { IfOk result (λ workers. IfSome workers (λ number. number ≤ MOST_CLIENTS)) }
    ensures workers { result ≡ workers_alone workers (map string_bytes words.now) }
{
    if words.is_empty() {
        Ok(Some(workers))
    } else {
        Err(4)
    }
}

fn workers_for(workers: Option<u64>, words: &[String]) -> Result<Option<u32>, u32>
    requires { IfSome workers (λ number. (1 ≤ number) × (number ≤ MOST_CLIENTS)) }
    ensures some { IfOk result (λ workers. IfSome workers (λ number. 1 ≤ number)) }
    ensures most { IfOk result (λ workers. IfSome workers (λ number. number ≤ MOST_CLIENTS)) }
    ensures workers { result ≡ workers_for workers (map string_bytes words.now) }
{
    let Some(workers) = workers else {
        return Err(3);
    };
    workers_alone(workers as u32, words)
}

fn workers_told(words: &[String]) -> Result<Option<u32>, u32>
    ensures some { IfOk result (λ workers. IfSome workers (λ number. 1 ≤ number)) }
    ensures most { IfOk result (λ workers. IfSome workers (λ number. number ≤ MOST_CLIENTS)) }
    ensures workers { result ≡ workers_told (map string_bytes words.now) }
{
    match words {
        [] => Err(3),
        [word, others @ ..] => workers_for(number(word.as_bytes(), 1, MOST_CLIENTS.into()), others),
    }
}

fn workers_after(words: &[String]) -> Result<Option<u32>, u32>
    ensures some { IfOk result (λ workers. IfSome workers (λ number. 1 ≤ number)) }
    ensures most { IfOk result (λ workers. IfSome workers (λ number. number ≤ MOST_CLIENTS)) }
    ensures workers { result ≡ workers_after (map string_bytes words.now) }
{
    match words {
        [] => Ok(None),
        [option, others @ ..] => {
            if option.as_str() == "--workers" {
                return workers_told(others);
            }
            Err(2)
        }
    }
}

/// The number of workers that the words of `threads` name, if any, or the number of the first word that isn't allowed.
#[tactic(auto, unfolding(crate::specs::Workers::workers_of))]
pub fn workers_named(words: &[String]) -> Result<Option<u32>, u32>
    ensures some { IfOk result (λ workers. IfSome workers (λ number. 1 ≤ number)) }
    ensures most { IfOk result (λ workers. IfSome workers (λ number. number ≤ MOST_CLIENTS)) }
    ensures workers { result ≡ workers_of (map string_bytes words.now) }
{
    match words {
        [] => Err(1),
        [first, others @ ..] => {
            if first.as_str() == "threads" {
                return workers_after(others);
            }
            Err(1)
        }
    }
}
