//! The command that the words of a command line name.
ghost use Rattle.std.specs.Prelude.{◌≡◌, ◌≤◌, map, IfOk, IfSome};
ghost use Rattle.std.specs.String.{string_bytes};
ghost use Rattle.bound_order.specs.declared.lease.TheConstants.{LONGEST_LEASE};
ghost use Rattle.drill_day.specs.declared.limits.TheConstants.{FEWEST_DAY_POLLS, MOST_DAY_POLLS};
ghost use Rattle.bound_cli.specs.Command.{alone, command_of, decode_of, drill_for, drill_from, drill_of, ordering_for, ordering_of, replay_of, IsAllowed};

use crate::command::Command;
use crate::times::Times;
use bound_order::LONGEST_LEASE;
use csv_records::number;
use decode_text::What;
use drill_day::{FEWEST_DAY_POLLS, MOST_DAY_POLLS};

fn alone(command: Command, next: u32, words: &[String]) -> Result<Command, u32>
    requires { IsAllowed command }
    ensures allowed { IfOk result IsAllowed }
    ensures command { result ≡ alone command next (map string_bytes words.now) }
{
    if words.is_empty() {
        Ok(command)
    } else {
        Err(next)
    }
}

fn replay_named(words: &[String]) -> Result<Command, u32>
    ensures allowed { IfOk result IsAllowed }
    ensures command { result ≡ replay_of (map string_bytes words.now) }
{
    match words {
        [] => Ok(Command::Replay(Times::Nanoseconds)),
        [option, others @ ..] => {
            if option.as_str() == "--civil" {
                return alone(Command::Replay(Times::Civil), 3, others);
            }
            Err(2)
        }
    }
}

fn decode_named(words: &[String]) -> Result<Command, u32>
    ensures allowed { IfOk result IsAllowed }
    ensures command { result ≡ decode_of (map string_bytes words.now) }
{
    match words {
        [] => Err(2),
        [what, others @ ..] => {
            if what.as_str() == "reply" {
                return alone(Command::Decode(What::Reply), 3, others);
            }
            if what.as_str() == "page" {
                return alone(Command::Decode(What::Page), 3, others);
            }
            if what.as_str() == "image" {
                return alone(Command::Decode(What::Image), 3, others);
            }
            Err(2)
        }
    }
}

fn ordering_for(length: Option<u64>, words: &[String]) -> Result<Command, u32>
    requires { IfSome length (λ length. length ≤ LONGEST_LEASE) }
    ensures allowed { IfOk result IsAllowed }
    ensures command { result ≡ ordering_for length (map string_bytes words.now) }
{
    let Some(length) = length else {
        return Err(2);
    };
    alone(Command::Order { length }, 3, words)
}

fn ordering_named(words: &[String]) -> Result<Command, u32>
    ensures allowed { IfOk result IsAllowed }
    ensures command { result ≡ ordering_of (map string_bytes words.now) }
{
    match words {
        [] => Err(2),
        [length, others @ ..] => ordering_for(number(length.as_bytes(), 0, LONGEST_LEASE), others),
    }
}

fn drill_for(seed: u64, polls: Option<u64>, words: &[String]) -> Result<Command, u32>
    requires few { IfSome polls (λ polls. FEWEST_DAY_POLLS ≤ polls) }
    requires many { IfSome polls (λ polls. polls ≤ MOST_DAY_POLLS) }
    ensures allowed { IfOk result IsAllowed }
    ensures command { result ≡ drill_for seed polls (map string_bytes words.now) }
{
    let Some(polls) = polls else {
        return Err(3);
    };
    let polls = polls as u32;
    match words {
        [] => Ok(Command::Drill { seed, polls }),
        [option, others @ ..] => {
            if option.as_str() == "--trace" {
                return alone(Command::DrillTrace { seed, polls }, 5, others);
            }
            Err(4)
        }
    }
}

fn drill_from(seed: Option<u64>, words: &[String]) -> Result<Command, u32>
    ensures allowed { IfOk result IsAllowed }
    ensures command { result ≡ drill_from seed (map string_bytes words.now) }
{
    let Some(seed) = seed else {
        return Err(2);
    };
    match words {
        [] => Err(3),
        [polls, others @ ..] => {
            let polls = number(
                polls.as_bytes(),
                FEWEST_DAY_POLLS.into(),
                MOST_DAY_POLLS.into(),
            );
            drill_for(seed, polls, others)
        }
    }
}

fn drill_named(words: &[String]) -> Result<Command, u32>
    ensures allowed { IfOk result IsAllowed }
    ensures command { result ≡ drill_of (map string_bytes words.now) }
{
    match words {
        [] => Err(2),
        [seed, others @ ..] => drill_from(number(seed.as_bytes(), 0, u64::MAX), others),
    }
}

/// The command, or the number of the first word that isn't allowed.
#[tactic(auto, unfolding(crate::specs::Command::command_of))]
pub fn command_named(words: &[String]) -> Result<Command, u32>
    ensures allowed { IfOk result IsAllowed }
    ensures command { result ≡ command_of (map string_bytes words.now) }
{
    match words {
        [] => Err(1),
        [first, others @ ..] => {
            if first.as_str() == "replay" {
                return replay_named(others);
            }
            if first.as_str() == "decode" {
                return decode_named(others);
            }
            if first.as_str() == "pagetime" {
                return alone(Command::Pagetime, 2, others);
            }
            if first.as_str() == "agree" {
                return alone(Command::Agree, 2, others);
            }
            if first.as_str() == "audit" {
                return alone(Command::Audit, 2, others);
            }
            if first.as_str() == "order" {
                return ordering_named(others);
            }
            if first.as_str() == "drill" {
                return drill_named(others);
            }
            Err(1)
        }
    }
}
