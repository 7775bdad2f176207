//! The lines of the output, each appended to a text.
ghost use Rattle.std.specs.Prelude.{◌≡◌, ◌++◌, OnOk, take};
ghost use Rattle.std.specs.String.{string_bytes};
ghost use Rattle.agree_text.specs.Answers.{header_line, run_text, runs_text, count_text, agree_line, misses_line, truth_text, answer_text};

use bound_agree::{Board, Span};
use clock_gate::Memory;
use std::alloc::{AllocError, Global};

#[tactic(auto, unfolding(crate::specs::Answers::header_line))]
pub fn put_header(text: &mut String) -> Result<(), AllocError>
    ensures { OnOk result (string_bytes text.new ≡ string_bytes text.old ++ header_line) }
{
    text.push_str("agree-report,1\n")
}

#[tactic(auto, unfolding(crate::specs::Answers::run_text))]
fn put_run(text: &mut String, run: &Span) -> Result<(), AllocError>
    ensures { OnOk result (string_bytes text.new ≡ string_bytes text.old ++ run_text run.now) }
{
    let (earliest, latest) = (run.earliest(), run.latest());
    write!(text, ",{earliest},{latest}")
}

#[tactic(auto, using(std::proofs::lemmas::List::flat_map_more), unfolding(crate::specs::Answers::runs_text))]
fn put_runs(text: &mut String, runs: &[Span]) -> Result<(), AllocError>
    ensures { OnOk result (string_bytes text.new ≡ string_bytes text.old ++ runs_text runs.now) }
{
    'runs: for run in runs {
        put_run(text, run)?;
    }
    Ok(())
}

#[tactic(auto, unfolding(crate::specs::Answers::count_text))]
fn put_count(text: &mut String, count: u32) -> Result<(), AllocError>
    ensures { OnOk result (string_bytes text.new ≡ string_bytes text.old ++ count_text count) }
{
    write!(text, "agree,{count}")
}

#[tactic(auto, unfolding(crate::specs::Answers::agree_line))]
fn put_agreement(text: &mut String, count: u32, runs: &[Span]) -> Result<(), AllocError>
    ensures { OnOk result (string_bytes text.new ≡ string_bytes text.old ++ agree_line count runs.now) }
{
    put_count(text, count)?;
    put_runs(text, runs)?;
    text.push_str("\n")
}

#[tactic(auto, unfolding(crate::specs::Answers::misses_line))]
fn put_misses(text: &mut String, misses: u32) -> Result<(), AllocError>
    ensures { OnOk result (string_bytes text.new ≡ string_bytes text.old ++ misses_line misses) }
{
    write!(text, "misses,{misses}\n")
}

fn put_truth(text: &mut String, board: &Board, truth: Option<i64>) -> Result<(), AllocError>
    ensures { OnOk result (string_bytes text.new ≡ string_bytes text.old ++ truth_text board.now truth) }
{
    match truth {
        None => Ok(()),
        Some(truth) => put_misses(text, board.misses(truth)),
    }
}

/// What is written of a question.
#[tactic(auto, unfolding(crate::specs::Answers::answer_text))]
pub fn put_answer(
    alloc: Global,
    text: &mut String,
    board: &Board,
    most_false: u32,
    truth: Option<i64>,
) -> Result<(), Memory>
    ensures { OnOk result (string_bytes text.new ≡ string_bytes text.old ++ answer_text board.now most_false truth) }
{
    let runs = board.ask(alloc, most_false)?;
    put_agreement(text, board.len(), runs.as_slice())?;
    put_truth(text, board, truth)?;
    Ok(())
}
