//! The lines of the answers, each appended to a text.
ghost use Rattle.std.specs.Prelude.{◌≡◌, ◌++◌, ◌≤◌, [], length, vec_items, OnOk};
ghost use Rattle.order_text.specs.Lines.{header_line, lease_line, long_line, short_line, step_lines, wait_line};

use backward_line::BackwardLine;
use bound_order::{Lease, Step, Told, Waiting};
use std::alloc::AllocError;

#[tactic(auto, unfolding(crate::specs::Lines::header_line))]
pub fn put_header(text: &mut Vec<u8>) -> Result<(), AllocError>
    ensures { OnOk result (vec_items text.new ≡ vec_items text.old ++ header_line) }
{
    text.extend_from_slice(b"order-report,1\n".as_slice())
}

#[tactic(auto, unfolding(crate::specs::Lines::short_line))]
fn put_short_text(line: &mut BackwardLine, word: &[u8], answer: &Told)
    requires begin { line.old ≡ [] }
    requires short { length word.now ≤ 20 }
    ensures { line.new ≡ short_line word.now answer.now }
{
    line.put_byte(b'\n');
    line.put_number(u64::from(answer.call));
    line.put_byte(b',');
    line.put_number(u64::from(answer.client));
    line.put_byte(b',');
    line.put_word(word);
}

#[tactic(auto, unfolding(crate::specs::Lines::long_line))]
fn put_long_text(line: &mut BackwardLine, word: &[u8], answer: &Told, moment: i128)
    requires begin { line.old ≡ [] }
    requires short { length word.now ≤ 20 }
    ensures { line.new ≡ long_line word.now answer.now moment }
{
    line.put_byte(b'\n');
    line.put_signed(moment);
    line.put_byte(b',');
    line.put_number(u64::from(answer.call));
    line.put_byte(b',');
    line.put_number(u64::from(answer.client));
    line.put_byte(b',');
    line.put_word(word);
}

fn put_short(text: &mut Vec<u8>, word: &[u8], answer: &Told) -> Result<(), AllocError>
    requires { length word.now ≤ 20 }
    ensures { OnOk result (vec_items text.new ≡ vec_items text.old ++ short_line word.now answer.now) }
{
    let mut line = BackwardLine::new();
    put_short_text(&mut line, word, answer);
    text.extend_from_slice(line.as_slice())
}

fn put_long(text: &mut Vec<u8>, word: &[u8], answer: &Told, moment: i128) -> Result<(), AllocError>
    requires { length word.now ≤ 20 }
    ensures { OnOk result (vec_items text.new ≡ vec_items text.old ++ long_line word.now answer.now moment) }
{
    let mut line = BackwardLine::new();
    put_long_text(&mut line, word, answer, moment);
    text.extend_from_slice(line.as_slice())
}

fn put_wait(text: &mut Vec<u8>, answer: &Told, wait: &Waiting) -> Result<(), AllocError>
    ensures { OnOk result (vec_items text.new ≡ vec_items text.old ++ wait_line answer.now wait.now) }
{
    match wait {
        Waiting::Pass => put_short(text, b"pass".as_slice(), answer),
        Waiting::Stamp(stamp) => put_long(text, b"stamp".as_slice(), answer, *stamp),
        Waiting::Done(stamp) => put_long(text, b"done".as_slice(), answer, *stamp),
        Waiting::Hold => put_short(text, b"hold".as_slice(), answer),
    }
}

fn put_lease(text: &mut Vec<u8>, answer: &Told, lease: &Lease) -> Result<(), AllocError>
    ensures { OnOk result (vec_items text.new ≡ vec_items text.old ++ lease_line answer.now lease.now) }
{
    match lease {
        Lease::Untrusted => Ok(()),
        Lease::Grant(expiry) => put_long(text, b"grant".as_slice(), answer, *expiry),
        Lease::Act => put_short(text, b"act".as_slice(), answer),
        Lease::Deny => put_short(text, b"deny".as_slice(), answer),
    }
}

/// Appends the lines of an answer, which has this step.
#[tactic(auto, unfolding(crate::specs::Lines::step_lines))]
pub(crate) fn put_step(text: &mut Vec<u8>, answer: &Told, step: &Step) -> Result<(), AllocError>
    ensures { OnOk result (vec_items text.new ≡ vec_items text.old ++ step_lines answer.now step.now) }
{
    put_wait(text, answer, &step.wait)?;
    put_lease(text, answer, &step.lease)
}
