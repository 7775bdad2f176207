//! The last line of a report.
ghost use Rattle.std.specs.Prelude.{◌≡◌, ◌++◌, [], vec_items, OnOk};
ghost use Rattle.bound_cli.specs.Premises.{failed_at, failed_call, held_line, name_of, premises_line};

use backward_line::BackwardLine;
use promise_judge::Why;
use run_promises::Premises;
use std::alloc::AllocError;

#[tactic(auto, unfolding(crate::specs::Premises::held_line))]
fn put_held(text: &mut Vec<u8>) -> Result<(), AllocError>
    ensures { OnOk result (vec_items text.new ≡ vec_items text.old ++ held_line) }
{
    text.extend_from_slice(b"premises,held\n".as_slice())
}

#[tactic(auto, unfolding(crate::specs::Premises::failed_call))]
fn put_call_text(line: &mut BackwardLine, client: u32, call: u32)
    requires { line.old ≡ [] }
    ensures { line.new ≡ failed_call client call }
{
    line.put_byte(b',');
    line.put_number(u64::from(call));
    line.put_byte(b',');
    line.put_number(u64::from(client));
    line.put_word(b"premises,failed,".as_slice());
}

fn put_call(text: &mut Vec<u8>, client: u32, call: u32) -> Result<(), AllocError>
    ensures { OnOk result (vec_items text.new ≡ vec_items text.old ++ failed_call client call) }
{
    let mut line = BackwardLine::new();
    put_call_text(&mut line, client, call);
    text.extend_from_slice(line.as_slice())
}

fn put_why(text: &mut Vec<u8>, why: Why) -> Result<(), AllocError>
    ensures { OnOk result (vec_items text.new ≡ vec_items text.old ++ name_of why) }
{
    match why {
        Why::Wrap => text.extend_from_slice(b"wrap".as_slice()),
        Why::Image => text.extend_from_slice(b"image".as_slice()),
        Why::Untold => text.extend_from_slice(b"untold".as_slice()),
        Why::Bound => text.extend_from_slice(b"bound".as_slice()),
        Why::Drift => text.extend_from_slice(b"drift".as_slice()),
        Why::Mark => text.extend_from_slice(b"mark".as_slice()),
        Why::Repeat => text.extend_from_slice(b"repeat".as_slice()),
    }
}

#[tactic(auto, unfolding(crate::specs::Premises::failed_at))]
fn put_at_text(line: &mut BackwardLine, at: u64)
    requires { line.old ≡ [] }
    ensures { line.new ≡ failed_at at }
{
    line.put_byte(b'\n');
    line.put_number(at);
    line.put_byte(b',');
}

fn put_at(text: &mut Vec<u8>, at: u64) -> Result<(), AllocError>
    ensures { OnOk result (vec_items text.new ≡ vec_items text.old ++ failed_at at) }
{
    let mut line = BackwardLine::new();
    put_at_text(&mut line, at);
    text.extend_from_slice(line.as_slice())
}

/// Appends the line that tells whether the premises of a run held.
pub fn put_premises(text: &mut Vec<u8>, premises: &Premises) -> Result<(), AllocError>
    ensures { OnOk result (vec_items text.new ≡ vec_items text.old ++ premises_line premises.now) }
{
    match premises {
        Premises::Held => put_held(text),
        Premises::Failed {
            client,
            call,
            why,
            at,
        } => {
            put_call(text, *client, *call)?;
            put_why(text, *why)?;
            put_at(text, *at)
        }
    }
}
