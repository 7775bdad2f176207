//! The text of a report. Each function appends its part of it.
ghost use Rattle.std.specs.Prelude.{◌≡◌, ◌≤◌, ◌+◌, ◌++◌, [], codes, decimal, length, vec_items, OnOk};
ghost use Rattle.vmclock_time.specs.declared.rows.PageTold.TheVariants.{Time};
ghost use Rattle.pagetime_text.specs.Text.{failed_line, header_line, premises_line, read_part, refused_line, told_line, why_part};

use backward_line::BackwardLine;
use std::alloc::AllocError;
use vmclock_time::{PageFailed, PageTimeFault, PageTold, PageWhy};

/// Appends the first line.
#[tactic(auto, unfolding(crate::specs::Text::header_line))]
pub fn put_header(text: &mut Vec<u8>) -> Result<(), AllocError>
    ensures { OnOk result (vec_items text.new ≡ vec_items text.old ++ header_line) }
{
    text.extend_from_slice(b"pagetime-report,1\n".as_slice())
}

// A word and a number at the end of a line.
fn put_numbered(line: &mut BackwardLine, word: &[u8], n: u64)
    requires begin { line.old ≡ [] }
    requires short { length word.now ≤ 20 }
    ensures { line.new ≡ word.now ++ (decimal n ++ codes "\n") }
{
    line.put_byte(b'\n');
    line.put_number(n);
    line.put_word(word);
}

#[tactic(auto, unfolding(crate::specs::Text::refused_line))]
fn put_refused(line: &mut BackwardLine, fault: PageTimeFault)
    requires { line.old ≡ [] }
    ensures { line.new ≡ refused_line fault }
{
    match fault {
        PageTimeFault::TimeType(time_type) => {
            put_numbered(line, b"refused,type,".as_slice(), u64::from(time_type))
        }
        PageTimeFault::Status(status) => {
            put_numbered(line, b"refused,status,".as_slice(), u64::from(status))
        }
        PageTimeFault::Shift(shift) => {
            put_numbered(line, b"refused,shift,".as_slice(), u64::from(shift))
        }
        PageTimeFault::Range(seconds) => {
            put_numbered(line, b"refused,range,".as_slice(), seconds)
        }
        PageTimeFault::Back => line.put_word(b"refused,back\n".as_slice()),
        PageTimeFault::TooFar => line.put_word(b"refused,toofar\n".as_slice()),
    }
}

#[tactic(auto, unfolding(crate::specs::Text::told_line))]
fn put_time(line: &mut BackwardLine, earliest: i128, latest: i128)
    requires { line.old ≡ [] }
    ensures { line.new ≡ told_line (Time earliest latest) }
{
    line.put_byte(b'\n');
    line.put_signed(latest);
    line.put_byte(b',');
    line.put_signed(earliest);
    line.put_word(b"time,".as_slice());
}

#[tactic(auto, unfolding(crate::specs::Text::told_line))]
fn put_told_text(line: &mut BackwardLine, told: PageTold)
    requires { line.old ≡ [] }
    ensures { line.new ≡ told_line told }
{
    match told {
        PageTold::Time { earliest, latest } => put_time(line, earliest, latest),
        PageTold::Refused(fault) => put_refused(line, fault),
    }
}

/// Appends the line of a read.
pub fn put_told(text: &mut Vec<u8>, told: PageTold) -> Result<(), AllocError>
    ensures { OnOk result (vec_items text.new ≡ vec_items text.old ++ told_line told) }
{
    let mut line = BackwardLine::new();
    put_told_text(&mut line, told);
    text.extend_from_slice(line.as_slice())
}

#[tactic(auto, unfolding(crate::specs::Text::read_part))]
fn put_read_text(line: &mut BackwardLine, read: u32)
    requires { line.old ≡ [] }
    ensures { line.new ≡ read_part read }
{
    line.put_byte(b',');
    line.put_number(u64::from(read));
    line.put_word(b"premises,failed,".as_slice());
}

fn put_read(text: &mut Vec<u8>, read: u32) -> Result<(), AllocError>
    ensures { OnOk result (vec_items text.new ≡ vec_items text.old ++ read_part read) }
{
    let mut line = BackwardLine::new();
    put_read_text(&mut line, read);
    text.extend_from_slice(line.as_slice())
}

#[tactic(auto, unfolding(crate::specs::Text::why_part))]
fn put_why(text: &mut Vec<u8>, why: PageWhy) -> Result<(), AllocError>
    ensures { OnOk result (vec_items text.new ≡ vec_items text.old ++ why_part why) }
{
    match why {
        PageWhy::Untold => text.extend_from_slice(b"untold\n".as_slice()),
        PageWhy::Page => text.extend_from_slice(b"page\n".as_slice()),
        PageWhy::Rate => text.extend_from_slice(b"rate\n".as_slice()),
    }
}

#[tactic(auto, unfolding(crate::specs::Text::failed_line))]
fn put_failed(text: &mut Vec<u8>, failed: PageFailed) -> Result<(), AllocError>
    ensures { OnOk result (vec_items text.new ≡ vec_items text.old ++ failed_line failed) }
{
    put_read(text, failed.read)?;
    put_why(text, failed.why)
}

/// Appends the last line.
#[tactic(auto, unfolding(crate::specs::Text::premises_line))]
pub fn put_premises(text: &mut Vec<u8>, failed: Option<PageFailed>) -> Result<(), AllocError>
    ensures { OnOk result (vec_items text.new ≡ vec_items text.old ++ premises_line failed) }
{
    match failed {
        None => text.extend_from_slice(b"premises,held\n".as_slice()),
        Some(failed) => put_failed(text, failed),
    }
}
