//! The day as text. Each function appends its part.
ghost use Rattle.std.specs.Prelude.{◌≡◌, ◌≤◌, ◌+◌, ◌++◌, [], length, vec_items, IfOk, OnOk};
ghost use Rattle.drill_day.specs.Text.{calls_text, clock_text, count_text, day_text, disruption_text, header_text, page_line, party_text, poll_text, schedule_text, second_text, seconds_text, stop_text, truth_text, turn_text};

use crate::draws::{after_rounds, after_two, draw_of, second_draw_of};
use crate::schedule::lines_of;
use crate::seconds::{clock_row, marked_page, middle_of, reply_of, stop_in, stop_second, turn_of};
use backward_line::BackwardLine;
use clock_gate::{ClockRow, List, Memory, Party, Turn};
use std::alloc::{AllocError, Global};
use vmclock_page::{Page, write_page};

// Room for the header and the start page, for a second, and for a line of the schedule.
const HEAD_ROOM: usize = 256;

const SECOND_ROOM: usize = 320;

const LINE_ROOM: usize = 10;

#[tactic(auto, unfolding(crate::specs::Text::header_text))]
fn put_header(text: &mut Vec<u8>) -> Result<(), AllocError>
    ensures { OnOk result (vec_items text.new ≡ vec_items text.old ++ header_text) }
{
    text.extend_from_slice(b"clockbound-trace,1\n".as_slice())
}

#[tactic(auto, unfolding(crate::specs::Text::page_line))]
fn put_page(alloc: Global, text: &mut Vec<u8>, page: &Page) -> Result<(), AllocError>
    ensures { OnOk result (vec_items text.new ≡ vec_items text.old ++ page_line page.now) }
{
    let digits = hex::encode(alloc, write_page(page))?;
    text.extend_from_slice(b"page,".as_slice())?;
    text.extend_from_slice(digits.as_bytes())?;
    text.extend_from_slice(b"\n".as_slice())
}

#[tactic(auto, unfolding(crate::specs::Text::disruption_text))]
fn put_disruption(text: &mut Vec<u8>, middle: u32, k: u32) -> Result<(), AllocError>
    ensures { OnOk result (vec_items text.new ≡ vec_items text.old ++ disruption_text middle k) }
{
    if k == middle {
        return text.extend_from_slice(b"disrupt\nmark,8\n".as_slice());
    }
    Ok(())
}

#[tactic(auto, unfolding(crate::specs::Text::truth_text))]
fn put_truth(line: &mut BackwardLine, truth: Option<u64>)
    requires { line.old ≡ [] }
    ensures text { line.new ≡ truth_text truth }
    ensures room { length line.new ≤ 22 }
{
    line.put_byte(b'\n');
    if let Some(truth) = truth {
        line.put_number(truth);
        line.put_byte(b',');
    }
}

#[tactic(auto, unfolding(crate::specs::Text::clock_text))]
fn put_clock_text(line: &mut BackwardLine, row: ClockRow)
    requires { line.old ≡ [] }
    ensures { line.new ≡ clock_text row }
{
    put_truth(line, row.truth);
    line.put_number(row.real);
    line.put_byte(b',');
    line.put_number(row.mono);
    line.put_word(b"clock,".as_slice());
}

fn put_clock(text: &mut Vec<u8>, row: ClockRow) -> Result<(), AllocError>
    ensures { OnOk result (vec_items text.new ≡ vec_items text.old ++ clock_text row) }
{
    let mut line = BackwardLine::new();
    put_clock_text(&mut line, row);
    text.extend_from_slice(line.as_slice())
}

#[tactic(auto, unfolding(crate::specs::Text::stop_text))]
fn put_stop(line: &mut BackwardLine, stop: Option<u8>)
    requires { line.old ≡ [] }
    ensures { line.new ≡ stop_text stop }
{
    line.put_byte(b'\n');
    if let Some(stop) = stop {
        line.put_number(u64::from(stop));
        line.put_byte(b',');
    }
}

#[tactic(auto, unfolding(crate::specs::Text::poll_text))]
fn put_poll(
    alloc: Global,
    text: &mut Vec<u8>,
    reply: [u8; 104],
    stop: Option<u8>,
) -> Result<(), AllocError>
    ensures { OnOk result (vec_items text.new ≡ vec_items text.old ++ poll_text reply stop) }
{
    let digits = hex::encode(alloc, reply)?;
    let mut end = BackwardLine::new();
    put_stop(&mut end, stop);
    text.extend_from_slice(b"poll,".as_slice())?;
    text.extend_from_slice(digits.as_bytes())?;
    text.extend_from_slice(end.as_slice())
}

#[tactic(auto, unfolding(crate::specs::Text::calls_text))]
fn put_calls(text: &mut Vec<u8>) -> Result<(), AllocError>
    ensures { OnOk result (vec_items text.new ≡ vec_items text.old ++ calls_text) }
{
    text.extend_from_slice(b"call,1\ncall,2\ncall,3\n".as_slice())
}

#[tactic(auto, unfolding(crate::specs::Text::second_text))]
fn put_second(
    alloc: Global,
    text: &mut Vec<u8>,
    middle: u32,
    stopped: u32,
    k: u32,
    x: u64,
) -> Result<(), AllocError>
    requires { k ≤ 20000 }
    ensures { OnOk result (vec_items text.new ≡ vec_items text.old ++ second_text middle stopped k x) }
{
    put_disruption(text, middle, k)?;
    put_clock(text, clock_row(k, draw_of(x)))?;
    put_poll(
        alloc,
        text,
        reply_of(k, second_draw_of(x)),
        stop_in(stopped, k),
    )?;
    put_calls(text)
}

fn put_seconds(alloc: Global, text: &mut Vec<u8>, seed: u64, polls: u32) -> Result<(), AllocError>
    requires { polls ≤ 20000 }
    ensures { OnOk result (vec_items text.new ≡ vec_items text.old ++ seconds_text seed polls) }
{
    let (middle, stopped) = (middle_of(polls), stop_second(polls));
    let mut x = seed;
    'seconds: for k in 1..polls + 1 {
        put_second(alloc, text, middle, stopped, k, x)?;
        x = after_two(x);
    }
    Ok(())
}

fn put_party(line: &mut BackwardLine, party: Party)
    requires { length line.old ≤ 100 }
    ensures text { line.new ≡ party_text party ++ line.old }
    ensures room { length line.new ≤ length line.old + 21 }
{
    match party {
        Party::Host => line.put_byte(b'h'),
        Party::Daemon => line.put_byte(b'd'),
        Party::Client(number) => {
            line.put_number(u64::from(number));
            line.put_byte(b'c');
        }
    }
}

#[tactic(auto, unfolding(crate::specs::Text::count_text))]
fn put_count(line: &mut BackwardLine, party: Party, count: u32)
    requires { line.old ≡ [] }
    ensures text { line.new ≡ count_text party count }
    ensures room { length line.new ≤ 50 }
{
    line.put_byte(b'\n');
    line.put_number(u64::from(count));
    line.put_byte(b',');
    put_party(line, party);
}

#[tactic(auto, unfolding(crate::specs::Text::turn_text))]
fn put_turn_text(line: &mut BackwardLine, turn: Turn)
    requires { line.old ≡ [] }
    ensures { line.new ≡ turn_text turn }
{
    match turn {
        Turn::Run(party, count) => {
            put_count(line, party, count);
            line.put_word(b"run,".as_slice());
        }
        Turn::Jobs(party, count) => {
            put_count(line, party, count);
            line.put_word(b"do,".as_slice());
        }
    }
}

fn put_turn(text: &mut Vec<u8>, turn: Turn) -> Result<(), AllocError>
    ensures { OnOk result (vec_items text.new ≡ vec_items text.old ++ turn_text turn) }
{
    let mut line = BackwardLine::new();
    put_turn_text(&mut line, turn);
    text.extend_from_slice(line.as_slice())
}

fn put_schedule(text: &mut Vec<u8>, seed: u64, polls: u32) -> Result<(), AllocError>
    requires { polls ≤ 20000 }
    ensures { OnOk result (vec_items text.new ≡ vec_items text.old ++ schedule_text seed polls) }
{
    let count = lines_of(seed, polls);
    let mut x = after_rounds(seed, polls);
    'lines: for _line in 0..count {
        put_turn(text, turn_of(draw_of(x), second_draw_of(x)))?;
        x = after_two(x);
    }
    Ok(())
}

fn room_of(seed: u64, polls: u32) -> usize
    requires { polls ≤ 20000 }
{
    HEAD_ROOM + SECOND_ROOM * polls as usize + LINE_ROOM * lines_of(seed, polls) as usize
}

#[tactic(auto, unfolding(crate::specs::Text::day_text))]
fn day_text(alloc: Global, seed: u64, polls: u32) -> Result<Vec<u8>, AllocError>
    requires { polls ≤ 20000 }
    ensures { IfOk result (λ text. vec_items text ≡ day_text seed polls) }
{
    let mut text = Vec::with_capacity(alloc, room_of(seed, polls))?;
    put_header(&mut text)?;
    put_page(alloc, &mut text, &marked_page(7))?;
    put_seconds(alloc, &mut text, seed, polls)?;
    put_schedule(&mut text, seed, polls)?;
    Ok(text)
}

/// The text of the day with this seed and this number of polls: the lines of the trace that `drill_trace` gives, each
/// ended by a line feed, with lower case hexadecimal digits. `Memory` where memory runs out.
pub fn drill_text(alloc: Global, seed: u64, polls: u32) -> Result<List<u8>, Memory>
    requires few { 6 ≤ polls }
    requires many { polls ≤ 20000 }
    ensures text { IfOk result (λ text. text ≡ day_text seed polls) }
{
    match day_text(alloc, seed, polls) {
        Ok(text) => Ok(List::from_vec(text)),
        Err(_) => Err(Memory),
    }
}
