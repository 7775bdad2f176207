//! Client calls over a plain array of the shared words.
ghost use Rattle.std.specs.Prelude.{◌≡◌, ◌≤◌, length};
ghost use Rattle.clock_gate.specs.ClockRow.{IsClock};
ghost use Rattle.clock_gate.specs.declared.limits.TheConstants.{MOST_TRIES};

use super::*;
use clock_gate::{Act, ClockRow, ClockStatus};
use segment_layout::word_ok;

const REAL: u64 = 1_700_000_000_000_000_000;

// A word that takes another value before the step with this number, counted from 0.
#[derive(Clone, Copy)]
struct Change {
    step: u32,
    word: u8,
    value: u64,
}

const fn at(step: u32, word: u8, value: u64) -> Change {
    Change { step, word, value }
}

// Word 1 with this generation, in layout 2 and in layout 3.
fn header_two(generation: u16) -> u64 {
    80 + (2 << 32) + (u64::from(generation) << 48)
}

fn header_three(generation: u32) -> u64 {
    196_688 + (u64::from(generation) << 32)
}

// Word 11 with this sequence count.
fn count(sequence: u32) -> u64 {
    1 + (u64::from(sequence) << 32)
}

// The segment has a record of as-of 1 s, void-after 1,001 s, bound 244,142 ns, marker 7, drift 50,000 ppb, synchronized,
// with support; the page has the sequence count 6 and the marker 7; two clock rows are done.
fn shared(header: u64) -> [u64; 24] {
    let mut words = [0; 24];
    words[1] = header;
    words[2] = 1;
    words[4] = 1_001;
    words[6] = 244_142;
    words[7] = 7;
    words[8] = 50_000 + (1 << 32);
    words[9] = 1;
    words[11] = count(6);
    words[12] = 7;
    words[23] = 2;
    words
}

fn apply(words: &mut [u64; 24], step: u32, changes: &[Change]) {
    for change in changes {
        if change.step == step && change.word < 24 {
            words[usize::from(change.word)] = change.value;
        }
    }
}

// The first clock row lies before the record.
fn clock() -> [ClockRow; 2]
    ensures two { length result ≡ 2 }
    ensures moments { IsClock result }
{
    let before = ClockRow {
        mono: 999_998_999,
        real: REAL,
        truth: None,
    };
    let after = ClockRow {
        mono: 1_000_000_001,
        real: REAL,
        truth: None,
    };
    [before, after]
}

// Runs a call to its end: its answer, and its steps.
fn call(tries: u16, support: bool, words: &[u64; 24], changes: &[Change]) -> (Option<Answer>, u32)
    requires some { 1 ≤ tries }
    requires most { tries ≤ MOST_TRIES }
{
    let mut words = *words;
    let mut machine = NowMachine::new(tries, support);
    for step in 0..20_000 {
        apply(&mut words, step, changes);
        let Act::Load(word) = machine.next() else {
            return (machine.end(), step);
        };
        let value = words[usize::from(word)];
        if !word_ok(word, value) {
            return (None, step);
        }
        if word == 23 && value != 1 && value != 2 {
            return (None, step);
        }
        machine.give(value, &clock());
    }
    (None, 20_000)
}

// The answer from the second clock row.
fn time(generation: u32, sequence: u32, status: ClockStatus) -> Option<Answer> {
    let real = i128::from(REAL);
    Some(Answer::Time(Timed {
        generation,
        row: 2,
        sequence,
        interval: Interval {
            earliest: real - 244_143,
            latest: real + 244_143,
            status,
        },
    }))
}

#[test]
fn an_undisturbed_call_takes_11_steps_and_14_with_a_page(rt: HostRuntime) {
    for (header, generation) in [
        (header_two(2), 2),
        (header_two(65_534), 65_534),
        (header_three(65_536), 65_536),
    ] {
        let words = shared(header);
        let found = time(generation, 0, ClockStatus::Synchronized);
        assert_eq!(rt; call(1, false, &words, &[]), (found, 11));
        let found = time(generation, 6, ClockStatus::Synchronized);
        assert_eq!(rt; call(1, true, &words, &[]), (found, 14));
    }
}

#[test]
fn a_call_without_a_record(rt: HostRuntime) {
    let nothing = shared(header_two(0));
    assert_eq!(rt;
        call(5, true, &nothing, &[]),
        (Some(Answer::NotInitialized), 1)
    );

    let odd = shared(header_three(65_537));
    let failed = Answer::Busy {
        tries: 1_000,
        first: 65_537,
        last: 65_537,
    };
    assert_eq!(rt; call(1_000, true, &odd, &[]), (Some(failed), 1_000));

    // An update begins in the first try, and ends in the second.
    let changes = [at(5, 1, header_two(3)), at(11, 1, header_two(4))];
    let found = time(4, 0, ClockStatus::Synchronized);
    assert_eq!(rt;
        call(3, false, &shared(header_two(2)), &changes),
        (found, 22)
    );
    let failed = Answer::Busy {
        tries: 1,
        first: 2,
        last: 3,
    };
    assert_eq!(rt;
        call(1, false, &shared(header_two(2)), &changes),
        (Some(failed), 10)
    );
}

#[test]
fn a_call_whose_page_changes(rt: HostRuntime) {
    let words = shared(header_two(2));
    // The host writes the next page while the call reads.
    let changes = [at(13, 11, count(8)), at(13, 12, 9)];
    let found = time(2, 8, ClockStatus::Disrupted);
    assert_eq!(rt; call(2, true, &words, &changes), (found, 17));
    let failed = Answer::PageBusy { first: 6, last: 8 };
    assert_eq!(rt; call(1, true, &words, &changes), (Some(failed), 14));

    // The count stays odd.
    let changes = [at(0, 11, count(7))];
    let failed = Answer::PageBusy { first: 7, last: 7 };
    assert_eq!(rt; call(3, true, &words, &changes), (Some(failed), 14));
}

#[test]
fn the_marker_is_loaded_after_the_clock(rt: HostRuntime) {
    let words = shared(header_two(2));
    let changes = [at(11, 12, 9), at(11, 23, 1)];
    let found = time(2, 6, ClockStatus::Disrupted);
    assert_eq!(rt; call(1, true, &words, &changes), (found, 14));
}

#[test]
fn a_row_before_the_record_breaks_causality(rt: HostRuntime) {
    let mut words = shared(header_two(2));
    words[23] = 1;
    let (answer, steps) = call(1, false, &words, &[]);
    let mono = match answer {
        Some(Answer::Causality(causality)) => causality.mono,
        _ => 0,
    };
    assert_eq!(rt; (mono, steps), (999_998_999, 11));
}
