ghost use Rattle.std.specs.Prelude.{◌≤◌};
ghost use Rattle.clock_gate.specs.declared.limits.TheConstants.{MOST_TRIES};

use super::*;
use clock_gate::{Act, ClockStatus, Stamp};
use generation_word::{Layout, word1};
use segment_layout::{Record, to_words, word_ok};
use std::test::Fail;

// A word that takes another value before the step with this number, counted from 0.
#[derive(Clone, Copy)]
struct Change {
    step: u32,
    word: u8,
    value: u64,
}

// As-of 1 s, void-after 1,001 s, bound 244,142 ns, drift 50,000 ppb, synchronized, with support and a marker.
fn record(marker: u64) -> Option<Record> {
    Stamp::new(1, 0).zip(Stamp::new(1_001, 0)).and_then(|(as_of, void_after)| {
        Record::new(
            as_of,
            void_after,
            244_142,
            marker,
            50_000,
            ClockStatus::Synchronized,
            true,
        )
    })
}

// The shared words with this word 1 and this record.
fn shared(header: u64, rec: &Record) -> [u64; 24] {
    let mut words = [0; 24];
    words[..10].copy_from_slice(&to_words(rec, Layout::Two, 0));
    words[1] = header;
    words
}

fn apply(words: &mut [u64; 24], step: u32, changes: &[Change]) {
    for change in changes {
        if change.step == step && change.word < 24 {
            words[usize::from(change.word)] = change.value;
        }
    }
}

// Runs a read to its end: what it saw, and its steps.
fn read(tries: u16, words: &[u64; 24], changes: &[Change]) -> (Option<Seen>, u32)
    requires some { 1 ≤ tries }
    requires most { tries ≤ MOST_TRIES }
{
    let mut words = *words;
    let mut reader = SegmentReader::new(tries);
    for step in 0..20_000 {
        apply(&mut words, step, changes);
        let Act::Load(word) = reader.next() else {
            return (reader.end(), step);
        };
        let value = words[usize::from(word)];
        if !word_ok(word, value) {
            return (None, step);
        }
        reader.give(value);
    }
    (None, 20_000)
}

const fn header(step: u32, value: u64) -> Change {
    Change {
        step,
        word: 1,
        value,
    }
}

#[test]
fn an_undisturbed_read_takes_ten_steps(rt: HostRuntime) -> Result<(), Fail> {
    let rec = record(7).ok_or("its bounds are kept")?;
    for (layout, generation) in [
        (Layout::Two, 2),
        (Layout::Two, 65_534),
        (Layout::Three, 65_536),
        (Layout::Three, 4_294_967_294),
    ] {
        let words = shared(word1(layout, generation), &rec);
        assert_eq!(rt;
            read(1_000, &words, &[]),
            (Some(Seen::Whole { generation, rec }), 10)
        );
    }
    Ok(())
}

#[test]
fn generation_zero_ends_the_read_after_one_load(rt: HostRuntime) -> Result<(), Fail> {
    let rec = record(7).ok_or("its bounds are kept")?;
    for header in [0, word1(Layout::Two, 0), word1(Layout::Three, 0)] {
        let words = shared(header, &rec);
        assert_eq!(rt; read(3, &words, &[]), (Some(Seen::NotInitialized), 1));
    }
    Ok(())
}

#[test]
fn a_try_that_begins_in_an_update_fails(rt: HostRuntime) -> Result<(), Fail> {
    let rec = record(7).ok_or("its bounds are kept")?;
    let odd = shared(word1(Layout::Two, 3), &rec);
    let ends = [header(2, word1(Layout::Two, 4))];
    assert_eq!(rt;
        read(3, &odd, &ends),
        (Some(Seen::Whole { generation: 4, rec }), 12)
    );
    Ok(())
}

#[test]
fn a_try_that_ends_in_another_generation_fails(rt: HostRuntime) -> Result<(), Fail> {
    let rec = record(7).ok_or("its bounds are kept")?;
    let two = shared(word1(Layout::Two, 2), &rec);
    // Another even generation in the first try, and then an odd one.
    let begins = [
        header(4, word1(Layout::Two, 4)),
        header(10, word1(Layout::Two, 5)),
    ];
    assert_eq!(rt;
        read(1, &two, &begins),
        (
            Some(Seen::Busy {
                tries: 1,
                first: 2,
                last: 4
            }),
            10
        )
    );
    assert_eq!(rt;
        read(2, &two, &begins),
        (
            Some(Seen::Busy {
                tries: 2,
                first: 5,
                last: 5
            }),
            11
        )
    );
    Ok(())
}

#[test]
fn the_try_after_an_update_reads_its_record(rt: HostRuntime) -> Result<(), Fail> {
    let rec = record(7).ok_or("its bounds are kept")?;
    let two = shared(word1(Layout::Two, 2), &rec);
    let changed = record(8).ok_or("its bounds are kept")?;
    let writes = [
        header(3, word1(Layout::Two, 3)),
        Change {
            step: 12,
            word: 7,
            value: 8,
        },
        header(12, word1(Layout::Two, 4)),
    ];
    let seen = Seen::Whole {
        generation: 4,
        rec: changed,
    };
    assert_eq!(rt; read(4, &two, &writes), (Some(seen), 22));
    Ok(())
}

#[test]
fn word_1_is_compared_whole(rt: HostRuntime) -> Result<(), Fail> {
    let rec = record(7).ok_or("its bounds are kept")?;
    let words = shared(word1(Layout::Two, 2), &rec);
    // The same generation in another layout, and one that differs only above its low 16 bits.
    let moved = [header(9, word1(Layout::Three, 2))];
    let failed = Seen::Busy {
        tries: 1,
        first: 2,
        last: 2,
    };
    assert_eq!(rt; read(1, &words, &moved), (Some(failed), 10));

    let words = shared(word1(Layout::Three, 2), &rec);
    let far = [header(9, word1(Layout::Three, 65_538))];
    let failed = Seen::Busy {
        tries: 1,
        first: 2,
        last: 65_538,
    };
    assert_eq!(rt; read(1, &words, &far), (Some(failed), 10));
    Ok(())
}

#[test]
fn a_thousand_tries_all_fail(rt: HostRuntime) -> Result<(), Fail> {
    let rec = record(7).ok_or("its bounds are kept")?;
    let odd = shared(word1(Layout::Three, 65_537), &rec);
    let failed = Seen::Busy {
        tries: 1_000,
        first: 65_537,
        last: 65_537,
    };
    assert_eq!(rt; read(1_000, &odd, &[]), (Some(failed), 1_000));
    Ok(())
}

// A read whose word 1 is another one at each load.
#[test]
fn a_thousand_tries_each_meet_a_publication(rt: HostRuntime) -> Result<(), Fail> {
    let rec = record(7).ok_or("its bounds are kept")?;
    let words = shared(0, &rec);
    let mut reader = SegmentReader::new(1_000);
    let mut generation: u32 = 0;
    for _ in 0..10_000 {
        let Act::Load(word) = reader.next() else {
            return Err("it has ended".into());
        };
        let value = if word == 1 {
            generation = generation % 60_000 + 2;
            word1(Layout::Three, generation)
        } else {
            words[usize::from(word)]
        };
        if word_ok(word, value) {
            reader.give(value);
        }
    }
    let failed = Seen::Busy {
        tries: 1_000,
        first: 3_998,
        last: 4_000,
    };
    assert_eq!(rt; (reader.next(), reader.end()), (Act::End, Some(failed)));
    Ok(())
}
