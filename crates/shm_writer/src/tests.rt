use super::*;
use clock_gate::{Act, ClockStatus, Stamp};
use generation_word::{Layout, word1};
use segment_layout::{MAGIC, Record};
use std::test::Fail;

// As-of 1 s and 2 ns, void-after 1,001 s and 3 ns, bound 244,142 ns, marker 7, drift 50,000, synchronized, with support.
fn record() -> Option<Record> {
    Stamp::new(1, 2).zip(Stamp::new(1_001, 3)).and_then(|(as_of, void_after)| {
        Record::new(
            as_of,
            void_after,
            244_142,
            7,
            50_000,
            ClockStatus::Synchronized,
            true,
        )
    })
}

// The segment's words after these many steps, from words that are all 0, and what the publisher wants then.
fn words_after(steps: usize, mut publisher: Publisher) -> ([u64; 10], Act) {
    let mut words = [0; 10];
    words[0] = MAGIC;
    for _ in 0..steps {
        if let Act::Store(word, value) = publisher.next() {
            words[usize::from(word)] = value;
            publisher.give(0);
        }
    }
    (words, publisher.next())
}

#[test]
fn ten_stores_publish_a_record(rt: HostRuntime) -> Result<(), Fail> {
    let rec = record().ok_or("its bounds are kept")?;
    let drift_and_status = 50_000 + (1 << 32);
    for (layout, generation, odd, even) in [
        (Layout::Two, 0, 1, 2),
        (Layout::Two, 65_534, 65_535, 2),
        (Layout::Two, 65_535, 65_535, 2),
        (Layout::Three, 65_535, 65_535, 65_536),
    ] {
        let publisher = Publisher::begin(&rec, layout, generation);
        let data = [1, 2, 1_001, 3, 244_142, 7, drift_and_status, 1];
        for steps in 1..10 {
            let (words, _) = words_after(steps, publisher);
            assert_eq!(rt;
                words[1],
                word1(layout, odd),
                "after {generation}, {steps} steps"
            );
            assert_eq!(rt;
                words[2..steps + 1],
                data[..steps - 1],
                "after {generation}, {steps} steps"
            );
        }
        let (words, next) = words_after(10, publisher);
        assert_eq!(rt; words[1], word1(layout, even), "after {generation}");
        assert_eq!(rt; words[2..], data[..], "after {generation}");
        assert_eq!(rt; next, Act::End, "after {generation}");
        assert_eq!(rt; publisher.even(), even, "after {generation}");
    }
    Ok(())
}

#[test]
fn stores_at_once_are_those_one_after_another(rt: HostRuntime) -> Result<(), Fail> {
    let rec = record().ok_or("its bounds are kept")?;
    for (layout, generation) in [
        (Layout::Two, 0),
        (Layout::Two, 65_535),
        (Layout::Three, 65_534),
    ] {
        let mut publisher = Publisher::begin(&rec, layout, generation);
        let (words, next) = words_after(9, publisher);
        assert_eq!(rt; publisher.give_nine()[..], words[1..], "after {generation}");
        assert_eq!(rt; publisher.next(), next, "after {generation}");
        assert_eq!(rt; publisher.done(), 9, "after {generation}");
    }
    Ok(())
}

#[test]
fn stores_are_counted(rt: HostRuntime) -> Result<(), Fail> {
    let mut publisher = Publisher::begin(&record().ok_or("its bounds are kept")?, Layout::Two, 0);
    for made in 0..10 {
        assert_eq!(rt; publisher.done(), made);
        if publisher.next() != Act::End {
            publisher.give(0);
        }
    }
    assert_eq!(rt; publisher.done(), 10);
    assert_eq!(rt; publisher.next(), Act::End);
    Ok(())
}
