//! The machines over a plain array of the 24 shared words.
use super::*;
use clock_gate::{Act, HostRow};

// A page of counter 1 with this sequence count and marker.
fn page_words(count: u32, marker: u64) -> [u64; 13] {
    [
        0x0000_0068_4b4c_4356,
        0x0001_0001 + u64::from(count) * 0x1_0000_0000,
        marker,
        0,
        0,
        0,
        0,
        0,
        0,
        0,
        0,
        0,
        0,
    ]
}

// The shared words with this page.
fn shared(page: &[u64; 13]) -> [u64; 24] {
    let mut words = [0; 24];
    words[10..23].copy_from_slice(page);
    words
}

// Makes the store that comes next, where there is one.
fn store(host: &mut HostMachine, words: &mut [u64; 24]) -> bool {
    match host.next() {
        Act::Store(word, value) => {
            words[word as usize] = value;
            host.give(0);
            true
        }
        Act::Load(_) | Act::End => false,
    }
}

// Makes all stores of the row in hand, and counts them.
fn finish(host: &mut HostMachine, words: &mut [u64; 24]) -> u32 {
    for made in 0..20 {
        if !store(host, words) {
            return made;
        }
    }
    20
}

// Makes the load that comes next, where there is one.
fn load(reader: &mut PageReader, words: &[u64; 24]) -> Option<u8> {
    match reader.next() {
        Act::Load(word) => {
            reader.give(words[word as usize]);
            Some(word)
        }
        Act::Store(_, _) | Act::End => None,
    }
}

// The host with a page row in hand, where the words are those of a start page and of a page row of it.
fn host_with(start: &[u64; 13], row: &[u64; 13]) -> Option<HostMachine> {
    let (Ok(first), Ok(page)) = (from_words(start), from_words(row)) else {
        return None;
    };
    if !has_constants_of(&first, &page) {
        return None;
    }
    let mut host = HostMachine::new(Some(*start));
    host.begin(&HostRow::Page(*row));
    Some(host)
}

#[test]
fn a_page_row_takes_13_stores(rt: HostRuntime) {
    for (count, odd, even) in [(2, 3, 4), (4_294_967_294, 4_294_967_295, 0)] {
        let start = page_words(count, 7);
        let mut row = page_words(40, 8);
        row[12] = 1_000;
        let mut words = shared(&start);
        let mut host = host_with(&start, &row).expect(&rt, "a page row");
        assert_eq!(rt; host.next(), Act::Store(11, page_words(odd, 0)[1]));
        assert!(rt; store(&mut host, &mut words));
        for place in 2..13 {
            assert_eq!(rt; host.next(), Act::Store(10 + place, row[place as usize]));
            assert!(rt; store(&mut host, &mut words));
        }
        assert_eq!(rt; host.next(), Act::Store(11, page_words(even, 0)[1]));
        assert!(rt; store(&mut host, &mut words));
        assert_eq!(rt; host.next(), Act::End);
        row[1] = page_words(even, 0)[1];
        assert_eq!(rt; words, shared(&row));
    }
}

#[test]
fn each_row_takes_its_number_of_stores(rt: HostRuntime) {
    let start = page_words(2, 7);
    let mut words = shared(&start);
    let mut host = host_with(&start, &page_words(2, 8)).expect(&rt, "a page row");
    assert_eq!(rt; finish(&mut host, &mut words), 13);
    assert_eq!(rt; host.next(), Act::End);
    host.begin(&HostRow::Clock(5));
    assert_eq!(rt; host.next(), Act::Store(23, 5));
    assert_eq!(rt; finish(&mut host, &mut words), 1);
    assert_eq!(rt; host.next(), Act::End);
    host.begin(&HostRow::Disrupt);
    assert_eq!(rt; finish(&mut host, &mut words), 0);
    assert_eq!(rt; words[11], page_words(4, 8)[1]);
    assert_eq!(rt; words[12], 8);
    assert_eq!(rt; words[23], 5);
}

#[test]
fn a_host_without_a_page_stores_clock_rows(rt: HostRuntime) {
    let mut words = [0; 24];
    let mut host = HostMachine::new(None);
    assert_eq!(rt; host.next(), Act::End);
    host.begin(&HostRow::Clock(300_000));
    assert_eq!(rt; finish(&mut host, &mut words), 1);
    assert_eq!(rt; words[23], 300_000);
}

#[test]
fn a_page_at_rest_is_read_in_three_loads(rt: HostRuntime) {
    let words = shared(&page_words(2, 7));
    let mut reader = PageReader::new(1);
    for word in [11, 12, 11] {
        assert_eq!(rt; reader.end(), None);
        assert_eq!(rt; load(&mut reader, &words), Some(word));
    }
    assert_eq!(rt; reader.next(), Act::End);
    assert_eq!(rt;
        reader.end(),
        Some(PageSeen::Marker {
            marker: 7,
            sequence: 2
        })
    );
}

#[test]
fn a_read_that_meets_an_update(rt: HostRuntime) {
    let start = page_words(2, 7);
    let mut words = shared(&start);
    let mut host = host_with(&start, &page_words(2, 8)).expect(&rt, "a page row");
    let mut reader = PageReader::new(3);
    // The first try meets another count last.
    assert_eq!(rt; load(&mut reader, &words), Some(11));
    assert!(rt; store(&mut host, &mut words));
    assert!(rt; store(&mut host, &mut words));
    assert_eq!(rt; load(&mut reader, &words), Some(12));
    assert_eq!(rt; load(&mut reader, &words), Some(11));
    assert_eq!(rt; reader.end(), None);
    // The second meets an odd one first.
    assert_eq!(rt; load(&mut reader, &words), Some(11));
    assert_eq!(rt; finish(&mut host, &mut words), 11);
    // The third reads the page after it.
    for word in [11, 12, 11] {
        assert_eq!(rt; reader.end(), None);
        assert_eq!(rt; load(&mut reader, &words), Some(word));
    }
    assert_eq!(rt;
        reader.end(),
        Some(PageSeen::Marker {
            marker: 8,
            sequence: 4
        })
    );
}

#[test]
fn reads_that_meet_an_update_in_each_try(rt: HostRuntime) {
    // An odd count stands in both places.
    let mut odd = PageReader::new(1);
    assert_eq!(rt; load(&mut odd, &shared(&page_words(3, 7))), Some(11));
    assert_eq!(rt; odd.end(), Some(PageSeen::Busy { first: 3, last: 3 }));
    // A whole page row passed in the second try.
    let mut changed = PageReader::new(2);
    assert_eq!(rt; load(&mut changed, &shared(&page_words(3, 7))), Some(11));
    assert_eq!(rt; load(&mut changed, &shared(&page_words(4, 8))), Some(11));
    assert_eq!(rt; load(&mut changed, &shared(&page_words(5, 8))), Some(12));
    assert_eq!(rt; load(&mut changed, &shared(&page_words(6, 9))), Some(11));
    assert_eq!(rt; changed.next(), Act::End);
    assert_eq!(rt; changed.end(), Some(PageSeen::Busy { first: 4, last: 6 }));
}

#[test]
fn counts_are_compared_and_not_whole_words(rt: HostRuntime) {
    let mut words = shared(&page_words(2, 7));
    let mut reader = PageReader::new(1);
    assert_eq!(rt; load(&mut reader, &words), Some(11));
    assert_eq!(rt; load(&mut reader, &words), Some(12));
    words[11] = 0x0000_0002_0001_0002;
    assert_eq!(rt; load(&mut reader, &words), Some(11));
    assert_eq!(rt;
        reader.end(),
        Some(PageSeen::Marker {
            marker: 7,
            sequence: 2
        })
    );
}

#[test]
fn a_thousand_tries_come_to_an_end(rt: HostRuntime) {
    let words = shared(&page_words(5, 7));
    let mut reader = PageReader::new(1_000);
    for _ in 0..1_000 {
        assert_eq!(rt; reader.end(), None);
        assert_eq!(rt; load(&mut reader, &words), Some(11));
    }
    assert_eq!(rt; load(&mut reader, &words), None);
    assert_eq!(rt; reader.end(), Some(PageSeen::Busy { first: 5, last: 5 }));
}

#[test]
fn the_last_of_a_thousand_tries_reads(rt: HostRuntime) {
    let (before, after) = (shared(&page_words(2, 7)), shared(&page_words(4, 8)));
    let mut reader = PageReader::new(1_000);
    for _ in 0..999 {
        assert_eq!(rt; load(&mut reader, &before), Some(11));
        assert_eq!(rt; load(&mut reader, &before), Some(12));
        assert_eq!(rt; load(&mut reader, &after), Some(11));
    }
    for word in [11, 12, 11] {
        assert_eq!(rt; reader.end(), None);
        assert_eq!(rt; load(&mut reader, &after), Some(word));
    }
    assert_eq!(rt;
        reader.end(),
        Some(PageSeen::Marker {
            marker: 8,
            sequence: 4
        })
    );
}
