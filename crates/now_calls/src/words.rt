//! The shared words that the calls read, and their seats.
ghost use Rattle.std.specs.Prelude.{◌≡◌, false, length, IfSome, is_some};
ghost use Rattle.clock_gate.specs.ClockRow.{IsClock};
ghost use Rattle.writer_reopen.specs.Poll.{AreRows};

use clock_gate::ClockRow;
use generation_word::{Layout, word1};
use segment_layout::{MAGIC, admit};
use segment_rule::{ClientSeat, DaemonSeat, HostTable};
use std::alloc::Global;
use vmclock_page::from_words;

// As-of 1 s, void-after 1,001 s, bound 244,142 ns, marker 0, drift 50,000, synchronized, without support.
const RECORD: [u64; 8] = [1, 0, 1_001, 0, 244_142, 0, 0x0000_0001_0000_c350, 0];
// The constant fields of a page, and marker 0.
const PAGE: [u64; 13] = [
    0x0000_0068_4b4c_4356,
    0x0000_0002_0001_0001,
    0,
    0,
    0,
    0,
    0,
    0,
    0,
    0,
    0,
    0,
    0,
];

/// A clock at 2 s and at 3 s.
pub fn clock() -> [ClockRow; 2]
    ensures rows { AreRows result }
    ensures two { length result ≡ 2 }
    ensures moments { IsClock result }
{
    [
        ClockRow {
            mono: 2_000_000_000,
            real: 1_700_000_001_000_000_000,
            truth: None,
        },
        ClockRow {
            mono: 3_000_000_000,
            real: 1_700_000_002_000_000_000,
            truth: None,
        },
    ]
}

// The record at generation 2.
fn image() -> [u64; 10] {
    let [w2, w3, w4, w5, w6, w7, w8, w9] = RECORD;
    let header = word1(Layout::Two, 2);
    [MAGIC, header, w2, w3, w4, w5, w6, w7, w8, w9]
}

/// A table for one client, with a page or without one, and the seats of its daemon and its client.
pub fn seated(alloc: Global, support: bool) -> Option<(HostTable, DaemonSeat, ClientSeat)>
    ensures daemon { IfSome result (λ r. (r.1.table ≡ r.0.id) × (r.1.view.setup.rows ≡ 2) × (is_some r.1.view.setup.page ≡ support)) }
    ensures client { IfSome result (λ r. (r.2.table ≡ r.0.id) × (r.2.view.setup.rows ≡ 2) × (r.2.in_hand ≡ false)) }
{
    let words = image();
    if admit(&words, Layout::Two).is_err() || from_words(&PAGE).is_err() {
        return None;
    }
    let page = if support { Some(PAGE) } else { None };
    match HostTable::new(alloc, Layout::Two, &words, page, 2, 1) {
        Ok((table, _host, daemon, client)) => Some((table, daemon, client)),
        Err(_) => None,
    }
}
