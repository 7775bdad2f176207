ghost use Rattle.std.specs.Prelude.{◌≡◌, ◌↔◌, ℕ, ◌+◌, ◌*◌, ◌/◌, ◌%◌, ◌^◌, ◌<◌, ◌≤◌, ◌≤ℤ◌, pos, Bool, ◌==◌, List, drop, slice_index, unsigned_abs, IsTrue, IsSome, IfSome};
ghost use Rattle.clock_gate.specs.ClockStatus.{code_of};
ghost use Rattle.generation_word.specs.Layout.{period_of};
ghost use Rattle.generation_word.specs.Header.{word1_of};
ghost use Rattle.segment_layout.specs.Record.{RecordFields, KeepsBounds};
ghost use Rattle.segment_layout.specs.Words.{seconds_of, nanos_of, drift_and_status, flag_of, data_words, record_words, IsRecordWords, IsGoodWord, AreGoodWords, moment_of, status_with, fields_of_words};

use crate::limits::{MOST_AS_OF_SECONDS, MOST_BOUND, MOST_DRIFT, MOST_VOID_AFTER_SECONDS};
use crate::record::Record;
use clock_gate::{ClockStatus, NANOS_PER_SECOND, Stamp};
use generation_word::{Layout, word1};

/// Word 0 of a segment. Source: ClockBound's PROTOCOL.
pub const MAGIC: u64 = 0x4342_0200_414d_5a4e;

/// The ten words of a record in a segment of this layout and generation: the magic, the header, and then as-of and
/// void-after in seconds and nanoseconds, the bound, the marker, drift and status, and the support flag. Source:
/// ClockBound's PROTOCOL; layout 3 is this project's own.
pub fn to_words(rec: &Record, layout: Layout, generation: u32) -> [u64; 10]
    requires { generation ≤ 2 * period_of layout + 1 }
    ensures words { IsRecordWords layout generation rec.now result }
    // Each passes its test, and read back they are the record.
    ensures good { AreGoodWords result }
    ensures back { fields_of_words result ≡ rec.now }
{
    words_under(word1(layout, generation), rec)
}

fn words_under(header: u64, rec: &Record) -> [u64; 10]
    ensures words { result ≡ record_words header rec.now }
    ensures bounds { KeepsBounds rec.now.as_of rec.now.void_after rec.now.bound rec.now.drift }
{
    [
        MAGIC,
        header,
        seconds_word(rec.as_of()),
        nanos_word(rec.as_of()),
        seconds_word(rec.void_after()),
        nanos_word(rec.void_after()),
        rec.bound() as u64,
        rec.marker(),
        drift_and_status(rec.drift(), rec.status()),
        u64::from(rec.support()),
    ]
}

/// One word of a record by its number, from 2 to 9: as `to_words` has it under any header, without the other words.
pub fn data_word(rec: &Record, number: u8) -> u64
    requires first { 2 ≤ number }
    requires last { number ≤ 9 }
    ensures value { result ≡ slice_index (record_words 0 rec.now) number }
    ensures good { IsGoodWord number result }
{
    match number {
        2 => seconds_word(rec.as_of()),
        3 => nanos_word(rec.as_of()),
        4 => seconds_word(rec.void_after()),
        5 => nanos_word(rec.void_after()),
        6 => rec.bound() as u64,
        7 => rec.marker(),
        8 => drift_and_status(rec.drift(), rec.status()),
        _ => u64::from(rec.support()),
    }
}

fn seconds_word(moment: Stamp) -> u64
    requires low { pos 0 ≤ℤ moment }
    requires high { moment ≤ℤ pos 4000001000999999999 }
    ensures { result ≡ seconds_of moment }
{
    moment.nanos() as u64 / u64::from(NANOS_PER_SECOND)
}

fn nanos_word(moment: Stamp) -> u64
    requires low { pos 0 ≤ℤ moment }
    requires high { moment ≤ℤ pos 4000001000999999999 }
    ensures { result ≡ nanos_of moment }
{
    moment.nanos() as u64 % u64::from(NANOS_PER_SECOND)
}

fn drift_and_status(drift: u32, status: ClockStatus) -> u64
    ensures { result ≡ drift_and_status drift status }
{
    u64::from(drift) + (status_code(status) << 32)
}

fn status_code(status: ClockStatus) -> u64
    ensures value { result ≡ unsigned_abs (code_of status) }
    ensures most { result ≤ 3 }
{
    status.code() as u64
}

/// The record that words 2 to 9 stand for, each of which passes `word_ok`; words 0 and 1 are not looked at.
pub fn from_words(words: &[u64; 10]) -> Record
    requires { AreGoodWords words.now }
    ensures value { result ≡ fields_of_words words.now }
    // They are its words, and those of no other record.
    ensures words { drop 2 words.now ≡ data_words result }
    ensures only { (rec : RecordFields) → KeepsBounds rec.as_of rec.void_after rec.bound rec.drift → drop 2 words.now ≡ data_words rec → result ≡ rec }
    ensures bounds { KeepsBounds result.as_of result.void_after result.bound result.drift }
{
    record_of(words).unwrap()
}

fn record_of(words: &[u64; 10]) -> Option<Record>
    requires { AreGoodWords words.now }
    ensures value { IfSome result (λ r. (r ≡ fields_of_words words.now) × KeepsBounds r.as_of r.void_after r.bound r.drift) }
    ensures found { IsSome result }
{
    Record::new(
        moment_of(words[2], words[3]),
        moment_of(words[4], words[5]),
        words[6] as i64,
        words[7],
        (words[8] % (1 << 32)) as u32,
        status_with(words[8] >> 32),
        words[9] == 1,
    )
}

fn moment_of(seconds: u64, nanos: u64) -> Stamp
    requires seconds { seconds ≤ 4000001000 }
    requires nanos { nanos < 1000000000 }
    ensures { result ≡ moment_of seconds nanos }
{
    Stamp::new(seconds as i64, nanos as u32).unwrap()
}

fn status_with(code: u64) -> ClockStatus
    requires { code ≤ 3 }
    ensures { result ≡ status_with code }
{
    ClockStatus::from_code(code as i32).unwrap()
}

/// Whether the word with this number, from 2 to 9, can stand in a segment. Each word is tested alone; other numbers
/// have no test.
pub fn word_ok(index: u8, word: u64) -> bool
    ensures { IsTrue result ↔ IsGoodWord index word }
{
    match index {
        2 => word <= MOST_AS_OF_SECONDS,
        4 => word <= MOST_VOID_AFTER_SECONDS,
        3 | 5 => word < u64::from(NANOS_PER_SECOND),
        6 => word <= MOST_BOUND,
        8 => is_good_drift(word) && is_good_status(word),
        9 => word <= 1,
        _ => true,
    }
}

fn is_good_drift(word: u64) -> bool
    ensures { IsTrue result ↔ (word % 2 ^ 32 ≤ 1000000000) }
{
    word % (1 << 32) <= u64::from(MOST_DRIFT)
}

fn is_good_status(word: u64) -> bool
    ensures { IsTrue result ↔ (word / 2 ^ 32 ≤ 3) }
{
    word >> 32 <= 3
}
