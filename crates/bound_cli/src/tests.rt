use super::*;
use clock_gate::{List, MemSink, MemSource};
use csv_records::Reason;
use std::alloc::{AllocError, Global};
use std::test::Fail;

pub(crate) const TRACE: &str = "clockbound-trace,1
clock,1000000000,1700000000000000000,1700000000000100000
poll,06020000002100050000000000000000000000010000000000000000a9fea97ba9fea97b0000000000000000000000000001000000040000000000006500000000000000f7ffffff0000000000000000000000000000000000000000ec800000ea80000000000000
clock,3500000000,1700000002500000000,1700000002500100000
call,1
";

// A start page with sequence count 2 and marker 7.
pub(crate) const PAGE: &str =
    "56434c4b68000000010001000200000007000000000000000000000000000000000000000000000000000000000000000000000000000000000000000000000000000000000000000000000000000000000000000000000000000000000000000000000000000000";

// A segment of layout 2 with generation 65,534.
pub(crate) const IMAGE: &str = "4e5a4d4100024243500000000200feff\
    01000000000000000000000000000000e9030000000000000000000000000000\
    aeb9030000000000000000000000000050c30000010000000000000000000000";

const REPORT: &str = "clockbound-report,1
open,1,fresh,0
pub,1,1,2,1,0,1,synchronized,1000000000,244142,0,1
ans,1,1,time,2,2,0,synchronized,1700000002499630858,1700000002500369142
total,1,1,1,0,1,0,0
premises,held
";

pub(crate) fn words(alloc: Global, words: &[&str]) -> Result<Vec<String>, AllocError> {
    let mut all = Vec::new(alloc);
    for word in words {
        all.push(String::from_str(alloc, word)?)?;
    }
    Ok(all)
}

// A source of this text and an empty sink, where each call moves at most so many bytes and the calls of these numbers fail.
pub(crate) fn outside(
    alloc: Global,
    text: &[u8],
    piece: usize,
    read_fails: &[u64],
    room: usize,
    write_fails: &[u64],
) -> Result<(MemSource, MemSink), Fail> {
    let piece = piece.max(1);
    let text = List::from_vec(text.to_vec(alloc)?);
    let source = MemSource::new(text, piece, List::from_vec(read_fails.to_vec(alloc)?));
    let fails = List::from_vec(write_fails.to_vec(alloc)?);
    match MemSink::new(alloc, room, piece, fails) {
        Ok(sink) => Ok((source, sink)),
        Err(_) => Err(Fail::from("there is memory")),
    }
}

// What these words come to over a text, and what is written, where each call moves at most so many bytes and the calls of
// these numbers fail.
pub(crate) fn served(
    alloc: Global,
    given: &[&str],
    text: &[u8],
    piece: usize,
    read_fails: &[u64],
    room: usize,
    write_fails: &[u64],
) -> Result<(Status, Vec<u8>), Fail> {
    let words = words(alloc, given)?;
    let (mut source, mut sink) = outside(alloc, text, piece, read_fails, room, write_fails)?;
    let status = serve(alloc, &words, &mut source, &mut sink);
    Ok((status, sink.bytes().to_vec(alloc)?))
}

fn replayed(alloc: Global, text: &[u8]) -> Result<(Status, Vec<u8>), Fail> {
    served(alloc, &["replay"], text, 65_536, &[], 1_000, &[])
}

// A replay of the trace above.
fn carried(
    alloc: Global,
    piece: usize,
    read_fails: &[u64],
    room: usize,
    write_fails: &[u64],
) -> Result<(Status, Vec<u8>), Fail> {
    let text = TRACE.as_bytes();
    served(
        alloc,
        &["replay"],
        text,
        piece,
        read_fails,
        room,
        write_fails,
    )
}

pub(crate) fn refused(line: u32, reason: Reason) -> Status {
    Status::Trace { line, reason }
}

#[test]
fn a_trace_is_replayed_in_pieces_of_any_size(rt: HostRuntime) -> Result<(), Fail> {
    for piece in [1, 7, 65_536] {
        let (status, written) = carried(rt.alloc(), piece, &[], 1_000, &[])?;
        assert_eq!(rt; status, Status::Ok, "pieces of {piece}");
        assert_eq!(rt; written.as_slice(), REPORT.as_bytes(), "pieces of {piece}");
    }
    Ok(())
}

#[test]
fn csv_may_be_written_in_other_ways(rt: HostRuntime) -> Result<(), Fail> {
    let alloc = rt.alloc();
    let with_quotes = TRACE.replace(alloc, "clock,", "\"clock\",")?;
    let with_returns = TRACE.replace(alloc, "\n", "\r\n")?;
    let with_blank_lines = TRACE.replace(alloc, "\n", "\n\n")?;
    let with_a_mark = format!(in alloc; "\u{feff}{TRACE}")?;
    let without_its_end = TRACE.replace(alloc, "call,1\n", "call,1")?;
    for text in [
        &with_quotes,
        &with_returns,
        &with_blank_lines,
        &with_a_mark,
        &without_its_end,
    ] {
        let (status, written) = replayed(alloc, text.as_bytes())?;
        assert_eq!(rt; status, Status::Ok);
        assert_eq!(rt; written.as_slice(), REPORT.as_bytes());
    }
    Ok(())
}

#[test]
fn each_failing_read_is_answered_with_nothing_written(rt: HostRuntime) -> Result<(), Fail> {
    // In pieces of ten bytes the trace takes 36 calls, and its end one more.
    for number in 1..38 {
        let (status, written) = carried(rt.alloc(), 10, &[number], 1_000, &[])?;
        assert_eq!(rt; status, Status::Read, "call {number}");
        assert!(rt; written.is_empty(), "call {number}");
    }
    let (status, _) = carried(rt.alloc(), 10, &[38], 1_000, &[])?;
    assert_eq!(rt; status, Status::Ok);
    Ok(())
}

#[test]
fn each_failing_write_leaves_a_front_of_the_report(rt: HostRuntime) -> Result<(), Fail> {
    let alloc = rt.alloc();
    let (status, written) = carried(alloc, 65_536, &[], 30, &[])?;
    assert_eq!(rt; status, Status::Write);
    assert_eq!(rt;
        written.as_slice(),
        b"clockbound-report,1\nopen,1,fre".as_slice()
    );
    // In pieces of seven bytes the report takes 28 calls.
    for number in 1..29 {
        let (status, written) = carried(alloc, 7, &[], 1_000, &[number])?;
        assert_eq!(rt; status, Status::Write, "call {number}");
        assert!(rt; REPORT.as_bytes().starts_with(&written), "call {number}");
        assert!(rt; written.len() < REPORT.len(), "call {number}");
    }
    Ok(())
}

#[test]
fn the_first_refused_line_is_named_with_its_reason(rt: HostRuntime) -> Result<(), Fail> {
    let alloc = rt.alloc();
    for (from, to, line, reason) in [
        (TRACE, "", 1, Reason::Kind),
        (
            "clockbound-trace,1",
            "clockbound-trace,2",
            1,
            Reason::Number,
        ),
        ("clockbound-trace,1\n", "", 1, Reason::Order),
        (
            "clock,1000000000,1700000000000000000,",
            "clock,",
            2,
            Reason::Fields,
        ),
        ("clock,1000000000,", "clock,-1,", 2, Reason::Number),
        ("poll,06", "poll,0", 3, Reason::Hex),
        ("poll,0602", "pole,0602", 3, Reason::Kind),
        ("clock,3500000000", "clock,999999999", 4, Reason::ClockBack),
        ("call,1", "call,65", 5, Reason::Number),
        ("call,1", "set,drift,1", 5, Reason::Order),
        ("call,1", "page,00", 5, Reason::Page),
    ] {
        let text = TRACE.replace(alloc, from, to)?;
        let (status, written) = replayed(alloc, text.as_bytes())?;
        assert_eq!(rt; status, refused(line, reason), "{to}");
        assert!(rt; written.is_empty(), "{to}");
    }
    Ok(())
}

// The bytes of a reply with the bound 244,142 ns.
pub(crate) const REPLY: &str =
    "06020000002100050000000000000000000000010000000000000000a9fea97ba9fea97b0000000000000000000000000001000000040000000000006500000000000000f7ffffff0000000000000000000000000000000000000000ec800000ea80000000000000";

// The trace of these lines, where `A` stands for the reply, `I` for the image and `P` for the page.
pub(crate) fn trace_of(alloc: Global, lines: &str) -> Result<String, AllocError> {
    let lines = lines.replace(alloc, "A", REPLY)?;
    let lines = lines.replace(alloc, "I", IMAGE)?;
    let lines = lines.replace(alloc, "P", PAGE)?;
    format!(in alloc; "clockbound-trace,1\n{lines}")
}

// The report on these lines.
fn reported(alloc: Global, lines: &str) -> Result<(Status, Vec<u8>), Fail> {
    let text = trace_of(alloc, lines)?;
    replayed(alloc, text.as_bytes())
}

#[test]
fn the_record_of_an_image_vouches_for_nothing(rt: HostRuntime) -> Result<(), Fail> {
    let lines = "image,I\nclock,2000000000,1700000001000000000\ncall,1\npoll,A\ncall,1\n";
    let report = "clockbound-report,1
ans,1,1,time,65534,1,0,synchronized,1700000000999705858,1700000001000294142
open,1,kept,65534
pub,32768,1,2,1,0,1,synchronized,2000000000,244142,0,1
ans,1,2,time,2,1,0,synchronized,1700000000999755858,1700000001000244142
total,1,2,2,0,2,0,0
premises,failed,1,1,image,0
";
    let (status, written) = reported(rt.alloc(), lines)?;
    assert_eq!(rt; status, Status::Ok);
    assert_eq!(rt; written.as_slice(), report.as_bytes());
    Ok(())
}

#[test]
fn a_run_with_a_disruption_is_reported_event_by_event(rt: HostRuntime) -> Result<(), Fail> {
    let alloc = rt.alloc();
    let cases = [
        (
            "a mark that comes too late",
            "page,P\nclock,1000000000,1700000000000000000,1700000000000000000\npoll,A\ndisrupt\nclock,2000000000,1700000001000000000,1700000001005000000\ncall,1\nmark,8\n",
            "open,1,fresh,0
pub,1,1,2,1,0,1,synchronized,1000000000,244142,7,1
ans,1,1,time,2,2,0,synchronized,1700000000999705858,1700000001000294142
total,1,1,1,0,1,0,0
premises,failed,1,1,mark,2
",
        ),
        (
            "a disruption that the daemon knew of",
            "page,P\nclock,1000000000,1700000000000000000,1700000000000000000\ndisrupt\nmark,8\npoll,A\nclock,2000000000,1700000001000000000,1700000001005000000\ncall,1\n",
            "open,1,fresh,0
pub,1,1,2,1,1,1,synchronized,1000000000,244142,8,1
ans,1,1,time,2,2,1,synchronized,1700000000999705858,1700000001000294142
total,1,1,1,0,1,0,0
premises,failed,1,1,drift,2
",
        ),
    ];
    for (name, lines, told) in cases {
        let report = format!(in alloc; "clockbound-report,1\n{told}")?;
        let (status, written) = reported(alloc, lines)?;
        assert_eq!(rt; status, Status::Ok, "{name}");
        assert_eq!(rt; written.as_slice(), report.as_bytes(), "{name}");
    }
    Ok(())
}

// A source whose first read fails: a drill reads nothing.
#[test]
fn a_generated_day_is_told(rt: HostRuntime) -> Result<(), Fail> {
    for (words, told) in [
        (
            ["drill", "0", "600"].as_slice(),
            "drill,0,600\ntotal,599,1800,1797,0,1791,0,6\npremises,held\n",
        ),
        (
            ["drill", "007", "00000000000000000006"].as_slice(),
            "drill,7,6\ntotal,5,18,3,0,3,0,0\npremises,held\n",
        ),
        (
            ["drill", "18446744073709551615", "6"].as_slice(),
            "drill,18446744073709551615,6\ntotal,5,18,7,0,4,0,3\npremises,held\n",
        ),
    ] {
        let (status, written) = served(rt.alloc(), words, &[], 7, &[1], 1_000, &[])?;
        assert_eq!(rt; status, Status::Ok, "{told}");
        assert_eq!(rt; written.as_slice(), told.as_bytes(), "{told}");
    }
    Ok(())
}

// The polls of a day differ in sequence, reference time and correction.
#[test]
fn a_generated_day_is_written(rt: HostRuntime) -> Result<(), Fail> {
    let alloc = rt.alloc();
    let words = ["drill", "0", "6", "--trace"].as_slice();
    let (status, written) = served(alloc, words, &[], 65_536, &[1], 10_000, &[])?;
    let reply = REPLY.replace(alloc, "650000000", "650000010")?;
    let reply = reply.replace(alloc, "f7ffffff", "f0047708")?;
    let first = format!(in alloc;
        "clockbound-trace,1\npage,{PAGE}\nclock,1000000000,1700000001000000000,1700000001000007609\npoll,{reply}\ncall,1\n"
    )?;
    assert_eq!(rt; status, Status::Ok);
    assert!(rt; written.as_slice().starts_with(first.as_bytes()));
    Ok(())
}

#[test]
fn pages_and_clocks_are_judged(rt: HostRuntime) -> Result<(), Fail> {
    let alloc = rt.alloc();
    for (word, text, status, told) in [
        (
            "agree",
            "agree-trace,1\nset,1,1,2\nset,2,3,4\nask,1\n",
            Status::Ok,
            "agree-report,1\nagree,2,1,4\n",
        ),
        (
            "agree",
            "agree-trace,1\nset,1,5,4\n",
            refused(2, Reason::Number),
            "",
        ),
        (
            "pagetime",
            "pagetime-trace,1\n",
            Status::Ok,
            "pagetime-report,1\npremises,held\n",
        ),
        (
            "pagetime",
            "pagetime-trace,1\nread,5\n",
            refused(2, Reason::Order),
            "",
        ),
    ] {
        let (found, written) = served(alloc, &[word], text.as_bytes(), 7, &[], 100, &[])?;
        assert_eq!(rt; found, status, "{word}");
        assert_eq!(rt; written.as_slice(), told.as_bytes(), "{word}");
    }
    Ok(())
}

// 2.5 s at 1,000,000 ppb are 2,500,000 ns, where 50,000 ppb are 125,000.
#[test]
fn the_drift_of_a_trace_is_its_own(rt: HostRuntime) -> Result<(), Fail> {
    let alloc = rt.alloc();
    let text = TRACE.replace(alloc, "trace,1\n", "trace,1\nset,drift,1000000\n")?;
    let (status, written) = replayed(alloc, text.as_bytes())?;
    let report = REPORT.replace(
        alloc,
        "1700000002499630858,1700000002500369142",
        "1700000002497255858,1700000002502744142",
    )?;
    assert_eq!(rt; status, Status::Ok);
    assert_eq!(rt; written.as_slice(), report.as_bytes());
    Ok(())
}

// Row by row: an interval of the year 2023, one that 1970 begins in, and an answer without one. The texts are those of
// `date -u` for the seconds, with the nanoseconds after them.
#[test]
fn civil_times_follow_earliest_and_latest(rt: HostRuntime) -> Result<(), Fail> {
    let alloc = rt.alloc();
    let at_1970 = TRACE.replace(alloc, "1000000000,1700000000000000000", "1000000000,0")?;
    let at_1970 = at_1970.replace(alloc, "3500000000,1700000002500000000", "1000000000,0")?;
    for (trace, report) in [
        (
            TRACE,
            "clockbound-report,1
open,1,fresh,0
pub,1,1,2,1,0,1,synchronized,1000000000,244142,0,1
ans,1,1,time,2,2,0,synchronized,1700000002499630858,1700000002500369142,2023-11-14T22:13:22.499630858Z,2023-11-14T22:13:22.500369142Z
total,1,1,1,0,1,0,0
premises,held
",
        ),
        (
            at_1970.as_str(),
            "clockbound-report,1
open,1,fresh,0
pub,1,1,2,1,0,1,synchronized,1000000000,244142,0,1
ans,1,1,time,2,2,0,synchronized,-244142,244142,1969-12-31T23:59:59.999755858Z,1970-01-01T00:00:00.000244142Z
total,1,1,1,0,1,0,0
premises,failed,1,1,bound,1
",
        ),
        (
            "clockbound-trace,1\nclock,1000000000,1700000000000000000\ncall,1\n",
            "clockbound-report,1\nans,1,1,notinit\ntotal,0,1,0,0,0,0,0\npremises,held\n",
        ),
    ] {
        let words = ["replay", "--civil"].as_slice();
        let (status, written) = served(alloc, words, trace.as_bytes(), 7, &[], 1_000, &[])?;
        assert_eq!(rt; status, Status::Ok);
        assert_eq!(rt; written.as_slice(), report.as_bytes());
    }
    Ok(())
}

#[test]
fn the_input_ends_at_its_limit(rt: HostRuntime) -> Result<(), Fail> {
    for (len, want) in [
        (16_777_216, refused(1, Reason::Kind)),
        (16_777_217, Status::TooLong),
    ] {
        let alloc = rt.alloc();
        let feeds = vec![in alloc; b'\n'; len]?;
        let (status, written) = served(alloc, &["replay"], &feeds, 65_536, &[], 10, &[])?;
        assert_eq!(rt; status, want, "{len} line feeds");
        assert!(rt; written.is_empty(), "{len} line feeds");
    }
    Ok(())
}

#[test]
fn a_message_is_decoded(rt: HostRuntime) -> Result<(), Fail> {
    let alloc = rt.alloc();
    for (what, digits, status, text) in [
        ("page", PAGE, Status::Ok, "page,104,1,0,2,7\n"),
        ("page", " 56 43\t4b\n", Status::Ok, "refused,short\n"),
        ("reply", "", Status::Ok, "refused,short\n"),
        (
            "image",
            IMAGE,
            Status::Ok,
            "image,kept,65534,1000000000,1001000000000,244142,0,50000,synchronized,0\n",
        ),
        ("reply", "060", refused(1, Reason::Hex), ""),
        ("image", "", refused(1, Reason::Hex), ""),
        ("page", "0g", refused(1, Reason::Hex), ""),
    ] {
        let words = ["decode", what];
        let (found, written) = served(alloc, &words, digits.as_bytes(), 7, &[], 100, &[])?;
        assert_eq!(rt; found, status, "decode {what}");
        assert_eq!(rt; written.as_slice(), text.as_bytes(), "decode {what}");
    }
    Ok(())
}

#[test]
fn the_first_refused_word_is_named(rt: HostRuntime) -> Result<(), Fail> {
    let alloc = rt.alloc();
    for (given, number) in [
        ([].as_slice(), 1),
        (["replay", "--x"].as_slice(), 2),
        (["threads"].as_slice(), 1),
        (["--help"].as_slice(), 1),
        (["Replay"].as_slice(), 1),
        (["replay", "replay", "replay"].as_slice(), 2),
        (["replay", "civil"].as_slice(), 2),
        (["replay", "--civil", "--civil"].as_slice(), 3),
        (["decode"].as_slice(), 2),
        (["decode", "record"].as_slice(), 2),
        (["decode", "reply", "page"].as_slice(), 3),
        (["pagetime", "x"].as_slice(), 2),
        (["agree", "x"].as_slice(), 2),
        (["drill"].as_slice(), 2),
        (["drill", "x", "6"].as_slice(), 2),
        (["drill", "18446744073709551616", "6"].as_slice(), 2),
        (["drill", "1"].as_slice(), 3),
        (["drill", "0", "5"].as_slice(), 3),
        (["drill", "0", "20001"].as_slice(), 3),
        (["drill", "0", "000000000000000000006"].as_slice(), 3),
        (["drill", "0", "6", "--x"].as_slice(), 4),
        (["drill", "0", "6", "--trace", "x"].as_slice(), 5),
    ] {
        let (status, written) = served(alloc, given, &[], 1, &[1], 100, &[])?;
        assert!(rt; written.is_empty());
        assert_eq!(rt; status, Status::Usage(number));
    }
    Ok(())
}
