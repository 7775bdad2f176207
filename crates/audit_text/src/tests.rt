use crate::audited;
use std::alloc::Global;
use std::test::Fail;
use trace_reader::{Reason, TraceError, TraceFault};

const TRACE: &str = "clockbound-trace,1
clock,1000000000,1700000000000000000,1700000000000100000
poll,06020000002100050000000000000000000000010000000000000000a9fea97ba9fea97b0000000000000000000000000001000000040000000000006500000000000000f7ffffff0000000000000000000000000000000000000000ec800000ea80000000000000
clock,3500000000,1700000002500000000,1700000002500100000
call,1
";

const DAEMON: &str =
    "clockbound-report,1\nopen,1,fresh,0\npub,1,1,2,1,0,2,synchronized,1000000000,244142,0,1\n";

const ANSWER: &str = "ans,1,1,time,2,2,0,synchronized,1700000002499630858,1700000002500369142\n";

const TOTAL: &str = "total,1,1,1,0,1,0,0\n";

fn tells(alloc: Global, text: &[u8], want: &[u8]) -> bool {
    match audited(alloc, text) {
        Ok(output) => output.as_slice() == want,
        Err(_) => false,
    }
}

fn is_refused(alloc: Global, text: &[u8], line: u32, reason: Reason) -> bool {
    match audited(alloc, text) {
        Ok(_) => false,
        Err(TraceError::Refused(fault)) => fault == TraceFault { line, reason },
        Err(TraceError::Memory) => false,
    }
}

#[test]
fn the_first_unlawful_line_is_told(rt: HostRuntime) -> Result<(), Fail> {
    let alloc = rt.alloc();
    for (case, answer, total, told) in [
        ("a lawful report", ANSWER, TOTAL, "lawful\n"),
        (
            "a clock row before the reply",
            "ans,1,1,time,2,1,0,synchronized,1700000002499630858,1700000002500369142\n",
            TOTAL,
            "unlawful,4\n",
        ),
        (
            "a call before the first record",
            "ans,1,1,notinit\n",
            "total,1,1,0,0,0,0,0\n",
            "lawful\n",
        ),
        ("the counts are missing", ANSWER, "", "unlawful,5\n"),
        (
            "the counts without their line feed",
            ANSWER,
            "total,1,1,1,0,1,0,0",
            "unlawful,5\n",
        ),
        (
            "a line after the counts",
            ANSWER,
            "total,1,1,1,0,1,0,0\nreport\n",
            "unlawful,6\n",
        ),
        (
            "a second line of that word",
            "report\n",
            TOTAL,
            "unlawful,4\n",
        ),
    ] {
        let text = format!(in alloc; "{TRACE}report\n{DAEMON}{answer}{total}")?;
        assert!(rt; tells(alloc, text.as_bytes(), told.as_bytes()), "{case}");
    }
    Ok(())
}

#[test]
fn the_report_begins_after_the_first_line_of_that_word(rt: HostRuntime) -> Result<(), Fail> {
    let alloc = rt.alloc();
    for (case, report) in [
        ("no bytes", ""),
        ("no line feed", "clockbound-report,1"),
        ("the word once more", "report\nclockbound-report,1\n"),
        ("a header with a leading zero", "clockbound-report,01\n"),
    ] {
        let text = format!(in alloc; "{TRACE}report\n{report}")?;
        assert!(rt; tells(alloc, text.as_bytes(), b"unlawful,1\n"), "{case}");
    }
    Ok(())
}

#[test]
fn a_trace_that_is_refused_is_not_judged(rt: HostRuntime) {
    for (case, text, line, reason) in [
        ("no trace", "report\n", 1, Reason::Kind),
        (
            "no row of the clock",
            "clockbound-trace,1\nreport\n",
            2,
            Reason::NoClock,
        ),
        (
            "a word before it",
            "clockbound-trace,1\nclock,1,1\nno report\nreport\n",
            3,
            Reason::Kind,
        ),
        (
            "a quoted field is cut as well",
            "clockbound-trace,1\nclock,1,\"1\nreport\n\"\n",
            2,
            Reason::Number,
        ),
        (
            "a refused record and no line of that word",
            "clockbound-trace,1\nclock,2,1\nclock,1,1\n",
            3,
            Reason::ClockBack,
        ),
    ] {
        assert!(rt;
            is_refused(rt.alloc(), text.as_bytes(), line, reason),
            "{case}"
        );
    }
}

#[test]
fn a_text_without_that_line_is_refused_at_its_end(rt: HostRuntime) {
    for (case, text, line) in [
        ("no bytes", "", 1),
        ("no line of that word", "clockbound-trace,1\nclock,1,1\n", 3),
        (
            "empty lines aren't counted",
            "clockbound-trace,1\n\nclock,1,1\n\n",
            3,
        ),
        (
            "the word without a line feed",
            "clockbound-trace,1\nclock,1,1\nreport",
            3,
        ),
        (
            "the word with a carriage return",
            "clockbound-trace,1\nclock,1,1\nreport\r\nreport\n",
            3,
        ),
    ] {
        assert!(rt;
            is_refused(rt.alloc(), text.as_bytes(), line, Reason::Kind),
            "{case}"
        );
    }
}
