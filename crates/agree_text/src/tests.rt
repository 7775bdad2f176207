use crate::{MOST_ASKS, MOST_RECORDS, agree};
use csv_records::{Reason, TraceError, TraceFault};
use std::alloc::{AllocError, Global};
use std::test::Fail;

fn tells(alloc: Global, text: &[u8], want: &[u8]) -> bool {
    match agree(alloc, text) {
        Ok(output) => output.as_slice() == want,
        Err(_) => false,
    }
}

fn is_refused(alloc: Global, text: &[u8], line: u32, reason: Reason) -> bool {
    match agree(alloc, text) {
        Ok(_) => false,
        Err(TraceError::Refused(fault)) => fault == TraceFault { line, reason },
        Err(TraceError::Memory) => false,
    }
}

#[test]
fn questions_are_answered_by_the_spans_as_they_are(rt: HostRuntime) {
    let cases: [(&str, &[u8], &[u8]); 7] = [
        (
            "spans come and go",
            b"agree-trace,1\nset,1,10,20\nset,2,15,25\nset,3,18,30\nset,4,40,50\nask,0\nask,1\nask,2\nask,3\ndrop,4\nask,0,19\nask,3\n",
            b"agree-report,1\nagree,4\nagree,4,18,20\nagree,4,15,25\nagree,4,10,30,40,50\nagree,3,18,20\nmisses,0\nagree,3\n",
        ),
        (
            "neighbouring numbers",
            b"agree-trace,1\nset,1,1,2\nset,2,3,4\nask,1\n",
            b"agree-report,1\nagree,2,1,4\n",
        ),
        ("header alone", b"agree-trace,1\n", b"agree-report,1\n"),
        (
            "no span",
            b"agree-trace,1\nask,0\nask,0,5\n",
            b"agree-report,1\nagree,0\nagree,0\nmisses,0\n",
        ),
        (
            "below zero",
            b"agree-trace,1\nset,7,-20,-0\nask,0,-21\nask,0,-20\n",
            b"agree-report,1\nagree,1,-20,0\nmisses,1\nagree,1,-20,0\nmisses,0\n",
        ),
        (
            "ends at both limits",
            b"agree-trace,1\nset,1000,-4611686018427387904,4611686018427387904\nask,0,4611686018427387904\n",
            b"agree-report,1\nagree,1,-4611686018427387904,4611686018427387904\nmisses,0\n",
        ),
        (
            "another span in place of the old, and a server without one",
            b"agree-trace,1\nset,1,1,9\nset,1,3,4\ndrop,2\nask,0\nask,1000\n",
            b"agree-report,1\nagree,1,3,4\nagree,1\n",
        ),
    ];
    for (case, text, want) in cases {
        assert!(rt; tells(rt.alloc(), text, want), "{case}");
    }
}

#[test]
fn a_text_that_is_spelled_otherwise_tells_the_same(rt: HostRuntime) {
    let cases: [(&str, &[u8], &[u8]); 2] = [
        (
            "leading zeros",
            b"agree-trace,01\nset,001,-00000000000000000005,00000000000000000005\nask,00\n",
            b"agree-report,1\nagree,1,-5,5\n",
        ),
        (
            "quotes, carriage returns, a byte order mark and no end of the last line",
            b"\xEF\xBB\xBF\"agree-trace\",1\r\n\r\n\"set\",\"1\",2,3\rask,0",
            b"agree-report,1\nagree,1,2,3\n",
        ),
    ];
    for (case, text, want) in cases {
        assert!(rt; tells(rt.alloc(), text, want), "{case}");
    }
}

#[test]
fn a_text_whose_first_record_is_no_header_is_refused(rt: HostRuntime) {
    let cases: [(&[u8], u32, Reason); 8] = [
        (b"", 1, Reason::Kind),
        (b"\n\n", 1, Reason::Kind),
        (b"x", 1, Reason::Kind),
        (b"agree-report,1\n", 1, Reason::Kind),
        (b"agree-trace\n", 1, Reason::Fields),
        (b"agree-trace,1,1\n", 1, Reason::Fields),
        (b"agree-trace,2\n", 1, Reason::Number),
        (b"ask,0\n", 1, Reason::Order),
    ];
    for (text, line, reason) in cases {
        assert!(rt; is_refused(rt.alloc(), text, line, reason), "{text:?}");
    }
}

#[test]
fn a_record_of_no_kind_or_of_other_fields_is_refused(rt: HostRuntime) {
    let cases: [(&[u8], u32, Reason); 9] = [
        (b"agree-trace,1\nx\n", 2, Reason::Kind),
        (b"agree-trace,1\n\nx\n", 2, Reason::Kind),
        (b"agree-trace,1\n,\n", 2, Reason::Kind),
        (b"agree-trace,1\nset,1,2\n", 2, Reason::Fields),
        (b"agree-trace,1\nset,1,2,3,4\n", 2, Reason::Fields),
        (b"agree-trace,1\ndrop\n", 2, Reason::Fields),
        (b"agree-trace,1\ndrop,1,2\n", 2, Reason::Fields),
        (b"agree-trace,1\nask\n", 2, Reason::Fields),
        (b"agree-trace,1\nask,1,2,3\n", 2, Reason::Fields),
    ];
    for (text, line, reason) in cases {
        assert!(rt; is_refused(rt.alloc(), text, line, reason), "{text:?}");
    }
}

#[test]
fn a_field_that_is_no_number_of_its_range_is_refused(rt: HostRuntime) {
    let cases: [(&[u8], u32, Reason); 13] = [
        (b"agree-trace,1\nset,1,5,4\n", 2, Reason::Number),
        (b"agree-trace,1\nset,0,4,5\n", 2, Reason::Number),
        (b"agree-trace,1\nset,1001,4,5\n", 2, Reason::Number),
        (b"agree-trace,1\nset,1,-,5\n", 2, Reason::Number),
        (b"agree-trace,1\nset,1,+4,5\n", 2, Reason::Number),
        (b"agree-trace,1\nset,1,--4,5\n", 2, Reason::Number),
        (b"agree-trace,1\nset,1,4,\n", 2, Reason::Number),
        (
            b"agree-trace,1\nset,1,4,4611686018427387905\n",
            2,
            Reason::Number,
        ),
        (
            b"agree-trace,1\nset,1,-4611686018427387905,4\n",
            2,
            Reason::Number,
        ),
        (
            b"agree-trace,1\nset,1,-000000000000000000005,4\n",
            2,
            Reason::Number,
        ),
        (b"agree-trace,1\nask,1001\n", 2, Reason::Number),
        (b"agree-trace,1\nask,-1\n", 2, Reason::Number),
        (b"agree-trace,1\nask,0,x\n", 2, Reason::Number),
    ];
    for (text, line, reason) in cases {
        assert!(rt; is_refused(rt.alloc(), text, line, reason), "{text:?}");
    }
}

#[test]
fn the_first_refused_record_is_told_with_its_first_reason(rt: HostRuntime) {
    let cases: [(&[u8], u32, Reason); 2] = [
        (b"agree-trace,1\nask,0\nagree-trace,1\n", 3, Reason::Order),
        (
            b"agree-trace,1\ndrop,1\nagree-trace,2\nx\n",
            3,
            Reason::Number,
        ),
    ];
    for (text, line, reason) in cases {
        assert!(rt; is_refused(rt.alloc(), text, line, reason), "{text:?}");
    }
}

// The header, and then a line so many times.
fn repeated(alloc: Global, line: &str, times: u32) -> Result<String, AllocError> {
    let mut text = String::new(alloc);
    text.push_str("agree-trace,1\n")?;
    for _ in 0..times {
        text.push_str(line)?;
    }
    Ok(text)
}

#[test]
fn one_record_or_question_more_than_may_be_is_refused(rt: HostRuntime) -> Result<(), Fail> {
    let most = repeated(rt.alloc(), "drop,1\n", MOST_RECORDS)?;
    assert!(rt; tells(rt.alloc(), most.as_bytes(), b"agree-report,1\n"));
    let more = repeated(rt.alloc(), "drop,1\n", MOST_RECORDS + 1)?;
    assert!(rt; is_refused(rt.alloc(), more.as_bytes(), 300_002, Reason::Limit));
    let asks = repeated(rt.alloc(), "ask,0\n", MOST_ASKS)?;
    assert!(rt; agree(rt.alloc(), asks.as_bytes()).is_ok());
    let asks = repeated(rt.alloc(), "ask,0\n", MOST_ASKS + 1)?;
    assert!(rt; is_refused(rt.alloc(), asks.as_bytes(), 1_002, Reason::Limit));
    Ok(())
}
