use crate::pagetime;
use csv_records::{Reason, TraceError, TraceFault};
use std::alloc::{AllocError, Global};

// A page of a counter of about 2^30 ticks a second, half a second after 1,700,000,000 s.
const PAGE: [u8; 208] =
    *b"56434c4b680000000100010002000000070000000000000000000000000000000000020000000000\
    000000000000000000000000040000000000000000000000004000000000000000f1536500000000\
    00000000000000800000000000000000e803000000000000";

const HEADER: &str = "pagetime-trace,1\n";

// The header, this page with its own time as the true time, and these records.
fn text_with(alloc: Global, page: &[u8], records: &str) -> Result<Vec<u8>, AllocError> {
    let mut text = Vec::new(alloc);
    text.extend_from_slice(HEADER.as_bytes())?;
    text.extend_from_slice(b"page,")?;
    text.extend_from_slice(page)?;
    text.extend_from_slice(b",1700000000500000000\n")?;
    text.extend_from_slice(records.as_bytes())?;
    Ok(text)
}

fn is_told(alloc: Global, text: &[u8], lines: &str) -> Result<bool, AllocError> {
    let want = format!(in alloc; "pagetime-report,1\n{lines}")?;
    match pagetime(alloc, text) {
        Ok(told) => Ok(told.as_slice() == want.as_bytes()),
        Err(_) => Ok(false),
    }
}

fn fault_of(alloc: Global, text: &[u8]) -> Option<TraceFault> {
    match pagetime(alloc, text) {
        Err(TraceError::Refused(fault)) => Some(fault),
        _ => None,
    }
}

// One tick is less than a nanosecond, and by more than its greatest error.
#[test]
fn readings_are_told_their_intervals(rt: HostRuntime) -> Result<(), AllocError> {
    let alloc = rt.alloc();
    let records = "read,0,1700000000500000000\n\
        read,1,1700000000500000001\n\
        read,1073741824,1700000001500000900\n\
        read,1125899906842625\n";
    let lines = "time,1700000000499999000,1700000000500001000\n\
        time,1700000000499999000,1700000000500001001\n\
        time,1700000001499998046,1700000001500001954\n\
        refused,toofar\n\
        premises,failed,2,rate\n";
    assert!(rt; is_told(alloc, &text_with(alloc, &PAGE, records)?, lines)?);
    Ok(())
}

#[test]
fn the_first_failure_is_told(rt: HostRuntime) -> Result<(), AllocError> {
    let alloc = rt.alloc();
    let second = "time,1700000001499998046,1700000001500001954\n";
    for (records, last) in [
        ("read,1073741824,1700000001500000900\n", "premises,held\n"),
        (
            "read,1073741824,1700000001500000954\n",
            "premises,failed,1,rate\n",
        ),
        ("read,1073741824\n", "premises,failed,1,untold\n"),
        ("read,1073741824,0\n", "premises,failed,1,rate\n"),
    ] {
        let lines = format!(in alloc; "{second}{last}")?;
        assert!(rt;
            is_told(alloc, &text_with(alloc, &PAGE, records)?, lines.as_str())?,
            "{records}"
        );
    }
    Ok(())
}

#[test]
fn a_page_whose_own_time_is_wrong(rt: HostRuntime) -> Result<(), AllocError> {
    let alloc = rt.alloc();
    let mut text = text_with(alloc, &PAGE, "read,18446744073709551615\n")?;
    text.extend_from_slice(b"page,")?;
    text.extend_from_slice(&PAGE)?;
    text.extend_from_slice(b",1700000000500001001\nread,0,1700000000500001001\n")?;
    let lines = "refused,toofar\n\
        time,1700000000499999000,1700000000500001000\n\
        premises,failed,2,page\n";
    assert!(rt; is_told(alloc, &text, lines)?);
    Ok(())
}

#[test]
fn refusals_of_a_page_with_some_digits_changed(rt: HostRuntime) -> Result<(), AllocError> {
    let alloc = rt.alloc();
    let cases: [(usize, &str, &str); 7] = [
        (22, "ff", "refused,type,255\n"),
        (68, "01", "refused,status,1\n"),
        (68, "04", "refused,status,4\n"),
        (78, "29", "refused,shift,41\n"),
        (144, "01286bee", "refused,range,4000000001\n"),
        (
            144,
            "ffffffffffffffff",
            "refused,range,18446744073709551615\n",
        ),
        (80, "01", "refused,back\n"),
    ];
    for (place, digits, want) in cases {
        let mut page = PAGE;
        for (i, digit) in digits.bytes().enumerate() {
            if let Some(old) = page.get_mut(place.saturating_add(i)) {
                *old = digit;
            }
        }
        let lines = format!(in alloc; "{want}premises,held\n")?;
        assert!(rt;
            is_told(alloc, &text_with(alloc, &page, "read,0\n")?, lines.as_str())?,
            "{want}"
        );
    }
    Ok(())
}

#[test]
fn an_earliest_below_zero(rt: HostRuntime) -> Result<(), AllocError> {
    let alloc = rt.alloc();
    let mut page = PAGE;
    page[206] = b'f';
    page[207] = b'f';
    let lines = "time,-16674686479171624680,20074686480171624680\npremises,held\n";
    let records = "read,0,1700000000500000000\n";
    assert!(rt; is_told(alloc, &text_with(alloc, &page, records)?, lines)?);
    Ok(())
}

#[test]
fn a_text_without_readings(rt: HostRuntime) -> Result<(), AllocError> {
    let alloc = rt.alloc();
    for (message, text) in [
        ("the header alone", b"pagetime-trace,1".as_slice()),
        ("a leading zero", b"pagetime-trace,01\n"),
        ("a byte order mark", b"\xEF\xBB\xBFpagetime-trace,1\r\n"),
        ("quotes and empty lines", b"\n\"pagetime-trace\",\"1\"\n\n"),
    ] {
        assert!(rt; is_told(alloc, text, "premises,held\n")?, "{message}");
    }
    assert!(rt; is_told(alloc, &text_with(alloc, &PAGE, "")?, "premises,held\n")?);
    Ok(())
}

#[test]
fn the_first_record_that_is_refused(rt: HostRuntime) {
    let cases: [(&[u8], u32, Reason); 15] = [
        (b"", 1, Reason::Kind),
        (b"\n\r\n", 1, Reason::Kind),
        (b"x\n", 1, Reason::Kind),
        (b"\"\"\n", 1, Reason::Kind),
        (b"clock,5,6\n", 1, Reason::Kind),
        (b"clockbound-trace,1\n", 1, Reason::Kind),
        (b"Pagetime-trace,1\n", 1, Reason::Kind),
        (b"pagetime-trace\n", 1, Reason::Fields),
        (b"pagetime-trace,1,1\n", 1, Reason::Fields),
        (b"pagetime-trace,2\n", 1, Reason::Number),
        (b"pagetime-trace,\n", 1, Reason::Number),
        (b"page,00\n", 1, Reason::Order),
        (b"read,0\nx\n", 1, Reason::Order),
        (b"page,0\n", 1, Reason::Hex),
        (b"read,x\n", 1, Reason::Number),
    ];
    for (text, line, reason) in cases {
        let want = Some(TraceFault { line, reason });
        assert!(rt; fault_of(rt.alloc(), text) == want, "{text:?}");
    }
}

#[test]
fn the_second_record_that_is_refused(rt: HostRuntime) -> Result<(), AllocError> {
    let cases = [
        ("x", Reason::Kind),
        ("page", Reason::Fields),
        ("page,00,0,0", Reason::Fields),
        ("read", Reason::Fields),
        ("read,0,0,0", Reason::Fields),
        ("page,0", Reason::Hex),
        ("page,0g", Reason::Hex),
        ("page,0,x", Reason::Hex),
        ("page,00,x", Reason::Number),
        ("page,00,", Reason::Number),
        ("page,00,4000000000000000001", Reason::Number),
        ("page,00,4000000000000000000", Reason::Page),
        ("read,18446744073709551616", Reason::Number),
        ("read,0,4000000000000000001", Reason::Number),
        ("read,0,", Reason::Number),
        ("read,-1", Reason::Number),
        ("pagetime-trace,1", Reason::Order),
        ("pagetime-trace,2", Reason::Number),
        ("read,18446744073709551615", Reason::Order),
        ("read,0,4000000000000000000", Reason::Order),
        ("page,", Reason::Page),
        ("page,00", Reason::Page),
    ];
    for (record, reason) in cases {
        let text = format!(in rt.alloc(); "{HEADER}\n{record}\nx\n")?;
        let want = Some(TraceFault { line: 2, reason });
        assert!(rt; fault_of(rt.alloc(), text.as_bytes()) == want, "{record}");
    }
    Ok(())
}

#[test]
fn a_page_has_at_most_4096_bytes(rt: HostRuntime) -> Result<(), AllocError> {
    let alloc = rt.alloc();
    let mut page = Vec::new(alloc);
    page.extend_from_slice(&PAGE)?;
    page.resize(8_192, b'0')?;
    assert!(rt; is_told(alloc, &text_with(alloc, &page, "")?, "premises,held\n")?);
    page.resize(8_194, b'0')?;
    let want = TraceFault {
        line: 2,
        reason: Reason::Hex,
    };
    assert!(rt; fault_of(alloc, &text_with(alloc, &page, "")?) == Some(want));
    Ok(())
}

#[test]
fn a_text_has_at_most_300000_records_after_its_header(rt: HostRuntime) -> Result<(), AllocError> {
    let alloc = rt.alloc();
    let mut text = text_with(alloc, &PAGE, "")?;
    for _ in 0..299_999 {
        text.extend_from_slice(b"read,0,1700000000500000000\n")?;
    }
    let told = pagetime(alloc, &text);
    let last = b"premises,held\n";
    let line = b"time,1700000000499999000,1700000000500001000\n";
    assert!(rt;
        told.is_ok_and(|told| told.as_slice().ends_with(last)
            && told.len() == 18 + 299_999 * line.len() + last.len())
    );
    let end = text.len();
    for (record, reason) in [
        (b"read,0\n".as_slice(), Reason::Limit),
        (b"page,00\n", Reason::Page),
        (b"pagetime-trace,1\n", Reason::Order),
    ] {
        text.truncate(end);
        text.extend_from_slice(record)?;
        let want = TraceFault {
            line: 300_002,
            reason,
        };
        assert!(rt; fault_of(alloc, &text) == Some(want));
    }
    Ok(())
}
