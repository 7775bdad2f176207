//! Texts that are refused, each by its first record that is and by the first reason against it.
use super::texts::{headed, refusal, spelled};
use crate::{Reason, TraceFault};
use std::alloc::{AllocError, Global};
use std::test::Fail;

// The first fault of a trace whose third record this is, after a clock row.
fn fault_of(alloc: Global, record: &[u8]) -> Result<Option<TraceFault>, AllocError> {
    let mut lines = Vec::from_slice(alloc, b"clock,5,6\n")?;
    lines.extend_from_slice(record)?;
    let text = headed(alloc, lines.as_slice())?;
    refusal(alloc, text.as_slice())
}

#[test]
fn a_record_of_no_kind_is_refused(rt: HostRuntime) -> Result<(), Fail> {
    let cases: [(&[u8], Reason); 10] = [
        (b"pole", Reason::Kind),
        (b"\"\"", Reason::Kind),
        (b"Clock,5,6", Reason::Kind),
        (b" clock,5,6", Reason::Kind),
        (b"\"clock\"x,5,6", Reason::Kind),
        (b"\xEF\xBB\xBFclock,5,6", Reason::Kind),
        (b"set,", Reason::Kind),
        (b"set,speed", Reason::Kind),
        (b"set,speed,1", Reason::Kind),
        (b"report", Reason::Kind),
    ];
    for (record, reason) in cases {
        let found = fault_of(rt.alloc(), record)?;
        assert_eq!(rt; found, Some(TraceFault { line: 3, reason }), "{record:?}");
    }
    Ok(())
}

#[test]
fn a_record_with_too_few_or_too_many_fields_is_refused(rt: HostRuntime) -> Result<(), Fail> {
    let cases: [(&[u8], Reason); 15] = [
        (b"set", Reason::Fields),
        (b"set,drift", Reason::Fields),
        (b"set,drift,x,", Reason::Fields),
        (b"clockbound-trace", Reason::Fields),
        (b"image", Reason::Fields),
        (b"page,0g,", Reason::Fields),
        (b"clock,5", Reason::Fields),
        (b"clock,5,6,7,8", Reason::Fields),
        (b"mark", Reason::Fields),
        (b"disrupt,1", Reason::Fields),
        (b"poll", Reason::Fields),
        (b"poll,0g,11,", Reason::Fields),
        (b"call", Reason::Fields),
        (b"run,h", Reason::Fields),
        (b"do,h,1,1", Reason::Fields),
    ];
    for (record, reason) in cases {
        let found = fault_of(rt.alloc(), record)?;
        assert_eq!(rt; found, Some(TraceFault { line: 3, reason }), "{record:?}");
    }
    Ok(())
}

#[test]
fn a_field_that_is_no_number_of_its_range_is_refused(rt: HostRuntime) -> Result<(), Fail> {
    let cases: [(&[u8], Reason); 22] = [
        (b"clockbound-trace,2", Reason::Number),
        (b"set,drift,1000000001", Reason::Number),
        (b"set,tries,0", Reason::Number),
        (b"set,tries,1001", Reason::Number),
        (b"set,layout,1", Reason::Number),
        (b"set,layout,4", Reason::Number),
        (b"clock,,6", Reason::Number),
        (b"clock,5,4000000000000000001", Reason::Number),
        (b"clock,000000000000000000005,6", Reason::Number),
        (b"clock,5,6,-1", Reason::Number),
        (b"mark,18446744073709551616", Reason::Number),
        (b"call,0", Reason::Number),
        (b"call,65", Reason::Number),
        (b"call,1,0", Reason::Number),
        (b"call,1,1001", Reason::Number),
        (b"poll,06,11", Reason::Number),
        (b"run,c,1", Reason::Number),
        (b"run,c01,1", Reason::Number),
        (b"run,c65,1", Reason::Number),
        (b"run,h1,1", Reason::Number),
        (b"run,h,0", Reason::Number),
        (b"do,d,1000001", Reason::Number),
    ];
    for (record, reason) in cases {
        let found = fault_of(rt.alloc(), record)?;
        assert_eq!(rt; found, Some(TraceFault { line: 3, reason }), "{record:?}");
    }
    Ok(())
}

// Of two wrong fields the left one is told.
#[test]
fn a_field_that_does_not_stand_for_bytes_is_refused(rt: HostRuntime) -> Result<(), Fail> {
    let cases: [(&[u8], Reason); 5] = [
        (b"poll,0g", Reason::Hex),
        (b"poll,0,11", Reason::Hex),
        (b"image,", Reason::Hex),
        (b"image,4I00", Reason::Hex),
        (b"page,0", Reason::Hex),
    ];
    for (record, reason) in cases {
        let found = fault_of(rt.alloc(), record)?;
        assert_eq!(rt; found, Some(TraceFault { line: 3, reason }), "{record:?}");
    }
    Ok(())
}

#[test]
fn a_record_out_of_its_place_is_refused(rt: HostRuntime) -> Result<(), Fail> {
    let cases: [(&[u8], u32, Reason); 14] = [
        (b"clockbound-trace,1", 2, Reason::Order),
        (b"set,drift,1\nset,drift,1", 3, Reason::Order),
        (b"set,tries,1\nset,drift,1\nset,tries,2", 4, Reason::Order),
        (b"set,layout,2\nset,layout,2", 3, Reason::Order),
        (b"image,4I\nset,layout,2", 3, Reason::Order),
        (b"image,4I\nimage,4I", 3, Reason::Order),
        (b"image,4I\nimage,5I", 3, Reason::Order),
        (b"clock,5,6\nset,drift,1", 3, Reason::Order),
        (b"clock,5,6\nset,tries,1", 3, Reason::Order),
        (b"clock,5,6\nset,layout,3", 3, Reason::Order),
        (b"clock,5,6\nimage,4I", 3, Reason::Order),
        (b"clock,5,6\nimage,5I", 3, Reason::Order),
        (b"run,h,1", 2, Reason::Order),
        (b"do,c1,1", 2, Reason::Order),
    ];
    for (lines, line, reason) in cases {
        let text = headed(rt.alloc(), lines)?;
        let found = refusal(rt.alloc(), text.as_slice())?;
        assert_eq!(rt; found, Some(TraceFault { line, reason }), "{lines:?}");
    }
    Ok(())
}

#[test]
fn a_missing_clock_or_one_that_goes_back_is_refused(rt: HostRuntime) -> Result<(), Fail> {
    let cases: [(&[u8], u32, Reason); 13] = [
        (b"", 2, Reason::NoClock),
        (b"\n\r\n", 2, Reason::NoClock),
        (b"page,P\nset,drift,1", 4, Reason::NoClock),
        (b"poll,", 2, Reason::NoClock),
        (b"call,1", 2, Reason::NoClock),
        (b"disrupt", 2, Reason::NoClock),
        (b"mark,8", 2, Reason::NoClock),
        (b"page,P\nmark,8", 3, Reason::NoClock),
        (b"page,P\npage,P", 3, Reason::NoClock),
        (b"page,P\npage,V", 3, Reason::NoClock),
        (b"page,P\npage,", 3, Reason::NoClock),
        (b"clock,5,6\nclock,4,7", 3, Reason::ClockBack),
        (
            b"clock,5,6\nclock,5,7\n\nclock,9,1\nclock,8,1",
            5,
            Reason::ClockBack,
        ),
    ];
    for (lines, line, reason) in cases {
        let text = headed(rt.alloc(), lines)?;
        let found = refusal(rt.alloc(), text.as_slice())?;
        assert_eq!(rt; found, Some(TraceFault { line, reason }), "{lines:?}");
    }
    Ok(())
}

#[test]
fn a_page_or_an_image_that_is_not_admitted_is_refused(rt: HostRuntime) -> Result<(), Fail> {
    let cases: [(&[u8], u32, Reason); 10] = [
        (b"page,", 2, Reason::Page),
        (b"page,V", 2, Reason::Page),
        (b"clock,5,6\npage,P", 3, Reason::Page),
        (b"clock,5,6\nmark,8", 3, Reason::Page),
        (b"page,P\nclock,5,6\npage,V", 4, Reason::Page),
        (b"page,P\nclock,5,6\npage,Q", 4, Reason::Page),
        (b"page,Q\nclock,5,6\nmark,8\npage,P", 5, Reason::Page),
        (b"image,5I", 2, Reason::Image),
        (b"image,4J", 2, Reason::Image),
        (b"set,layout,2\nimage,4J", 3, Reason::Image),
    ];
    for (lines, line, reason) in cases {
        let text = headed(rt.alloc(), lines)?;
        let found = refusal(rt.alloc(), text.as_slice())?;
        assert_eq!(rt; found, Some(TraceFault { line, reason }), "{lines:?}");
    }
    Ok(())
}

#[test]
fn the_first_record_is_the_header(rt: HostRuntime) -> Result<(), Fail> {
    let cases: [(&[u8], Reason); 11] = [
        (b"", Reason::Kind),
        (b"\n\r\n\r", Reason::Kind),
        (b"\xEF\xBB\xBF", Reason::Kind),
        (b"x", Reason::Kind),
        (
            b"\xEF\xBB\xBF\xEF\xBB\xBFclockbound-trace,1\n",
            Reason::Kind,
        ),
        (b"clockbound-trace,2\n", Reason::Number),
        (b"clock,5,6\nclockbound-trace,1\n", Reason::Order),
        (b"poll,\n", Reason::Order),
        (b"set,drift,1\n", Reason::Order),
        (b"page,P\n", Reason::Order),
        (b"image,5I\n", Reason::Order),
    ];
    for (text, reason) in cases {
        let text = spelled(rt.alloc(), text)?;
        let found = refusal(rt.alloc(), text.as_slice())?;
        assert_eq!(rt; found, Some(TraceFault { line: 1, reason }), "{text:?}");
    }
    Ok(())
}
