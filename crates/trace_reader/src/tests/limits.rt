//! Texts at their limits and one over them.
use super::texts::{refusal, repeated};
use crate::{Reason, TraceFault};
use std::test::Fail;

#[test]
fn a_list_is_no_longer_than_its_limit(rt: HostRuntime) -> Result<(), Fail> {
    let cases: [(&[u8], usize); 5] = [
        (b"poll,\n", 100_000),
        (b"call,1\n", 300_000),
        (b"disrupt\n", 299_999),
        (b"mark,8\n", 299_999),
        (b"do,h,1\n", 1_000_000),
    ];
    for (row, most) in cases {
        let mut text = repeated(rt.alloc(), b"page,P\nclock,5,6\n", row, most)?;
        assert_eq!(rt; refusal(rt.alloc(), text.as_slice())?, None, "{row:?}");
        text.extend_from_slice(row)?;
        let found = refusal(rt.alloc(), text.as_slice())?.map(|fault| fault.reason);
        assert_eq!(rt; found, Some(Reason::Limit), "{row:?}");
    }
    Ok(())
}

#[test]
fn the_poll_that_is_one_too_many_is_named(rt: HostRuntime) -> Result<(), Fail> {
    let mut text = repeated(rt.alloc(), b"clock,5,6\n", b"poll,\n", 100_000)?;
    text.extend_from_slice(b"poll,\n")?;
    let limit = TraceFault {
        line: 100_003,
        reason: Reason::Limit,
    };
    assert_eq!(rt; refusal(rt.alloc(), text.as_slice())?, Some(limit));
    Ok(())
}

#[test]
fn an_earlier_test_comes_before_the_limit(rt: HostRuntime) -> Result<(), Fail> {
    let mut text = repeated(rt.alloc(), b"clock,5,6\n", b"poll,\n", 100_000)?;
    text.extend_from_slice(b"poll,0\n")?;
    let hex = TraceFault {
        line: 100_003,
        reason: Reason::Hex,
    };
    assert_eq!(rt; refusal(rt.alloc(), text.as_slice())?, Some(hex));
    Ok(())
}

#[test]
fn a_schedule_has_no_more_turns_than_its_limit(rt: HostRuntime) -> Result<(), Fail> {
    let mut text = repeated(rt.alloc(), b"clock,5,6\n", b"run,d,1000000\n", 50)?;
    text.extend_from_slice(b"do,h,1000000\n")?;
    assert_eq!(rt; refusal(rt.alloc(), text.as_slice())?, None);
    text.extend_from_slice(b"run,c1,1\n")?;
    let limit = TraceFault {
        line: 54,
        reason: Reason::Limit,
    };
    assert_eq!(rt; refusal(rt.alloc(), text.as_slice())?, Some(limit));
    Ok(())
}

#[test]
fn a_field_is_no_longer_than_its_limit(rt: HostRuntime) -> Result<(), Fail> {
    let page = b"page,P";
    let cases: [(&[u8], usize, Reason); 2] = [
        (b"clock,5,6\npoll,", 1_024, Reason::Hex),
        (page, 3_992, Reason::Hex),
    ];
    for (lines, most, reason) in cases {
        let text = repeated(rt.alloc(), lines, b"00", most)?;
        let found = refusal(rt.alloc(), text.as_slice())?.map(|fault| fault.reason);
        assert!(rt; found != Some(reason), "{most}");
        let text = repeated(rt.alloc(), lines, b"00", most + 1)?;
        let found = refusal(rt.alloc(), text.as_slice())?.map(|fault| fault.reason);
        assert_eq!(rt; found, Some(reason), "{most}");
    }
    Ok(())
}
