//! Texts that are read, and the traces that they say.
use super::texts::{headed, refusal, spelled};
use crate::{TraceError, read_trace};
use clock_gate::{CallRow, ClockRow, HostRow, Party, Trace, Turn};
use generation_word::Layout;
use std::alloc::{AllocError, Global};
use std::test::Fail;

const PAGE_WORDS: [u64; 13] = [
    0x0000_0068_4b4c_4356,
    0x0000_0002_0001_0001,
    7,
    0,
    0,
    0,
    0,
    0,
    0,
    0,
    0,
    0,
    0,
];

// The trace of a header and these lines, which are accepted.
fn trace(alloc: Global, lines: &[u8]) -> Result<Option<Trace>, AllocError> {
    let text = headed(alloc, lines)?;
    match read_trace(alloc, text.as_slice()) {
        Ok(trace) => Ok(Some(trace)),
        Err(TraceError::Refused(_)) => Ok(None),
        Err(TraceError::Memory) => Err(AllocError),
    }
}

const LINES: &[u8] = b"set,drift,7
set,layout,3
set,tries,20
image,4I
page,P
clock,5,6
\"clock\",5,7,8
mark,9
page,P
disrupt
poll,0aFF,3
poll,
call,3
call,2,1000
run,h,1000000
do,c9,5
run,d,00000000000000000002
clock,9,1
";

#[test]
fn settings_image_and_page_are_those_of_the_lines(rt: HostRuntime) -> Result<(), Fail> {
    let Some(trace) = trace(rt.alloc(), LINES)? else {
        assert!(rt; false, "refused");
        return Ok(());
    };
    assert_eq!(rt; trace.drift, 7);
    assert_eq!(rt; trace.tries, 20);
    assert_eq!(rt; trace.clients, 3);
    assert!(rt; trace.layout == Layout::Three);
    let image = [
        0x4342_0200_414d_5a4e,
        0xfffe_0002_0000_0050,
        1,
        0,
        1001,
        0,
        244_142,
        0,
        0x0000_0001_0000_c350,
        0,
    ];
    assert!(rt; trace.image == image);
    assert!(rt; trace.page == Some(PAGE_WORDS));
    Ok(())
}

#[test]
fn clock_rows_are_those_of_the_lines(rt: HostRuntime) -> Result<(), Fail> {
    let Some(trace) = trace(rt.alloc(), LINES)? else {
        assert!(rt; false, "refused");
        return Ok(());
    };
    let clock = [
        ClockRow {
            mono: 5,
            real: 6,
            truth: None,
        },
        ClockRow {
            mono: 5,
            real: 7,
            truth: Some(8),
        },
        ClockRow {
            mono: 9,
            real: 1,
            truth: None,
        },
    ];
    assert!(rt; trace.clock.as_slice() == clock.as_slice());
    Ok(())
}

#[test]
fn the_host_has_a_row_for_each_of_its_lines(rt: HostRuntime) -> Result<(), Fail> {
    let Some(trace) = trace(rt.alloc(), LINES)? else {
        assert!(rt; false, "refused");
        return Ok(());
    };
    let mut marked = PAGE_WORDS;
    marked[2] = 9;
    let host = [
        HostRow::Clock(1),
        HostRow::Clock(2),
        HostRow::Page(marked),
        HostRow::Page(PAGE_WORDS),
        HostRow::Disrupt,
        HostRow::Clock(3),
    ];
    assert!(rt; trace.host.as_slice() == host.as_slice());
    Ok(())
}

#[test]
fn calls_turns_and_their_order_are_those_of_the_lines(rt: HostRuntime) -> Result<(), Fail> {
    let Some(trace) = trace(rt.alloc(), LINES)? else {
        assert!(rt; false, "refused");
        return Ok(());
    };
    let calls = [
        CallRow {
            client: 3,
            tries: 20,
        },
        CallRow {
            client: 2,
            tries: 1000,
        },
    ];
    assert!(rt; trace.calls.as_slice() == calls.as_slice());
    let turns = [
        Turn::Run(Party::Host, 1_000_000),
        Turn::Jobs(Party::Client(9), 5),
        Turn::Run(Party::Daemon, 2),
    ];
    assert!(rt; trace.turns.as_slice() == turns.as_slice());
    let order = [
        Party::Host,
        Party::Host,
        Party::Host,
        Party::Host,
        Party::Daemon,
        Party::Daemon,
        Party::Client(3),
        Party::Client(2),
        Party::Host,
    ];
    assert!(rt; trace.order.as_slice() == order.as_slice());
    Ok(())
}

#[test]
fn a_poll_has_its_reply_and_its_stop(rt: HostRuntime) -> Result<(), Fail> {
    let Some(trace) = trace(rt.alloc(), LINES)? else {
        assert!(rt; false, "refused");
        return Ok(());
    };
    assert_eq!(rt; trace.polls.len(), 2);
    if let Some(poll) = trace.polls.get(0) {
        assert!(rt; poll.reply.as_slice() == b"\x0a\xff".as_slice());
        assert_eq!(rt; poll.stop, Some(3));
    }
    if let Some(poll) = trace.polls.get(1) {
        assert!(rt; poll.reply.is_empty());
        assert_eq!(rt; poll.stop, None);
    }
    Ok(())
}

#[test]
fn what_no_line_sets_is_usual(rt: HostRuntime) -> Result<(), Fail> {
    let Some(trace) = trace(rt.alloc(), b"clock,5,6\ncall,1")? else {
        assert!(rt; false, "refused");
        return Ok(());
    };
    assert_eq!(rt; trace.drift, 50_000);
    assert_eq!(rt; trace.tries, 10);
    assert_eq!(rt; trace.clients, 1);
    assert!(rt; trace.layout == Layout::Two);
    assert!(rt; trace.image == [0; 10]);
    assert!(rt; trace.page.is_none());
    assert!(rt; trace.host.as_slice() == [HostRow::Clock(1)].as_slice());
    let calls = [CallRow {
        client: 1,
        tries: 10,
    }];
    assert!(rt; trace.calls.as_slice() == calls.as_slice());
    assert!(rt; trace.polls.is_empty());
    assert!(rt; trace.turns.is_empty());
    assert!(rt; trace.order.as_slice() == [Party::Client(1)].as_slice());
    Ok(())
}

// Of the page the two pad bytes are not told, and neither is what follows its 104 bytes.
#[test]
fn a_page_is_its_fields(rt: HostRuntime) -> Result<(), Fail> {
    let page =
        b"page,56434c4b68000000010001000200000007000000000000000000000000000000ffff000000000000\
00000000000000000000000000000000000000000000000000000000000000000000000000000000\
000000000000000000000000000000000000000000000000ee\nclock,5,6";
    let Some(trace) = trace(rt.alloc(), page)? else {
        assert!(rt; false, "refused");
        return Ok(());
    };
    assert!(rt; trace.page == Some(PAGE_WORDS));
    Ok(())
}

#[test]
fn a_text_may_be_spelled_in_several_ways(rt: HostRuntime) -> Result<(), Fail> {
    let cases: [(&str, &[u8]); 8] = [
        ("leading zero", b"clockbound-trace,01\nclock,5,6"),
        (
            "byte order mark",
            b"\xEF\xBB\xBFclockbound-trace,1\nclock,5,6\n",
        ),
        ("quotes", b"\"clockbound-trace\",\"1\"\n\"clock\",5,6\n"),
        ("open quote", b"clockbound-trace,1\nclock,5,\"6"),
        (
            "carriage returns and line feeds",
            b"clockbound-trace,1\r\nclock,5,6\r\n",
        ),
        ("carriage returns", b"clockbound-trace,1\rclock,5,6\r"),
        (
            "empty lines",
            b"\n\nclockbound-trace,1\n\r\n\nclock,5,6\n\n",
        ),
        ("no end", b"clockbound-trace,1\nclock,5,6"),
    ];
    for (case, text) in cases {
        let text = spelled(rt.alloc(), text)?;
        assert_eq!(rt; refusal(rt.alloc(), text.as_slice())?, None, "{case}");
    }
    Ok(())
}

#[test]
fn a_trace_may_have_these_lines(rt: HostRuntime) -> Result<(), Fail> {
    let cases: [(&str, &[u8]); 10] = [
        ("equal times", b"clockbound-trace,1\nclock,5,6\nclock,5,6\n"),
        (
            "missing reply",
            b"clockbound-trace,1\nclock,5,6\npoll,\npoll,,0\n",
        ),
        ("a reply", b"clockbound-trace,1\nclock,5,6\npoll,A,10\n"),
        (
            "no client",
            b"clockbound-trace,1\nclock,5,6\nrun,c9,5\ndo,c9,5\n",
        ),
        (
            "page rows",
            b"clockbound-trace,1\npage,P\nclock,5,6\npage,P\nmark,18446744073709551615\n",
        ),
        ("an image", b"clockbound-trace,1\nimage,4I\nclock,5,6\n"),
        (
            "layout 2",
            b"clockbound-trace,1\nset,layout,2\nimage,4I\nclock,5,6\n",
        ),
        (
            "an image of layout 2 in layout 3",
            b"clockbound-trace,1\nset,layout,3\nimage,4I\nclock,5,6\n",
        ),
        (
            "an image of layout 3",
            b"clockbound-trace,1\nset,layout,3\nimage,4J\nclock,5,6\n",
        ),
        (
            "the last numbers",
            b"clockbound-trace,1\nset,drift,1000000000\nset,tries,1000\nclock,4000000000000000000,4000000000000000000,04000000000000000000\ncall,64,1000\nrun,c64,1000000\n",
        ),
    ];
    for (case, text) in cases {
        let text = spelled(rt.alloc(), text)?;
        assert_eq!(rt; refusal(rt.alloc(), text.as_slice())?, None, "{case}");
    }
    Ok(())
}
