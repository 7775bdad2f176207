use super::*;
use clock_gate::{CallRow, ClockRow, HostRow, Party, Turn};
use std::test::Fail;

// The expected texts were written by another program of these rules.
const SIX_SECONDS: &str = "clockbound-trace,1
page,56434c4b68000000010001000200000007000000000000000000000000000000000000000000000000000000000000000000000000000000000000000000000000000000000000000000000000000000000000000000000000000000000000000000000000000000
clock,1000000000,1700000001000000000,1700000001000007609
poll,06020000002100050000000000000000000000010000000000000000a9fea97ba9fea97b0000000000000000000000000001000000040000000000006500000100000000f00477080000000000000000000000000000000000000000ec800000ea80000000000000
call,1
call,2
call,3
clock,2000000000,1700000002000000000,1700000001999989440
poll,06020000002100050000000000000000000000020000000000000000a9fea97ba9fea97b0000000000000000000000000001000000040000000000006500000200000000f00b0d740000000000000000000000000000000000000000ec800000ea80000000000000
call,1
call,2
call,3
clock,3000000000,1700000003000000000,1700000002999989530
poll,06020000002100050000000000000000000000030000000000000000a9fea97ba9fea97b0000000000000000000000000001000000040000000000006500000300000000f00a3f9b0000000000000000000000000000000000000000ec800000ea80000000000000,5
call,1
call,2
call,3
disrupt
mark,8
clock,4000000000,1700000004000000000,1700000003999983937
poll,06020000002100050000000000000000000000040000000000000000a9fea97ba9fea97b0000000000000000000000000001000000040000000000006500000400000000f000bbc70000000000000000000000000000000000000000ec800000ea80000000000000
call,1
call,2
call,3
clock,5000000000,1700000005000000000,1700000004999985345
poll,06020000002100050000000000000000000000050000000000000000a9fea97ba9fea97b0000000000000000000000000001000000040000000000006500000500000000f009749b0000000000000000000000000000000000000000ec800000ea80000000000000
call,1
call,2
call,3
clock,6000000000,1700000006000000000,1700000005999993504
poll,06020000002100050000000000000000000000060000000000000000a9fea97ba9fea97b0000000000000000000000000001000000040000000000006500000600000000f00ea6d20000000000000000000000000000000000000000ec800000ea80000000000000
call,1
call,2
call,3
";

// The first second of the day with six polls, and the end of its schedule, for two seeds.
const FIRST_OF_1: &str = "clock,1000000000,1700000001000000000,1700000000999992054
poll,06020000002100050000000000000000000000010000000000000000a9fea97ba9fea97b0000000000000000000000000001000000040000000000006500000100000000f00443590000000000000000000000000000000000000000ec800000ea80000000000000
call,1
call,2
call,3
";

const LAST_OF_1: &str = "run,d,17
run,c3,2
run,h,2
run,h,6
run,d,19
";

const FIRST_OF_GREATEST: &str = "clock,1000000000,1700000001000000000,1700000001000013126
poll,06020000002100050000000000000000000000010000000000000000a9fea97ba9fea97b0000000000000000000000000001000000040000000000006500000100000000f004aab70000000000000000000000000000000000000000ec800000ea80000000000000
call,1
call,2
call,3
";

const LAST_OF_GREATEST: &str = "run,d,15
run,c2,16
run,c3,10
run,h,19
run,h,6
";

#[test]
fn the_text_of_six_seconds(rt: HostRuntime) -> Result<(), Fail> {
    let Ok(text) = drill_text(rt.alloc(), 0, 6) else {
        return Err(Fail::from("there is memory"));
    };
    assert_eq!(rt; text.as_slice(), SIX_SECONDS.as_bytes());
    Ok(())
}

#[test]
fn the_texts_of_days_with_a_schedule(rt: HostRuntime) -> Result<(), Fail> {
    for (seed, length, first, last) in [
        (1, 4197, FIRST_OF_1, LAST_OF_1),
        (u64::MAX, 4204, FIRST_OF_GREATEST, LAST_OF_GREATEST),
    ] {
        let Ok(text) = drill_text(rt.alloc(), seed, 6) else {
            return Err(Fail::from("there is memory"));
        };
        assert_eq!(rt; text.len(), length, "length at {seed}");
        // The first second stands after the header and the start page.
        let (_, seconds) = text.as_slice().split_at(text.len().min(233));
        assert!(rt;
            seconds.starts_with(first.as_bytes()),
            "first second at {seed}"
        );
        assert!(rt; seconds.ends_with(last.as_bytes()), "last turns at {seed}");
    }
    Ok(())
}

#[test]
fn the_trace_of_a_day(rt: HostRuntime) -> Result<(), Fail> {
    for (seed, turns) in [(0, 0), (1, 240)] {
        let Ok(trace) = drill_trace(rt.alloc(), seed, 6) else {
            return Err(Fail::from("there is memory"));
        };
        assert_eq!(rt; trace.clock.len(), 6);
        assert_eq!(rt; trace.host.len(), 8);
        assert_eq!(rt; trace.polls.len(), 6);
        assert_eq!(rt; trace.calls.len(), 18);
        assert_eq!(rt; trace.order.len(), 31);
        assert_eq!(rt; trace.turns.len(), turns, "turns at {seed}");
    }
    Ok(())
}

#[test]
fn the_rows_of_a_day(rt: HostRuntime) -> Result<(), Fail> {
    let Ok(trace) = drill_trace(rt.alloc(), 1, 6) else {
        return Err(Fail::from("there is memory"));
    };
    let second = ClockRow {
        mono: 2000000000,
        real: 1700000002000000000,
        truth: Some(1700000002000006389),
    };
    assert_eq!(rt; trace.clock.get(1).copied(), Some(second));
    assert_eq!(rt; trace.host.get(3).copied(), Some(HostRow::Disrupt));
    assert_eq!(rt; trace.host.get(5).copied(), Some(HostRow::Clock(4)));
    assert_eq!(rt;
        trace.calls.get(4).copied(),
        Some(CallRow {
            client: 2,
            tries: 10
        })
    );
    assert_eq!(rt; trace.order.get(4).copied(), Some(Party::Host));
    assert_eq!(rt;
        trace.turns.get(0).copied(),
        Some(Turn::Run(Party::Client(1), 1))
    );
    assert_eq!(rt; trace.polls.get(2).map(|row| row.stop), Some(Some(5)));
    assert_eq!(rt; trace.polls.get(3).map(|row| row.stop), Some(None));
    Ok(())
}
