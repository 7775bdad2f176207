use super::*;
use crate::order_tests::{REPLY, served};
use csv_records::Reason;
use std::alloc::Global;
use std::test::Fail;

// A segment of layout 2 with generation 65,534.
const IMAGE: &str = "4e5a4d4100024243500000000200feff\
    01000000000000000000000000000000e9030000000000000000000000000000\
    aeb9030000000000000000000000000050c30000010000000000000000000000";

const DAEMON: &str =
    "clockbound-report,1\nopen,1,fresh,0\npub,1,1,2,1,0,2,synchronized,1000000000,244142,0,1\n";

const ANSWER: &str = "ans,1,1,time,2,2,0,synchronized,1700000002499630858,1700000002500369142\n";

const TOTAL: &str = "total,1,1,1,0,1,0,0\n";

const NO_TIMES: &str = "total,1,1,0,0,0,0,0\n";

// The trace of one poll between two rows of the clock, and a call.
fn one_poll(alloc: Global) -> Result<String, Fail> {
    Ok(format!(in alloc;
        "clockbound-trace,1
clock,1000000000,1700000000000000000,1700000000000100000
poll,{REPLY}
clock,3500000000,1700000002500000000,1700000002500100000
call,1
"
    )?)
}

// What an audit comes to of a report with these lines on that trace, and what is written.
fn audited(
    alloc: Global,
    daemon: &str,
    answer: &str,
    total: &str,
) -> Result<(Status, Vec<u8>), Fail> {
    let trace = one_poll(alloc)?;
    let text = format!(in alloc; "{trace}report\n{daemon}{answer}{total}")?;
    served(alloc, &["audit"], text.as_str())
}

#[test]
fn an_answer_is_lawful_where_threads_can_give_it(rt: HostRuntime) -> Result<(), Fail> {
    for (case, answer, total, told) in [
        ("what threads can give", ANSWER, TOTAL, "lawful\n"),
        (
            "a clock row before the reply",
            "ans,1,1,time,2,1,0,synchronized,1700000002499630858,1700000002500369142\n",
            TOTAL,
            "unlawful,4\n",
        ),
        (
            "a call before the first record",
            "ans,1,1,notinit\n",
            NO_TIMES,
            "lawful\n",
        ),
        (
            "tries that met the open update",
            "ans,1,1,busy,10,1,1\n",
            NO_TIMES,
            "lawful\n",
        ),
        (
            "a generation that isn't reached",
            "ans,1,1,busy,10,2,4\n",
            NO_TIMES,
            "unlawful,4\n",
        ),
    ] {
        let (status, written) = audited(rt.alloc(), DAEMON, answer, total)?;
        assert_eq!(rt; status, Status::Ok, "{case}");
        assert_eq!(rt; written.as_slice(), told.as_bytes(), "{case}");
    }
    Ok(())
}

#[test]
fn the_first_unlawful_line_is_told(rt: HostRuntime) -> Result<(), Fail> {
    for (case, daemon, total, told) in [
        (
            "another bound",
            "clockbound-report,1\nopen,1,fresh,0\npub,1,1,2,1,0,2,synchronized,1000000000,244143,0,1\n",
            TOTAL,
            "unlawful,3\n",
        ),
        ("the counts are missing", DAEMON, "", "unlawful,5\n"),
        (
            "a line of premises",
            DAEMON,
            "total,1,1,1,0,1,0,0\npremises,held\n",
            "unlawful,6\n",
        ),
    ] {
        let (status, written) = audited(rt.alloc(), daemon, ANSWER, total)?;
        assert_eq!(rt; status, Status::Ok, "{case}");
        assert_eq!(rt; written.as_slice(), told.as_bytes(), "{case}");
    }
    Ok(())
}

// A report with this move and this publication, on a trace of this layout whose image has a record in layout 2.
fn moved_report(alloc: Global, layout: &str, moved: &str, published: &str) -> Result<String, Fail> {
    Ok(format!(in alloc;
        "clockbound-trace,1
set,layout,{layout}
image,{IMAGE}
clock,2000000000,1700000001000000000
call,1,1
poll,{REPLY}
call,1
report
clockbound-report,1
open,1,kept,65534
{moved}{published}ans,1,1,busy,1,65534,65535
ans,1,2,time,65538,1,0,synchronized,1700000000999755858,1700000001000244142
total,1,2,1,0,1,0,0
"
    )?)
}

// Such an image is moved where the trace's layout is 3, and nowhere else.
#[test]
fn the_moved_line_stands_in_layout_three(rt: HostRuntime) -> Result<(), Fail> {
    let alloc = rt.alloc();
    for (case, layout, moved, published, told) in [
        (
            "moved, and published after it",
            "3",
            "moved,1,32768,65536\n",
            "pub,32769,1,65538,1,0,1,synchronized,2000000000,244142,0,1\n",
            "lawful\n",
        ),
        (
            "not moved",
            "3",
            "",
            "pub,32768,1,65536,1,0,1,synchronized,2000000000,244142,0,1\n",
            "unlawful,3\n",
        ),
        (
            "no move in layout 2",
            "2",
            "moved,1,32768,2\n",
            "pub,32769,1,4,1,0,1,synchronized,2000000000,244142,0,1\n",
            "unlawful,3\n",
        ),
    ] {
        let text = moved_report(alloc, layout, moved, published)?;
        let (status, written) = served(alloc, &["audit"], text.as_str())?;
        assert_eq!(rt; status, Status::Ok, "{case}");
        assert_eq!(rt; written.as_slice(), told.as_bytes(), "{case}");
    }
    Ok(())
}

#[test]
fn a_text_without_a_report_is_refused(rt: HostRuntime) -> Result<(), Fail> {
    let alloc = rt.alloc();
    let trace = one_poll(alloc)?;
    let (status, written) = served(alloc, &["audit"], trace.as_str())?;
    assert!(rt; written.is_empty());
    assert_eq!(rt;
        status,
        Status::Trace {
            line: 6,
            reason: Reason::Kind,
        }
    );
    Ok(())
}

#[test]
fn an_audit_has_no_second_word(rt: HostRuntime) -> Result<(), Fail> {
    let alloc = rt.alloc();
    let (status, written) = served(alloc, &["audit", "report"], "")?;
    assert!(rt; written.is_empty());
    assert_eq!(rt; status, Status::Usage(2));
    Ok(())
}
