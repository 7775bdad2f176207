use super::*;
use clock_gate::{List, MemSink, MemSource};
use csv_records::Reason;
use std::alloc::Global;
use std::process::Abort;
use std::test::Fail;

pub(crate) const REPLY: &str =
    "06020000002100050000000000000000000000010000000000000000a9fea97ba9fea97b0000000000000000000000000001000000040000000000006500000000000000f7ffffff0000000000000000000000000000000000000000ec800000ea80000000000000";

// What these words come to over a text, and what is written.
pub(crate) fn served(alloc: Global, given: &[&str], text: &str) -> Result<(Status, Vec<u8>), Fail> {
    let mut words = Vec::new(alloc);
    for word in given {
        words.push(String::from_str(alloc, word)?)?;
    }
    let text = List::from_vec(text.as_bytes().to_vec(alloc)?);
    let mut source = MemSource::new(text, 4_096, List::from_vec(Vec::new(alloc)));
    let Ok(mut sink) = MemSink::new(alloc, 10_000, 4_096, List::from_vec(Vec::new(alloc))) else {
        return Err(Fail::from("there is memory"));
    };
    let status = serve(alloc, &words, &mut source, &mut sink);
    Ok((status, sink.bytes().to_vec(alloc)?))
}

// Over a text with leases of this length nothing is refused, and this is written.
fn tells(rt: &impl Abort, alloc: Global, length: &str, text: &str, told: &str) -> Result<(), Fail> {
    let (status, written) = served(alloc, &["order", length], text)?;
    assert_eq!(rt; status, Status::Ok);
    assert_eq!(rt; written.as_slice(), told.as_bytes());
    Ok(())
}

#[test]
fn the_first_client_holds_the_lease(rt: HostRuntime) -> Result<(), Fail> {
    let alloc = rt.alloc();
    let text = format!(in alloc;
        "clockbound-trace,1
clock,1000000000,1700000000000000000,1700000000000000000
poll,{REPLY}
call,1
clock,2000000000,1700000001000000000,1700000001000000000
call,1
call,2
call,1
"
    )?;
    let told = "order-report,1
stamp,1,1,1700000000000244142
grant,1,1,1700000000001244142
done,1,2,1700000000000244142
grant,1,2,1700000001001294142
stamp,2,1,1700000001000294142
deny,2,1
stamp,1,3,1700000001000294142
act,1,3
total,3,1,2,1
premises,held
";
    tells(&rt, alloc, "1000000", text.as_str(), told)
}

#[test]
fn an_answer_without_an_interval_passes(rt: HostRuntime) -> Result<(), Fail> {
    let alloc = rt.alloc();
    let text = format!(in alloc;
        "clockbound-trace,1\nclock,1000000000,1700000000000000000\ncall,1\npoll,{REPLY}\n"
    )?;
    let told = "order-report,1\npass,1,1\ntotal,0,0,0,0\npremises,held\n";
    tells(&rt, alloc, "0", text.as_str(), told)
}

// The first earliest is 999,755,858. 900,000 ns later the half width has grown by 45 ns, and earliest is 1,000,705,813.
#[test]
fn leases_without_length_end_at_their_latest(rt: HostRuntime) -> Result<(), Fail> {
    let alloc = rt.alloc();
    let text = format!(in alloc;
        "clockbound-trace,1
clock,1000000000,1000000000
poll,{REPLY}
call,1
call,1
call,64
clock,1000900000,1000950000
call,1
"
    )?;
    let told = "order-report,1
stamp,1,1,1000244142
grant,1,1,1000244142
hold,1,2
deny,1,2
stamp,64,1,1000244142
deny,64,1
done,1,3,1000244142
grant,1,3,1001194187
total,2,1,2,0
premises,failed,1,1,untold,1
";
    tells(&rt, alloc, "00000000000000000000", text.as_str(), told)
}

#[test]
fn a_length_is_a_number_up_to_the_longest(rt: HostRuntime) -> Result<(), Fail> {
    let alloc = rt.alloc();
    let no_line = Status::Trace {
        line: 2,
        reason: Reason::Kind,
    };
    for (given, status) in [
        (["order"].as_slice(), Status::Usage(2)),
        (["order", ""].as_slice(), Status::Usage(2)),
        (["order", "-1"].as_slice(), Status::Usage(2)),
        (
            ["order", "1000000000000000001"].as_slice(),
            Status::Usage(2),
        ),
        (
            ["order", "000000000000000000001"].as_slice(),
            Status::Usage(2),
        ),
        (["order", "x", "x"].as_slice(), Status::Usage(2)),
        (["order", "1", "x"].as_slice(), Status::Usage(3)),
        (["order", "01000000000000000000"].as_slice(), no_line),
        (["order", "0"].as_slice(), no_line),
    ] {
        let (found, written) = served(alloc, given, "clockbound-trace,1\npole\n")?;
        assert!(rt; written.is_empty());
        assert_eq!(rt; found, status);
    }
    Ok(())
}
