ghost use Rattle.std.specs.Prelude.{◌≡◌, ◌+◌, ◌*◌, ◌<◌, ◌≤◌, IfOk, length};
ghost use Rattle.clock_gate.specs.Trace.{IsClockRow, IsLawfulTrace};
ghost use Rattle.promise_judge.specs.Positions.{position_of};
ghost use Rattle.promise_judge.specs.declared.tests.TheConstants.{SECOND as A_SECOND};

use crate::{Claim, Fault, Tables, Why, first_fault, judge};
use clock_gate::{ClockRow, HostRow, List, Memory, Party, Trace};
use generation_word::Layout;
use std::alloc::{AllocError, Global};

const REAL: u64 = 1_700_000_000_000_000_000;

const SECOND: u64 = 1_000_000_000;

fn page(marker: u64) -> [u64; 13] {
    [0, 0, marker, 0, 0, 0, 0, 0, 0, 0, 0, 0, 0]
}

// A clock row so many seconds after the first, and how far true time is ahead of it.
fn told(seconds: u32, ahead: u32) -> ClockRow
    ensures mono { result.mono ≡ A_SECOND + seconds * A_SECOND }
    ensures moments { seconds ≤ 10 → IsClockRow result }
{
    let real = REAL + u64::from(seconds) * SECOND;
    ClockRow {
        mono: SECOND + u64::from(seconds) * SECOND,
        real,
        truth: Some(real + u64::from(ahead)),
    }
}

fn untold(seconds: u32) -> ClockRow
    ensures mono { result.mono ≡ A_SECOND + seconds * A_SECOND }
    ensures moments { seconds ≤ 10 → IsClockRow result }
{
    ClockRow {
        truth: None,
        ..told(seconds, 0)
    }
}

fn trace(
    alloc: Global,
    clock: &[ClockRow],
    host: &[HostRow],
    order: Vec<Party>,
) -> Result<Trace, AllocError> {
    Ok(Trace {
        drift: 50_000,
        tries: 10,
        clients: 1,
        layout: Layout::Two,
        image: [0; 10],
        page: Some(page(7)),
        clock: List::from_vec(clock.to_vec(alloc)?),
        host: List::from_vec(host.to_vec(alloc)?),
        polls: List::from_vec(Vec::new(alloc)),
        calls: List::from_vec(Vec::new(alloc)),
        turns: List::from_vec(Vec::new(alloc)),
        order: List::from_vec(order),
    })
}

fn walked(
    alloc: Global,
    clock: &[ClockRow],
    host: &[HostRow],
    claim: Claim,
) -> Result<Option<Fault>, AllocError> {
    let trace = trace(alloc, clock, host, Vec::new(alloc))?;
    Ok(first_fault(&trace, claim))
}

fn fault(why: Why, at: u64) -> Option<Fault> {
    Some(Fault { why, at })
}

// A claim of the first poll, which loaded clock row 1 second.
fn claim(marked_at: u32, row: u32, mark_at: u32) -> Claim
    ensures { result ≡ record { inside = 0; base = 1; bound = 244142; second = 1; marked_at = marked_at; row = row; mark_at = mark_at } }
{
    Claim {
        inside: 0,
        base: 1,
        bound: 244_142,
        second: 1,
        marked_at,
        row,
        mark_at,
    }
}

// At its second row the clock is 5 ms late.
#[test]
fn a_disruption_is_told_before_the_client_loads_the_marker(rt: HostRuntime) {
    use HostRow::{Clock, Disrupt, Page};
    let alloc = rt.alloc();
    let late = [told(0, 0), told(1, 5_000_000)];
    let cases: [(&[HostRow], Claim, Option<Fault>, &str); 3] = [
        (
            &[Clock(1), Disrupt, Clock(2), Page(page(8))],
            claim(1, 2, 3),
            fault(Why::Mark, 2),
            "told after the client's marker load",
        ),
        (
            &[Clock(1), Disrupt, Clock(2), Page(page(8))],
            claim(1, 2, 4),
            None,
            "told before it",
        ),
        (
            &[Clock(1), Disrupt, Page(page(7)), Clock(2)],
            claim(1, 2, 4),
            fault(Why::Mark, 2),
            "a page with the same marker",
        ),
    ];
    for (host, claim, want, what) in cases {
        assert_eq!(rt; walked(alloc, &late, host, claim), Ok(want), "{what}");
    }
}

// At its second row the clock is 5 ms late.
#[test]
fn a_broken_promise_is_told_by_its_first_test(rt: HostRuntime) {
    use HostRow::{Clock, Disrupt, Page};
    let alloc = rt.alloc();
    let late = [told(0, 0), told(1, 5_000_000)];
    let cases: [(&[HostRow], Claim, Option<Fault>, &str); 3] = [
        (
            &[Clock(1), Disrupt, Page(page(8)), Clock(2)],
            claim(3, 2, 4),
            fault(Why::Drift, 2),
            "disrupted before the poll's marker load",
        ),
        (
            &[Clock(1), Page(page(8)), Disrupt, Page(page(7)), Clock(2)],
            claim(1, 2, 5),
            fault(Why::Repeat, 4),
            "back to the start page's marker",
        ),
        (
            &[Clock(1), Clock(2)],
            claim(1, 3, 2),
            fault(Why::Untold, 3),
            "a row that the clock lacks",
        ),
    ];
    for (host, claim, want, what) in cases {
        assert_eq!(rt; walked(alloc, &late, host, claim), Ok(want), "{what}");
    }
}

// The drift of 50,000 parts per billion is 50,000 ns in a second.
#[test]
fn the_bound_and_the_drift_are_kept_exactly(rt: HostRuntime) {
    use HostRow::Clock;
    let alloc = rt.alloc();
    let host = [Clock(1), Clock(2)];
    let cases = [
        (244_142, 294_142, None),
        (244_143, 244_143, fault(Why::Bound, 1)),
        (244_142, 294_143, fault(Why::Drift, 2)),
    ];
    for (first, second, want) in cases {
        let clock = [told(0, first), told(1, second)];
        assert_eq!(rt;
            walked(alloc, &clock, &host, claim(1, 2, 2)),
            Ok(want),
            "true time is ahead by {first} ns, then by {second} ns"
        );
    }
}

// A lawful trace: true time runs away at the second row of the clock and isn't told at the third, and a marker comes back.
fn lawful_trace(alloc: Global) -> Result<Trace, AllocError>
    ensures lawful { IfOk result (λ trace. IsLawfulTrace trace) }
    ensures rows { IfOk result (λ trace. (length trace.clock ≡ 3) × (length trace.host ≡ 6)) }
    ensures positions { IfOk result (λ trace. (position_of trace.host 2 ≡ 3) × (position_of trace.host 3 ≡ 6)) }
{
    let clock = vec![in alloc; told(0, 0), told(1, 5_000_000), untold(2)]?;
    let host = vec![in alloc;
        HostRow::Clock(1),
        HostRow::Disrupt,
        HostRow::Clock(2),
        HostRow::Page(page(8)),
        HostRow::Page(page(7)),
        HostRow::Clock(3),
    ]?;
    let order = vec![in alloc;
        Party::Host,
        Party::Host,
        Party::Host,
        Party::Host,
        Party::Host,
    ]?;
    Ok(Trace {
        drift: 50_000,
        tries: 10,
        clients: 1,
        layout: Layout::Two,
        image: [0; 10],
        page: Some(page(7)),
        clock: List::from_vec(clock),
        host: List::from_vec(host),
        polls: List::from_vec(Vec::new(alloc)),
        calls: List::from_vec(Vec::new(alloc)),
        turns: List::from_vec(Vec::new(alloc)),
        order: List::from_vec(order),
    })
}

// What is found by tables, and by walking.
fn judged(alloc: Global, claim: Claim) -> Result<(Option<Fault>, Option<Fault>), Memory>
    requires rows { (0 < claim.second) × (claim.second ≤ claim.row) × (claim.row ≤ 3) }
    requires loads { (claim.marked_at < 3 * claim.second) × (claim.marked_at ≤ 6) × (claim.mark_at ≤ 6) }
{
    let trace = lawful_trace(alloc)?;
    let tables = Tables::new(alloc, &trace)?;
    Ok((judge(&trace, &tables, claim), first_fault(&trace, claim)))
}

#[test]
fn tables_tell_what_walking_tells(rt: HostRuntime) {
    let alloc = rt.alloc();
    let held = claim(1, 2, 4);
    assert_eq!(rt; judged(alloc, held), Ok((None, None)));
    let inside = Claim {
        inside: 32_767,
        ..held
    };
    let found = fault(Why::Wrap, 32_767);
    assert_eq!(rt; judged(alloc, inside), Ok((found, found)));
    let of_image = Claim { base: 0, ..held };
    let found = fault(Why::Image, 0);
    assert_eq!(rt; judged(alloc, of_image), Ok((found, found)));
    let found = fault(Why::Untold, 3);
    assert_eq!(rt; judged(alloc, claim(1, 3, 6)), Ok((found, found)));
    let bound = Claim {
        second: 2,
        bound: 4_999_999,
        ..held
    };
    let found = fault(Why::Bound, 2);
    assert_eq!(rt; judged(alloc, bound), Ok((found, found)));
    let at_bound = Claim {
        second: 2,
        bound: 5_000_000,
        ..held
    };
    assert_eq!(rt; judged(alloc, at_bound), Ok((None, None)));
    let found = fault(Why::Drift, 2);
    assert_eq!(rt; judged(alloc, claim(2, 2, 4)), Ok((found, found)));
    let found = fault(Why::Mark, 2);
    assert_eq!(rt; judged(alloc, claim(1, 2, 3)), Ok((found, found)));
    let found = fault(Why::Repeat, 5);
    assert_eq!(rt; judged(alloc, claim(1, 2, 5)), Ok((found, found)));
}
