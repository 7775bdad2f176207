ghost use Rattle.std.specs.Prelude.{◌≡◌, ◌≤◌, Some, None};
ghost use Rattle.bound_order.specs.Ordering.{IsTold};

use crate::{LONGEST_LEASE, Lease, Step, Told, Waiting, order};
use clock_gate::ClockStatus;
use interval_now::Interval;
use std::alloc::Global;
use std::test::Fail;

const FIRST: i128 = 1_700_000_000_000_000_000;

const SECOND: i128 = 1_700_000_001_000_000_000;

fn told(client: u32, call: u32, earliest: i128, latest: i128, status: ClockStatus) -> Told
    ensures { result ≡ record { client = client; call = call; interval = Some (record { earliest = earliest; latest = latest; status = status }); truth = None } }
{
    Told {
        client,
        call,
        interval: Some(Interval {
            earliest,
            latest,
            status,
        }),
        truth: None,
    }
}

fn step(wait: Waiting, lease: Lease) -> Step {
    Step { wait, lease }
}

// An answer at the second moment.
fn later(client: u32, call: u32, status: ClockStatus) -> Told
    requires { (1 ≤ client) × (client ≤ 64) }
    ensures { IsTold result }
{
    told(client, call, SECOND - 294_142, SECOND + 294_142, status)
}

#[test]
fn a_second_answer_ends_the_wait_and_renews_the_lease(rt: HostRuntime) -> Result<(), Fail> {
    let alloc: Global = rt.alloc();
    let synchronized = ClockStatus::Synchronized;
    let answers = [
        told(1, 1, FIRST - 244_142, FIRST + 244_142, synchronized),
        later(1, 2, synchronized),
        later(2, 1, ClockStatus::FreeRunning),
        later(1, 3, synchronized),
        later(1, 4, ClockStatus::Unknown),
        later(1, 5, ClockStatus::Disrupted),
        Told {
            client: 2,
            call: 2,
            interval: None,
            truth: Some(1),
        },
    ];
    let steps = order(alloc, answers.as_slice(), 1_000_000)
        .ok()
        .expect(&rt, "memory");
    let stamp = Waiting::Stamp(FIRST + 244_142);
    let done = Waiting::Done(FIRST + 244_142);
    let again = Waiting::Stamp(SECOND + 294_142);
    let wanted = [
        step(stamp, Lease::Grant(FIRST + 1_244_142)),
        step(done, Lease::Grant(SECOND + 1_294_142)),
        step(again, Lease::Deny),
        step(again, Lease::Act),
        step(Waiting::Pass, Lease::Untrusted),
        step(Waiting::Pass, Lease::Untrusted),
        step(Waiting::Pass, Lease::Untrusted),
    ];
    assert_eq!(rt; steps.as_slice(), wanted.as_slice());
    Ok(())
}

#[test]
fn at_the_stamp_it_holds_and_at_the_expiry_nobody_acts(rt: HostRuntime) -> Result<(), Fail> {
    let alloc: Global = rt.alloc();
    let answers = [
        told(1, 1, 0, 10, ClockStatus::Synchronized),
        told(1, 2, 10, 19, ClockStatus::Synchronized),
        told(1, 3, 11, 20, ClockStatus::Synchronized),
        told(2, 1, 20, 30, ClockStatus::Synchronized),
        told(2, 2, 21, 31, ClockStatus::Synchronized),
    ];
    let steps = order(alloc, answers.as_slice(), 10)
        .ok()
        .expect(&rt, "memory");
    let wanted = [
        step(Waiting::Stamp(10), Lease::Grant(20)),
        step(Waiting::Hold, Lease::Act),
        step(Waiting::Done(10), Lease::Deny),
        step(Waiting::Stamp(30), Lease::Deny),
        step(Waiting::Hold, Lease::Grant(41)),
    ];
    assert_eq!(rt; steps.as_slice(), wanted.as_slice());
    Ok(())
}

#[test]
fn the_longest_lease_fits_the_last_interval(rt: HostRuntime) -> Result<(), Fail> {
    let alloc: Global = rt.alloc();
    let last: i128 = 1 << 64;
    let answers = [told(64, 1, -last, last, ClockStatus::FreeRunning)];
    let steps = order(alloc, answers.as_slice(), LONGEST_LEASE)
        .ok()
        .expect(&rt, "memory");
    let wanted = [step(
        Waiting::Stamp(last),
        Lease::Grant(last + 1_000_000_000_000_000_000),
    )];
    assert_eq!(rt; steps.as_slice(), wanted.as_slice());
    let none = order(alloc, &[], 0).ok().expect(&rt, "memory");
    assert_eq!(rt; none.len(), 0);
    Ok(())
}
