//! What each second of a day has.
ghost use Rattle.std.specs.Prelude.{◌≡◌, ◌≤◌, ◌<◌, ◌++◌, ℕ, OnOk, IfOk, Some};
ghost use Rattle.drill_day.specs.Seconds.{call_of, calls_in, clock_row, clock_jobs, disruption, disruption_jobs, host_in, jobs_in, marked_page, middle_of, party_of, reply_of, stop_in, stop_second, tracking, turn_of};

use candm_codec::{Leap, RefTime, Tracking, write_reply};
use chrony_fraction::Packed;
use clock_gate::{CallRow, ClockRow, HostRow, List, Party, PollRow, Turn, USUAL_TRIES};
use std::alloc::{AllocError, Global};
use vmclock_page::{Page, to_words};

/// The second before which the counter is disrupted.
pub fn middle_of(polls: u32) -> u32
    requires { polls ≤ 20000 }
    ensures { result ≡ middle_of polls }
{
    polls / 2 + 1
}

/// The second in whose poll the daemon stops.
pub fn stop_second(polls: u32) -> u32
    requires { polls ≤ 20000 }
    ensures { result ≡ stop_second polls }
{
    polls / 3 + 1
}

/// The row of the clock in second k.
pub fn clock_row(k: u32, draw: u32) -> ClockRow
    ensures { result ≡ clock_row k draw }
{
    let mono = k as u64 * 1_000_000_000;
    let real = 1_700_000_000_000_000_000 + mono;
    ClockRow {
        mono,
        real,
        truth: Some(real + (draw % 40_001) as u64 - 20_000),
    }
}

/// The page with this marker.
pub fn marked_page(marker: u64) -> Page
    ensures { result ≡ marked_page marker }
{
    Page {
        size: 104,
        counter_id: 1,
        time_type: 0,
        seq_count: 2,
        disruption_marker: marker,
        flags: 0,
        clock_status: 0,
        leap_second_smearing_hint: 0,
        tai_offset_sec: 0,
        leap_indicator: 0,
        counter_period_shift: 0,
        counter_value: 0,
        counter_period_frac_sec: 0,
        counter_period_esterror_rate_frac_sec: 0,
        counter_period_maxerror_rate_frac_sec: 0,
        time_sec: 0,
        time_frac_sec: 0,
        time_esterror_nanosec: 0,
        time_maxerror_nanosec: 0,
    }
}

fn push_disruption(rows: &mut Vec<HostRow>) -> Result<(), AllocError>
    ensures { OnOk result (rows.new.items ≡ rows.old.items ++ disruption) }
{
    rows.push(HostRow::Disrupt)?;
    rows.push(HostRow::Page(to_words(&marked_page(8))))?;
    Ok(())
}

/// Appends what the host does in second k.
pub fn push_host(rows: &mut Vec<HostRow>, middle: u32, k: u32) -> Result<(), AllocError>
    ensures { OnOk result (rows.new.items ≡ rows.old.items ++ host_in middle k) }
{
    if k == middle {
        push_disruption(rows)?;
    }
    rows.push(HostRow::Clock(k))?;
    Ok(())
}

/// What chrony tells in second k.
pub fn tracking(k: u32, draw: u32) -> Tracking
    requires { k ≤ 20000 }
    ensures { result ≡ tracking k draw }
{
    Tracking {
        sequence: k,
        ref_id: 0xa9fe_a97b,
        address: 0xa9fe_a97b_0000_0000_0000_0000_0000_0000,
        family: 1,
        stratum: 4,
        leap: Leap::Normal,
        ref_time: RefTime {
            high: 0,
            low: 0x6500_0000 + k,
            nsec: 0,
        },
        current_correction: Packed(0xf000_0000 + draw % (1 << 20)),
        last_offset: Packed(0),
        rms_offset: Packed(0),
        freq_ppm: Packed(0),
        resid_freq_ppm: Packed(0),
        skew_ppm: Packed(0),
        root_delay: Packed(0xec80_0000),
        root_dispersion: Packed(0xea80_0000),
        last_update_interval: Packed(0),
    }
}

/// The bytes of chrony's reply in second k.
pub fn reply_of(k: u32, draw: u32) -> [u8; 104]
    requires { k ≤ 20000 }
    ensures { result ≡ reply_of k draw }
{
    write_reply(&tracking(k, draw))
}

/// After how many stores the daemon stops in second k, where it does.
pub fn stop_in(stopped: u32, k: u32) -> Option<u8>
    ensures { result ≡ stop_in stopped k }
{
    if k == stopped {
        return Some(5);
    }
    None
}

/// The poll of second k.
pub fn poll_row(alloc: Global, stopped: u32, k: u32, draw: u32) -> Result<PollRow, AllocError>
    requires { k ≤ 20000 }
    ensures { IfOk result (λ row. row ≡ record { reply = reply_of k draw; stop = stop_in stopped k }) }
{
    let reply = reply_of(k, draw).to_vec(alloc)?;
    Ok(PollRow {
        reply: List::from_vec(reply),
        stop: stop_in(stopped, k),
    })
}

fn call_of(client: u32) -> CallRow
    ensures { result ≡ call_of client }
{
    CallRow {
        client,
        tries: USUAL_TRIES,
    }
}

fn push_disruption_jobs(order: &mut Vec<Party>, middle: u32, k: u32) -> Result<(), AllocError>
    ensures { OnOk result (order.new.items ≡ order.old.items ++ disruption_jobs middle k) }
{
    if k == middle {
        order.push(Party::Host)?;
        order.push(Party::Host)?;
    }
    Ok(())
}

fn push_clock_jobs(order: &mut Vec<Party>, k: u32) -> Result<(), AllocError>
    ensures { OnOk result (order.new.items ≡ order.old.items ++ clock_jobs k) }
{
    if k != 1 {
        order.push(Party::Host)?;
    }
    Ok(())
}

/// Appends the calls of a second.
pub fn push_calls(calls: &mut Vec<CallRow>) -> Result<(), AllocError>
    ensures { (k : ℕ) → OnOk result (calls.new.items ≡ calls.old.items ++ calls_in k) }
{
    calls.push(call_of(1))?;
    calls.push(call_of(2))?;
    calls.push(call_of(3))?;
    Ok(())
}

/// Appends whose jobs second k has.
pub fn push_jobs(order: &mut Vec<Party>, middle: u32, k: u32) -> Result<(), AllocError>
    ensures { OnOk result (order.new.items ≡ order.old.items ++ jobs_in middle k) }
{
    push_disruption_jobs(order, middle, k)?;
    push_clock_jobs(order, k)?;
    order.push(Party::Daemon)?;
    order.push(Party::Client(1))?;
    order.push(Party::Client(2))?;
    order.push(Party::Client(3))?;
    Ok(())
}

fn party_of(number: u32) -> Party
    ensures { result ≡ party_of number }
{
    match number {
        0 => Party::Host,
        1 => Party::Daemon,
        _ => Party::Client(number - 1),
    }
}

/// A line of the schedule, by two draws.
pub fn turn_of(first: u32, second: u32) -> Turn
    ensures { result ≡ turn_of first second }
{
    Turn::Run(party_of(first % 5), 1 + second % 20)
}
