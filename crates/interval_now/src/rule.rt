ghost use Rattle.std.specs.Prelude.{◌≡◌, ◌≤◌, ◌≤ℤ◌, ◌^◌, ◌-ℤ◌, ◌+ℤ◌, ◌<ℤ◌, ◌↔◌, ◌+◌, IsErr, IfOk, pos};
ghost use Rattle.clock_gate.specs.declared.limits.TheConstants.{LAST_MOMENT};
ghost use Rattle.interval_now.specs.Interval.{interval_of, client_status, is_unabsorbed, elapsed_of, growth_of, half_width_of, most_half_width, IsGrowth, KeepsEnds};

use crate::answers::{Causality, Interval};
use clock_gate::{ClockStatus, Reading};
use segment_layout::Record;

// A monotonic time may lie this far before as-of: the two clocks are read one after the other.
const SLACK_NANOS: i128 = 1_000;
// For so long after as-of a record's Synchronized is passed on.
const SYNCHRONIZED_NANOS: i128 = 5_000_000_000;

const BILLION: u128 = 1_000_000_000;

fn is_marked(rec: &Record, page_marker: Option<u64>) -> bool
    ensures { result ≡ is_unabsorbed rec.now page_marker }
{
    match page_marker {
        None => rec.status() == ClockStatus::Disrupted,
        Some(marker) => {
            rec.status() == ClockStatus::Disrupted || !rec.support() || rec.marker() != marker
        }
    }
}

fn status_at(rec: &Record, mono: u64, page_marker: Option<u64>) -> ClockStatus
    ensures { result ≡ client_status rec.now mono page_marker }
{
    if is_marked(rec, page_marker) {
        return ClockStatus::Disrupted;
    }
    if rec.status() == ClockStatus::Unknown {
        return ClockStatus::Unknown;
    }
    if i128::from(mono) >= rec.void_after().nanos() {
        return ClockStatus::Unknown;
    }
    if rec.status() == ClockStatus::Synchronized
        && i128::from(mono) < rec.as_of().nanos() + SYNCHRONIZED_NANOS
    {
        return ClockStatus::Synchronized;
    }
    ClockStatus::FreeRunning
}

fn elapsed(as_of: i128, mono: u64) -> u64
    requires { pos 0 ≤ℤ as_of }
    ensures value { result ≡ elapsed_of as_of mono }
    ensures high { result ≤ mono }
{
    let mono = i128::from(mono);
    if as_of < mono {
        (mono - as_of) as u64
    } else {
        0
    }
}

// A time at a drift in parts per billion, rounded up.
fn growth(elapsed: u64, drift: u32) -> u64
    requires elapsed { elapsed ≤ LAST_MOMENT }
    requires drift { drift ≤ 1000000000 }
    ensures least { IsGrowth elapsed drift result }
    ensures value { result ≡ growth_of elapsed drift }
    ensures high { result ≤ LAST_MOMENT }
{
    match elapsed.checked_mul(u64::from(drift)) {
        Some(product) => product.div_ceil(BILLION as u64),
        None => (u128::from(elapsed) * u128::from(drift)).div_ceil(BILLION) as u64,
    }
}

fn half_width(rec: &Record, mono: u64) -> i128
    requires { mono ≤ LAST_MOMENT }
    ensures value { result ≡ half_width_of rec.now mono }
    ensures low { pos 0 ≤ℤ result }
    ensures high { result ≤ℤ pos most_half_width }
{
    let elapsed = elapsed(rec.as_of().nanos(), mono);
    i128::from(rec.bound()) + i128::from(growth(elapsed, rec.drift()))
}

fn earliest(real: u64, half: i128) -> i128
    requires low { pos 0 ≤ℤ half }
    requires high { half ≤ℤ pos most_half_width }
    ensures { result ≡ pos real -ℤ half }
{
    i128::from(real) - half
}

fn latest(real: u64, half: i128) -> i128
    requires low { pos 0 ≤ℤ half }
    requires high { half ≤ℤ pos most_half_width }
    ensures { result ≡ pos real +ℤ half }
{
    i128::from(real) + half
}

/// The interval of true time at a reading, by a record and by the marker of the page, where there is one.
///
/// Its half width is the record's bound and the growth of the bound since as-of, rounded up. `Causality` comes exactly
/// where the reading's monotonic time and 1,000 ns are below as-of. Source: ClockBound's README; the slack, the
/// 5 s of Synchronized and the rounding are this project's.
#[tactic(auto, unfolding(crate::specs::Interval::interval_of))]
pub fn interval(
    rec: &Record,
    reading: Reading,
    page_marker: Option<u64>,
) -> Result<Interval, Causality>
    requires mono { reading.mono ≤ LAST_MOMENT }
    requires real { reading.real ≤ LAST_MOMENT }
    ensures value { result ≡ interval_of rec.now reading.mono reading.real page_marker }
    ensures causality { IsErr result ↔ (pos (reading.mono + 1000) <ℤ rec.now.as_of) }
    ensures ends { IfOk result KeepsEnds }
{
    let as_of = rec.as_of();
    if i128::from(reading.mono) + SLACK_NANOS < as_of.nanos() {
        return Err(Causality {
            as_of,
            mono: reading.mono,
        });
    }
    let half = half_width(rec, reading.mono);
    Ok(Interval {
        earliest: earliest(reading.real, half),
        latest: latest(reading.real, half),
        status: status_at(rec, reading.mono, page_marker),
    })
}
