//! Points by their numbers.
ghost use Rattle.std.specs.Prelude.{◌≡◌, ℕ, ◌≤◌, ◌<◌, ◌+◌, ◌*◌, ◌^◌, ◌/◌, ◌-◌};
ghost use Rattle.report_audit.specs.Leasts.{FailsAtOrNone};
ghost use Rattle.lawful_report.specs.Points.{HasNumber, IsLeast};
ghost use Rattle.report_audit.specs.Leasts.{IsLeastOrNone};

// So many whole periods bring a number up to a gap.
fn rounds_up(gap: u64, period: u64) -> u64
    requires some { 0 < period }
    requires most { period < 2 ^ 32 }
    requires gap { gap < 2 ^ 40 }
    ensures { result ≡ (gap + (2 * period - 1)) / (2 * period) }
{
    (gap + (2 * period - 1)) / (2 * period)
}

// The first point from `from` on that lies whole periods after this number.
fn first_round(period: u64, number: u64, from: u64) -> u64
    requires some { 0 < period }
    requires most { period < 2 ^ 32 }
    requires low { 2 ≤ number }
    requires high { number ≤ 2 * period + 1 }
    requires from { from < 2 ^ 40 }
    ensures has { HasNumber period number result }
    ensures not_before { from ≤ result }
    ensures least { (n : ℕ) → from ≤ n → HasNumber period number n → result ≤ n }
{
    if from <= number {
        return number;
    }
    let rounds = rounds_up(from - number, period);
    number + 2 * (rounds * period)
}

/// The least point with this number that isn't before `from` nor past `last`, or `None` exactly where there is none.
pub fn least_point(period: u64, number: u64, from: u64, last: u64) -> Option<u64>
    requires some { 0 < period }
    requires most { period < 2 ^ 32 }
    requires from { from < 2 ^ 40 }
    ensures { IsLeastOrNone from last (HasNumber period number) result }
{
    if 2 * period + 1 < number {
        return None;
    }
    if number < 2 {
        if from <= number && number <= last {
            return Some(number);
        }
        return None;
    }
    let point = first_round(period, number, from);
    if point <= last { Some(point) } else { None }
}

// The same, where the first number stands for this point at the earliest.
fn later_point(period: u64, first: u64, last: u64, at: u64, until: u64) -> Option<u64>
    requires some { 0 < period }
    requires most { period < 2 ^ 32 }
    requires at { at < 2 ^ 40 }
    ensures { (from : ℕ) → IsLeast from until (HasNumber period first) at → FailsAtOrNone period from until first last result }
{
    if first % 2 == 1 {
        if last == first {
            return Some(at);
        }
        return None;
    }
    if first == 0 {
        return None;
    }
    if last == first {
        return None;
    }
    least_point(period, last, at, until)
}

/// The point at which the last of a client's tries failed, by the two numbers that it loaded, where the client had come to
/// `from`. `None` exactly where no points of the run show these numbers.
pub fn busy_point(period: u64, first: u64, last: u64, from: u64, until: u64) -> Option<u64>
    requires some { 0 < period }
    requires most { period < 2 ^ 32 }
    requires from { from < 2 ^ 40 }
    requires until { until < 2 ^ 40 }
    ensures { FailsAtOrNone period from until first last result }
{
    match least_point(period, first, from, until) {
        None => None,
        Some(at) => later_point(period, first, last, at, until),
    }
}
