use std::marker::Model;

/// What a VMClock page tells, with an even sequence count: the page is not being updated.
///
/// The fields and their meaning follow vmclock-abi.h. Their order, sizes and places in a page are this project's
/// own. No value of a field but `size` and `seq_count` is refused, so a number named here may be another one.
#[derive(Clone, Copy, Debug, PartialEq, Eq)]
pub struct Page {
    /// The size of the region that holds the page, in bytes: at least 104. It never changes.
    pub size: u32,
    /// Which hardware counter `counter_value` is of: 0 Arm's virtual counter, 1 the x86 time stamp counter, 255
    /// none. It never changes.
    pub counter_id: u8,
    /// What the time counts: 0 UTC and 1 TAI since 1970, 2 monotonic time since no named moment. It never changes.
    pub time_type: u8,
    /// How often an update began or ended, modulo 2^32: even, since it is odd during an update.
    pub seq_count: u32,
    /// Takes another value when the counter was disrupted, as by live migration: what was measured of the counter
    /// before that is void.
    pub disruption_marker: u64,
    /// One bit for each statement about the other fields, bit 0 that `tai_offset_sec` is valid.
    pub flags: u64,
    /// How far the time can be trusted: 0 unknown, 1 initializing, 2 synchronized, 3 free running, 4 unreliable.
    pub clock_status: u8,
    /// How other clocks nearby smear a leap second: 0 not at all, 1 linearly from noon to noon, 2 by UTC-SLS. The
    /// time of the page is never smeared.
    pub leap_second_smearing_hint: u8,
    /// TAI minus UTC in seconds, as a two's complement number of 16 bits.
    pub tai_offset_sec: u16,
    /// The leap second at the end of this month: 0 none, 1 one is added, 2 one is taken away; 3 it passes now,
    /// 4 one was added, 5 one was taken away.
    pub leap_indicator: u8,
    /// The k of the unit 2^-(64 + k) s, in which the period and its two errors count.
    pub counter_period_shift: u8,
    /// The counter at the moment that the time fields tell, in ticks.
    pub counter_value: u64,
    /// The period of the counter, per tick in units of 2^-(64 + `counter_period_shift`) s.
    pub counter_period_frac_sec: u64,
    /// The estimated error of the period, in the period's unit.
    pub counter_period_esterror_rate_frac_sec: u64,
    /// The greatest error of the period, in the period's unit.
    pub counter_period_maxerror_rate_frac_sec: u64,
    /// The time at `counter_value`, in whole seconds since the epoch of `time_type`.
    pub time_sec: u64,
    /// The rest of that time, in units of 2^-64 s.
    pub time_frac_sec: u64,
    /// The estimated error of that time, in nanoseconds.
    pub time_esterror_nanosec: u64,
    /// The greatest error of that time, in nanoseconds.
    pub time_maxerror_nanosec: u64,
}

impl Model for Page {
    ghost use Rattle.std.specs.Prelude.{◌≡◌, ◌≤◌, ◌%◌};
    ghost use Rattle.vmclock_page.specs.declared.layout.TheConstants.{PAGE_BYTES};
    ghost use Rattle.vmclock_page.specs.ClockPage.{ClockPage};

    ghost Value = { ClockPage };

    ghost view = { λ p. p };

    ghost invariant = { λ p. (PAGE_BYTES ≤ p.size) × (p.seq_count % 2 ≡ 0) };

    ghost inverse = { λ p. p };
}
