use super::*;
use candm_codec::{Leap, RefTime, Tracking};
use chrony_fraction::Packed;
use clock_gate::{Reading, Stamp};

fn reply(leap: Leap, root_dispersion: u32) -> Tracking {
    Tracking {
        sequence: 1,
        ref_id: 0xa9fe_a97b,
        address: 0xa9fe_a97b_0000_0000_0000_0000_0000_0000,
        family: 1,
        stratum: 4,
        leap,
        ref_time: RefTime {
            high: 0,
            low: 0x6500_0000,
            nsec: 0,
        },
        current_correction: Packed(0xf7ff_ffff),
        last_offset: Packed(0),
        rms_offset: Packed(0),
        freq_ppm: Packed(0),
        resid_freq_ppm: Packed(0),
        skew_ppm: Packed(0),
        root_delay: Packed(0xec80_0000),
        root_dispersion: Packed(root_dispersion),
        last_update_interval: Packed(0),
    }
}

#[test]
fn a_synchronised_reply_is_good(rt: HostRuntime) {
    let asked = Reading {
        row: 1,
        mono: 1_000_000_000,
        real: 1_700_000_000_000_000_000,
    };
    for (message, leap) in [
        ("no leap second", Leap::Normal),
        ("a second is inserted", Leap::Insert),
        ("a second is deleted", Leap::Delete),
    ] {
        let good = assess(&reply(leap, 0xea80_0000), asked);
        assert_eq!(rt; good.map(|good| good.bound), Ok(244_142), "{message}");
    }
}

#[test]
fn a_reply_that_is_not_good_is_told_its_first_fault(rt: HostRuntime) {
    let asked = Reading {
        row: 1,
        mono: 1_000_000_000,
        real: 1_700_000_000_000_000_000,
    };
    for (message, leap, dispersion, want) in [
        (
            "no source",
            Leap::Unsynchronised,
            0xea80_0000,
            Unfit::NotSynchronised,
        ),
        (
            "over 2^62 ns",
            Leap::Normal,
            0x4489_7060,
            Unfit::BoundTooLarge,
        ),
        (
            "both",
            Leap::Unsynchronised,
            0x7eff_ffff,
            Unfit::NotSynchronised,
        ),
    ] {
        let good = assess(&reply(leap, dispersion), asked);
        assert_eq!(rt; good.map(|good| good.bound), Err(want), "{message}");
    }
}

#[test]
fn a_good_reply_holds_from_when_it_was_asked_for(rt: HostRuntime) {
    let asked = Reading {
        row: 1,
        mono: 1_000_000_007,
        real: 1_700_000_000_000_000_000,
    };
    let good = assess(&reply(Leap::Normal, 0xea80_0000), asked);
    let held = good.map(|good| (good.as_of.nanos(), good.void_after.nanos()));
    assert_eq!(rt; held, Ok((1_000_000_007, 1_001_000_000_007)));
}
