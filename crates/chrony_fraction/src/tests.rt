use super::*;

#[test]
fn bounds_of_clock_errors(rt: HostRuntime) {
    for (delay, dispersion, correction, want) in [
        (0xec80_0000, 0xea80_0000, 0xf7ff_ffff, Some(244_142)),
        (0, 0, 0, Some(0)),
        (0xf7ff_ffff, 0, 0, Some(0)),
        (0, 0x8000_0001, 0, Some(1)),
        (0, 0x4489_705f, 0, Some(4_611_685_888_000_000_000)),
        (0, 0x4489_7060, 0, None),
        (0x7eff_ffff, 0, 0, None),
    ] {
        assert_eq!(rt;
            ceil_bound(Packed(delay), Packed(dispersion), Packed(correction)),
            want
        );
    }
}

#[test]
fn numbers_from_parts(rt: HostRuntime) {
    for (coefficient, power, want) in [
        (0, -25, Some(Packed(0))),
        (-1, -30, Some(Packed(0xf7ff_ffff))),
        (8_388_608, -35, Some(Packed(0xec80_0000))),
        (16_777_215, 38, Some(Packed(0x7eff_ffff))),
        (-16_777_216, -89, Some(Packed(0x8100_0000))),
        (16_777_216, 0, None),
        (-16_777_217, 0, None),
        (1, 39, None),
        (1, -90, None),
        (i32::MIN, i32::MIN, None),
    ] {
        let number = Packed::from_parts(coefficient, power);
        assert_eq!(rt; number, want, "{coefficient} * 2^{power}");
        assert!(rt; number.is_none_or(|p| p.parts() == (coefficient, power)));
    }
}
