use super::*;

// Of counter 1, with sequence count 2 and marker 7.
const START: [u8; 104] = [
    0x56, 0x43, 0x4c, 0x4b, 0x68, 0, 0, 0, 1, 0, 1, 0, 2, 0, 0, 0, 7, 0, 0, 0, 0, 0, 0, 0, 0, 0, 0,
    0, 0, 0, 0, 0, 0, 0, 0, 0, 0, 0, 0, 0, 0, 0, 0, 0, 0, 0, 0, 0, 0, 0, 0, 0, 0, 0, 0, 0, 0, 0, 0,
    0, 0, 0, 0, 0, 0, 0, 0, 0, 0, 0, 0, 0, 0, 0, 0, 0, 0, 0, 0, 0, 0, 0, 0, 0, 0, 0, 0, 0, 0, 0, 0,
    0, 0, 0, 0, 0, 0, 0, 0, 0, 0, 0, 0, 0,
];

const START_WORDS: [u64; 13] = [
    0x0000_0068_4b4c_4356,
    0x0000_0002_0001_0001,
    7,
    0,
    0,
    0,
    0,
    0,
    0,
    0,
    0,
    0,
    0,
];

// Each byte has the number of its place, but for the magic and the version.
const PLACES: [u8; 104] = [
    0x56, 0x43, 0x4c, 0x4b, 0x04, 0x05, 0x06, 0x07, 0x01, 0x00, 0x0a, 0x0b, 0x0c, 0x0d, 0x0e, 0x0f,
    0x10, 0x11, 0x12, 0x13, 0x14, 0x15, 0x16, 0x17, 0x18, 0x19, 0x1a, 0x1b, 0x1c, 0x1d, 0x1e, 0x1f,
    0x20, 0x21, 0x22, 0x23, 0x24, 0x25, 0x26, 0x27, 0x28, 0x29, 0x2a, 0x2b, 0x2c, 0x2d, 0x2e, 0x2f,
    0x30, 0x31, 0x32, 0x33, 0x34, 0x35, 0x36, 0x37, 0x38, 0x39, 0x3a, 0x3b, 0x3c, 0x3d, 0x3e, 0x3f,
    0x40, 0x41, 0x42, 0x43, 0x44, 0x45, 0x46, 0x47, 0x48, 0x49, 0x4a, 0x4b, 0x4c, 0x4d, 0x4e, 0x4f,
    0x50, 0x51, 0x52, 0x53, 0x54, 0x55, 0x56, 0x57, 0x58, 0x59, 0x5a, 0x5b, 0x5c, 0x5d, 0x5e, 0x5f,
    0x60, 0x61, 0x62, 0x63, 0x64, 0x65, 0x66, 0x67,
];

fn start_page() -> Page {
    Page {
        size: 104,
        counter_id: 1,
        time_type: 0,
        seq_count: 2,
        disruption_marker: 7,
        flags: 0,
        clock_status: 0,
        leap_second_smearing_hint: 0,
        tai_offset_sec: 0,
        leap_indicator: 0,
        counter_period_shift: 0,
        counter_value: 0,
        counter_period_frac_sec: 0,
        counter_period_esterror_rate_frac_sec: 0,
        counter_period_maxerror_rate_frac_sec: 0,
        time_sec: 0,
        time_frac_sec: 0,
        time_esterror_nanosec: 0,
        time_maxerror_nanosec: 0,
    }
}

fn page_of_places() -> Page {
    Page {
        size: 0x0706_0504,
        counter_id: 0x0a,
        time_type: 0x0b,
        seq_count: 0x0f0e_0d0c,
        disruption_marker: 0x1716_1514_1312_1110,
        flags: 0x1f1e_1d1c_1b1a_1918,
        clock_status: 0x22,
        leap_second_smearing_hint: 0x23,
        tai_offset_sec: 0x2524,
        leap_indicator: 0x26,
        counter_period_shift: 0x27,
        counter_value: 0x2f2e_2d2c_2b2a_2928,
        counter_period_frac_sec: 0x3736_3534_3332_3130,
        counter_period_esterror_rate_frac_sec: 0x3f3e_3d3c_3b3a_3938,
        counter_period_maxerror_rate_frac_sec: 0x4746_4544_4342_4140,
        time_sec: 0x4f4e_4d4c_4b4a_4948,
        time_frac_sec: 0x5756_5554_5352_5150,
        time_esterror_nanosec: 0x5f5e_5d5c_5b5a_5958,
        time_maxerror_nanosec: 0x6766_6564_6362_6160,
    }
}

#[test]
fn the_start_page_is_read_and_written(rt: HostRuntime) {
    assert_eq!(rt; read_page(&START), Ok(start_page()));
    assert_eq!(rt; write_page(&start_page()), START);
    assert_eq!(rt; from_words(&START_WORDS), Ok(start_page()));
    assert_eq!(rt; to_words(&start_page()), START_WORDS);
}

#[test]
fn each_field_has_its_place(rt: HostRuntime) {
    assert_eq!(rt; read_page(&PLACES), Ok(page_of_places()));
}

#[test]
fn one_byte_changed(rt: HostRuntime) {
    for (place, byte, want) in [
        (0, 0x57, Some(PageFault::Magic)),
        (4, 103, Some(PageFault::Size(103))),
        (8, 2, Some(PageFault::Version(2))),
        (12, 3, Some(PageFault::Odd(3))),
        (16, 8, None),
    ] {
        let mut bytes = START;
        bytes[place] = byte;
        assert_eq!(rt; read_page(&bytes).err(), want);
    }
    assert_eq!(rt; read_page(&START[..103]), Err(PageFault::Short));
}

#[test]
fn a_page_may_state_4096_bytes(rt: HostRuntime) {
    let mut region = [0xff; 4096];
    region[..104].copy_from_slice(&START);
    region[4] = 0;
    region[5] = 0x10;
    assert_eq!(rt; read_page(&region).map(|page| page.size), Ok(4096));
}

#[test]
fn pads_are_ignored_and_written_as_0(rt: HostRuntime) {
    let mut bytes = START;
    bytes[32] = 0xff;
    bytes[33] = 0xff;
    let page = read_page(&bytes);
    assert_eq!(rt; page, Ok(start_page()));
    assert_eq!(rt; page.map(|page| write_page(&page)), Ok(START));
    let mut words = START_WORDS;
    words[4] = 0xffff;
    assert_eq!(rt; from_words(&words), Ok(start_page()));
}

#[test]
fn pages_are_counted_from_the_start(rt: HostRuntime) {
    for (start, sequence, want) in [(2, 2, 0), (2, 4, 1), (2, 5, 1), (4_294_967_294, 2, 2)] {
        assert_eq!(rt; page_number(start, sequence), want);
    }
}

#[test]
fn the_front_of_a_page_is_short(rt: HostRuntime) {
    for length in 0..104 {
        let (bytes, _) = START.split_at(length);
        assert_eq!(rt; read_page(bytes), Err(PageFault::Short), "{length} bytes");
    }
}

#[test]
fn a_page_with_one_byte_set_to_255(rt: HostRuntime) {
    let faults = [
        (0, PageFault::Magic),
        (1, PageFault::Magic),
        (2, PageFault::Magic),
        (3, PageFault::Magic),
        (8, PageFault::Version(255)),
        (9, PageFault::Version(65_281)),
        (12, PageFault::Odd(255)),
    ];
    for place in 0..104 {
        let mut bytes = START;
        bytes[place] = 255;
        let want = faults
            .iter()
            .find(|(at, _)| *at == place)
            .map(|(_, fault)| *fault);
        assert_eq!(rt; read_page(&bytes).err(), want, "byte {place}");
    }
}
