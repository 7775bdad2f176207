use super::*;
use clock_gate::{ClockStatus, Stamp};
use generation_word::{Layout, word1};
use std::test::Fail;

// Generation 65,534 in layout 2, as-of 1 s, void-after 1,001 s, bound 244,142 ns, marker 0, drift 50,000,
// synchronized, without support.
const IMAGE: [u8; 80] = [
    0x4e, 0x5a, 0x4d, 0x41, 0x00, 0x02, 0x42, 0x43, 0x50, 0x00, 0x00, 0x00, 0x02, 0x00, 0xfe, 0xff,
    0x01, 0x00, 0x00, 0x00, 0x00, 0x00, 0x00, 0x00, 0x00, 0x00, 0x00, 0x00, 0x00, 0x00, 0x00, 0x00,
    0xe9, 0x03, 0x00, 0x00, 0x00, 0x00, 0x00, 0x00, 0x00, 0x00, 0x00, 0x00, 0x00, 0x00, 0x00, 0x00,
    0xae, 0xb9, 0x03, 0x00, 0x00, 0x00, 0x00, 0x00, 0x00, 0x00, 0x00, 0x00, 0x00, 0x00, 0x00, 0x00,
    0x50, 0xc3, 0x00, 0x00, 0x01, 0x00, 0x00, 0x00, 0x00, 0x00, 0x00, 0x00, 0x00, 0x00, 0x00, 0x00,
];

// The record of that image.
fn record() -> Option<Record> {
    Stamp::new(1, 0).zip(Stamp::new(1_001, 0)).and_then(|(as_of, void_after)| {
        Record::new(
            as_of,
            void_after,
            244_142,
            0,
            50_000,
            ClockStatus::Synchronized,
            false,
        )
    })
}

#[test]
fn an_image_is_read_and_its_record_written(rt: HostRuntime) -> Result<(), Fail> {
    let rec = record().ok_or("its bounds are kept")?;
    let words = image_words(&IMAGE);
    assert_eq!(rt; admit(&words, Layout::Two), Ok(Start::Kept(65_534, rec)));
    assert_eq!(rt; to_words(&rec, Layout::Two, 65_534), words);
    assert_eq!(rt; data_word(&rec, 8), 0x1_0000_c350);
    assert_eq!(rt; Start::Kept(65_534, rec).generation(), 65_534);
    Ok(())
}

#[test]
fn a_start_of_layout_two_by_its_first_two_words(rt: HostRuntime) {
    let two = image_words(&IMAGE)[1];
    for (message, magic, header, want) in [
        ("all words 0", 0, 0, Ok(Start::Fresh)),
        ("no header yet", MAGIC, 0, Ok(Start::Fresh)),
        (
            "generation 0",
            MAGIC,
            word1(Layout::Two, 0),
            Ok(Start::Fresh),
        ),
        (
            "generation 65,535",
            MAGIC,
            word1(Layout::Two, 65_535),
            Ok(Start::Torn(65_535)),
        ),
        ("no magic", 0, two, Err(ImageFault::Magic)),
        (
            "version 3",
            MAGIC,
            word1(Layout::Three, 65_534),
            Err(ImageFault::Version(3)),
        ),
    ] {
        let mut words = image_words(&IMAGE);
        words[0] = magic;
        words[1] = header;
        assert_eq!(rt; admit(&words, Layout::Two), want, "{message}");
    }
}

#[test]
fn a_start_of_layout_three_by_its_header(rt: HostRuntime) -> Result<(), Fail> {
    let kept = Ok(Start::Kept(65_534, record().ok_or("its bounds are kept")?));
    let two = image_words(&IMAGE)[1];
    for (message, header, want) in [
        ("version 2", two, kept),
        ("version 3", word1(Layout::Three, 65_534), kept),
        (
            "torn",
            word1(Layout::Three, 65_537),
            Ok(Start::Torn(65_537)),
        ),
        (
            "version 3 at its place in layout 2",
            0xfffe_0003_0000_0050,
            Err(ImageFault::Version(3)),
        ),
    ] {
        let mut words = image_words(&IMAGE);
        words[0] = MAGIC;
        words[1] = header;
        assert_eq!(rt; admit(&words, Layout::Three), want, "{message}");
    }
    Ok(())
}

// What the image gives with this byte set to 0xff: its generation or its fault.
fn with_byte_set(byte: usize) -> Result<u32, ImageFault> {
    match byte {
        0..=7 => Err(ImageFault::Magic),
        8 => Err(ImageFault::Size(255)),
        9 => Err(ImageFault::Size(65_360)),
        10 => Err(ImageFault::Size(16_711_760)),
        11 => Err(ImageFault::Size(4_278_190_160)),
        12 => Err(ImageFault::Version(255)),
        13 => Err(ImageFault::Version(65_282)),
        14 => Ok(65_535),
        19..=23 => Err(ImageFault::Range(2)),
        27..=31 => Err(ImageFault::Nanoseconds(3)),
        35..=39 => Err(ImageFault::Range(4)),
        43..=47 => Err(ImageFault::Nanoseconds(5)),
        55 => Err(ImageFault::Bound(-72_057_594_037_683_794)),
        67 => Err(ImageFault::Drift(4_278_240_080)),
        68 => Err(ImageFault::Status(255)),
        69 => Err(ImageFault::Status(65_281)),
        70 => Err(ImageFault::Status(16_711_681)),
        71 => Err(ImageFault::Status(-16_777_215)),
        72 => Err(ImageFault::Flag(0xff)),
        73 => Err(ImageFault::Flag(0xff00)),
        74 => Err(ImageFault::Flag(0x00ff_0000)),
        75 => Err(ImageFault::Flag(0xff00_0000)),
        76 => Err(ImageFault::Flag(0x00ff_0000_0000)),
        77 => Err(ImageFault::Flag(0xff00_0000_0000)),
        78 => Err(ImageFault::Flag(0x00ff_0000_0000_0000)),
        79 => Err(ImageFault::Flag(0xff00_0000_0000_0000)),
        _ => Ok(65_534),
    }
}

#[test]
fn an_image_with_one_byte_set(rt: HostRuntime) {
    for byte in 0..80 {
        let mut image = IMAGE;
        image[byte] = 0xff;
        let start = admit(&image_words(&image), Layout::Two);
        assert_eq!(rt;
            start.map(|s| s.generation()),
            with_byte_set(byte),
            "byte {byte}"
        );
    }
}
