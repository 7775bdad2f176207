use super::*;

#[test]
fn numbers_start_again_at_2_after_the_period(rt: HostRuntime) {
    for (layout, position, number) in [
        (Layout::Two, 0, 0),
        (Layout::Two, 1, 2),
        (Layout::Two, 2, 4),
        (Layout::Two, 32_767, 65_534),
        (Layout::Two, 32_768, 2),
        (Layout::Three, 0, 0),
        (Layout::Three, 1, 2),
        (Layout::Three, 32_768, 65_536),
        (Layout::Three, 2_147_483_647, 4_294_967_294),
        (Layout::Three, 2_147_483_648, 2),
    ] {
        assert_eq!(rt; generation(layout, position), number, "position {position}");
        assert_eq!(rt;
            odd_of(layout, position),
            number + 1,
            "after position {position}"
        );
    }
}

#[test]
fn a_publication_stores_an_odd_and_an_even_number(rt: HostRuntime) {
    for (layout, number, pair) in [
        (Layout::Two, 0, (1, 2)),
        (Layout::Two, 1, (1, 2)),
        (Layout::Two, 2, (3, 4)),
        (Layout::Two, 65_534, (65_535, 2)),
        (Layout::Two, 65_535, (65_535, 2)),
        (Layout::Three, 65_535, (65_535, 65_536)),
        (Layout::Three, 4_294_967_294, (4_294_967_295, 2)),
        (Layout::Three, 4_294_967_295, (4_294_967_295, 2)),
    ] {
        assert_eq!(rt; next_pair(layout, number), pair, "after {number}");
    }
}

#[test]
fn a_number_gives_its_least_position(rt: HostRuntime) {
    for (number, position) in [(0, 0), (1, 0), (2, 1), (65_534, 32_767), (65_535, 32_767)] {
        assert_eq!(rt; position_of(number), position, "number {number}");
    }
}

#[test]
fn header_words(rt: HostRuntime) {
    for (layout, number, word) in [
        (Layout::Two, 65_534, 0xfffe_0002_0000_0050),
        (Layout::Two, 0, 0x0000_0002_0000_0050),
        (Layout::Three, 2, 8_590_131_280),
    ] {
        assert_eq!(rt; word1(layout, number), word, "number {number}");
        assert_eq!(rt;
            split_word1(word),
            (80, layout.version(), number),
            "number {number}"
        );
    }
    assert_eq!(rt; split_word1(0x0001_0003_0000_0050), (80, 3, 1));
    assert_eq!(rt; split_word1(0xfffe_0002_0000_00ff), (255, 2, 65_534));
}
