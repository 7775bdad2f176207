mod captures;

use super::*;
use captures::CAPTURES;
use std::alloc::{AllocError, Global};

// A reply of the bound 244,142 ns.
const REPLY: [u8; 208] =
    *b"06020000002100050000000000000000000000010000000000000000a9fea97ba9fea97b00000000\
    00000000000000000001000000040000000000006500000000000000f7ffffff0000000000000000\
    000000000000000000000000ec800000ea80000000000000";

const REPLY_LINES: &str = "reply,1,a9fea97b,1,a9fea97b000000000000000000000000,4,0,0,1694498816,0\n\
    packed,current_correction,-1,-30\n\
    packed,last_offset,0,-25\n\
    packed,rms_offset,0,-25\n\
    packed,freq_ppm,0,-25\n\
    packed,resid_freq_ppm,0,-25\n\
    packed,skew_ppm,0,-25\n\
    packed,root_delay,8388608,-35\n\
    packed,root_dispersion,8388608,-36\n\
    packed,last_update_interval,0,-25\n\
    bound,244142\n";

// A page of counter 1, with sequence count 2 and marker 7.
const PAGE: [u8; 208] =
    *b"56434c4b680000000100010002000000070000000000000000000000000000000000000000000000\
    00000000000000000000000000000000000000000000000000000000000000000000000000000000\
    000000000000000000000000000000000000000000000000";

// A segment of layout 2 with generation 65,534: as-of 1 s, void-after 1,001 s, bound 244,142 ns, drift 50,000 ppb.
const IMAGE: [u8; 160] =
    *b"4e5a4d4100024243500000000200feff01000000000000000000000000000000e903000000000000\
    0000000000000000aeb9030000000000000000000000000050c30000010000000000000000000000";

fn is_told(alloc: Global, what: What, text: &[u8], want: &str) -> bool {
    match decode(alloc, what, text) {
        Ok(told) => told.as_slice() == want.as_bytes(),
        Err(_) => false,
    }
}

#[test]
fn a_reply_a_page_and_an_image_are_told(rt: HostRuntime) {
    let alloc = rt.alloc();
    assert!(rt; is_told(alloc, What::Reply, &REPLY, REPLY_LINES));
    assert!(rt; is_told(alloc, What::Page, &PAGE, "page,104,1,0,2,7\n"));
    let image = "image,kept,65534,1000000000,1001000000000,244142,0,50000,synchronized,0\n";
    assert!(rt; is_told(alloc, What::Image, &IMAGE, image));
}

#[test]
fn a_reply_with_one_digit_changed(rt: HostRuntime) {
    for (place, digit, want) in [
        (1, b'5', "refused,version\n"),
        (3, b'1', "refused,type\n"),
        (11, b'2', "refused,command\n"),
        (15, b'1', "refused,nottracking\n"),
        (16, b'F', "refused,status,61440\n"),
        (111, b'4', "refused,leap,4\n"),
    ] {
        let mut text = REPLY;
        text[place] = digit;
        assert!(rt; is_told(rt.alloc(), What::Reply, &text, want), "{want}");
    }
}

#[test]
fn a_page_with_one_digit_changed(rt: HostRuntime) {
    for (place, digit, want) in [
        (0, b'4', "refused,magic\n"),
        (8, b'5', "refused,size,88\n"),
        (17, b'2', "refused,version,2\n"),
        (25, b'3', "refused,odd,3\n"),
        (20, b'8', "page,104,129,0,2,7\n"),
        (22, b'a', "page,104,1,160,2,7\n"),
        (46, b'F', "page,104,1,0,2,17293822569102704647\n"),
    ] {
        let mut text = PAGE;
        text[place] = digit;
        assert!(rt; is_told(rt.alloc(), What::Page, &text, want), "{want}");
    }
}

// The image with these digits from a place on.
fn changed_image(place: usize, digits: &str) -> [u8; 160] {
    let mut text = IMAGE;
    for (i, digit) in digits.bytes().enumerate() {
        if let Some(old) = text.get_mut(place.saturating_add(i)) {
            *old = digit;
        }
    }
    text
}

#[test]
fn an_image_with_some_digits_changed_is_told(rt: HostRuntime) {
    for (place, digits, want) in [
        (28_usize, "ffff", "image,torn,65535\n"),
        (28, "0000", "image,fresh\n"),
        // Layout 3, whose generation has 32 bits.
        (
            16,
            "5000030002000100",
            "image,kept,65538,1000000000,1001000000000,244142,0,50000,synchronized,0\n",
        ),
        (16, "5000030003000000", "image,torn,3\n"),
        (16, "5000030000000000", "image,fresh\n"),
        (
            144,
            "01",
            "image,kept,65534,1000000000,1001000000000,244142,0,50000,synchronized,1\n",
        ),
        (
            136,
            "03",
            "image,kept,65534,1000000000,1001000000000,244142,0,50000,disrupted,0\n",
        ),
    ] {
        let text = changed_image(place, digits);
        assert!(rt; is_told(rt.alloc(), What::Image, &text, want), "{want}");
    }
}

#[test]
fn an_image_with_some_digits_changed_is_refused(rt: HostRuntime) {
    for (place, digits, want) in [
        (0, "5", "refused,magic\n"),
        (16, "51", "refused,size,81\n"),
        (24, "ff", "refused,version,255\n"),
        (54, "ff", "refused,nanoseconds,3\n"),
        (86, "ff", "refused,nanoseconds,5\n"),
        (110, "ff", "refused,bound,-72057594037683794\n"),
        (134, "ff", "refused,drift,4278240080\n"),
        (142, "ff", "refused,status,-16777215\n"),
        (144, "ff", "refused,flag,255\n"),
        (38, "ff", "refused,range,2\n"),
        (70, "ff", "refused,range,4\n"),
    ] {
        let text = changed_image(place, digits);
        assert!(rt; is_told(rt.alloc(), What::Image, &text, want), "{want}");
    }
}

#[test]
fn a_text_of_another_length(rt: HostRuntime) {
    for (message, what, text, want) in [
        (
            "one byte short",
            What::Reply,
            &REPLY[..206],
            "refused,short\n",
        ),
        (
            "one byte short",
            What::Page,
            &PAGE[..206],
            "refused,short\n",
        ),
        ("no digits", What::Reply, b"".as_slice(), "refused,short\n"),
        (
            "blanks alone",
            What::Page,
            b" \t\r\n".as_slice(),
            "refused,short\n",
        ),
    ] {
        assert!(rt; is_told(rt.alloc(), what, text, want), "{message}");
    }
}

#[test]
fn a_bound_over_the_largest(rt: HostRuntime) {
    let mut text = REPLY;
    text[184] = b'7';
    let told = decode(rt.alloc(), What::Reply, &text);
    let end = "packed,root_delay,8388608,37\n\
        packed,root_dispersion,8388608,-36\n\
        packed,last_update_interval,0,-25\n\
        bound,over\n";
    assert!(rt; told.is_ok_and(|told| told.as_slice().ends_with(end.as_bytes())));
}

#[test]
fn blanks_and_the_case_of_digits_tell_nothing(rt: HostRuntime) -> Result<(), AllocError> {
    let alloc = rt.alloc();
    for (message, blank) in [
        ("a space", b' '),
        ("a tab", b'\t'),
        ("a carriage return", b'\r'),
        ("a line feed", b'\n'),
    ] {
        let mut text = Vec::new(alloc);
        text.push(blank)?;
        for digit in REPLY {
            text.push(digit.to_ascii_uppercase())?;
            text.push(blank)?;
        }
        assert!(rt;
            is_told(alloc, What::Reply, &text, REPLY_LINES),
            "{message}"
        );
    }
    Ok(())
}

#[test]
fn other_texts_are_no_digits(rt: HostRuntime) {
    for text in [b"".as_slice(), &IMAGE[2..], b"4e5a4d41"] {
        let told = decode(rt.alloc(), What::Image, text);
        assert!(rt; told.is_err_and(|error| error == DecodeError::Hex));
    }
    for (message, text) in [
        ("one digit", b"0".as_slice()),
        ("three digits", b"06 0"),
        ("a plus sign", b"+6"),
        ("a form feed", b"06\x0c"),
        ("two form feeds", b"06\x0c\x0c"),
        ("a vertical tab", b"06\x0b02"),
        ("two zero bytes", b"06\0\0"),
        ("the letter after f", b"0g"),
        ("a no-break space", b"06\xc2\xa0"),
    ] {
        for what in [What::Reply, What::Page, What::Image] {
            let told = decode(rt.alloc(), what, text);
            assert!(rt;
                told.is_err_and(|error| error == DecodeError::Hex),
                "{message}"
            );
        }
    }
}

#[test]
fn real_replies_are_told(rt: HostRuntime) {
    for (message, text, want) in CAPTURES {
        assert!(rt;
            is_told(rt.alloc(), What::Reply, text.as_bytes(), want),
            "{message}"
        );
    }
}
