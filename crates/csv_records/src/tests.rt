use crate::{Reason, Records, bytes_of, is_word, number};
use csv::ByteRecord;
use std::alloc::{AllocError, Global};
use std::test::Fail;

// The records of a text, a bar after each field and a line feed after each record.
fn shown(alloc: Global, text: &[u8]) -> Result<Vec<u8>, AllocError> {
    let mut records = Records::new(alloc, text);
    let mut row = ByteRecord::new(alloc);
    let mut shown = Vec::new(alloc);
    for _ in 0..9 {
        if !records.read(&mut row)? {
            return Ok(shown);
        }
        for field in row.iter() {
            shown.extend_from_slice(field)?;
            shown.push(b'|')?;
        }
        shown.push(b';')?;
    }
    Ok(shown)
}

#[test]
fn a_text_is_read_as_its_records(rt: HostRuntime) -> Result<(), Fail> {
    let cases: [(&str, &[u8], &[u8]); 16] = [
        ("no byte", b"", b""),
        ("no end of the last record", b"a,b\nc", b"a|b|;c|;"),
        ("byte order mark", b"\xEF\xBB\xBFa,b\n", b"a|b|;"),
        (
            "second byte order mark",
            b"\xEF\xBB\xBF\xEF\xBB\xBFa\n",
            b"\xEF\xBB\xBFa|;",
        ),
        (
            "byte order mark later",
            b"a\n\xEF\xBB\xBFb\n",
            b"a|;\xEF\xBB\xBFb|;",
        ),
        ("quotes", b"\"a,b\",\"c\"\"d\"\n", b"a,b|c\"d|;"),
        ("quotes inside a field", b"a\"b\",c\n", b"a\"b\"|c|;"),
        (
            "bytes after a closing quote",
            b"\"a\"b\"c,d\n",
            b"ab\"c|d|;",
        ),
        ("open quote", b"a,\"b\nc", b"a|b\nc|;"),
        ("quotes alone", b"\"\"\n", b"|;"),
        ("carriage return and line feed", b"a\r\nb\r\n", b"a|;b|;"),
        ("carriage return alone", b"a\rb\r", b"a|;b|;"),
        ("empty lines", b"\n\r\n\ra\n\nb\n\n", b"a|;b|;"),
        ("empty fields", b",\na,\n", b"||;a||;"),
        ("blanks", b" a , b\n", b" a | b|;"),
        (
            "different numbers of fields",
            b"a\nb,c\nd\n",
            b"a|;b|c|;d|;",
        ),
    ];
    for (case, text, want) in cases {
        assert!(rt; shown(rt.alloc(), text)?.as_slice() == want, "{case}");
    }
    Ok(())
}

#[test]
fn nothing_is_read_after_the_end(rt: HostRuntime) -> Result<(), Fail> {
    let mut records = Records::new(rt.alloc(), b"a\n".as_slice());
    let mut row = ByteRecord::new(rt.alloc());
    for want in [true, false, false] {
        assert_eq!(rt; records.read(&mut row)?, want);
    }
    Ok(())
}

#[test]
fn a_number_is_digits_in_its_range(rt: HostRuntime) {
    const MOST: u64 = 18_446_744_073_709_551_615;
    let cases: [(&[u8], u64, u64, Option<u64>); 14] = [
        (b"0", 0, 0, Some(0)),
        (b"00", 0, 0, Some(0)),
        (b"007", 1, 9, Some(7)),
        (b"1", 1, 9, Some(1)),
        (b"9", 1, 9, Some(9)),
        (b"0", 1, 9, None),
        (b"10", 1, 9, None),
        (b"18446744073709551615", 0, MOST, Some(MOST)),
        (b"18446744073709551616", 0, MOST, None),
        (b"00000000000000000005", 0, MOST, Some(5)),
        (b"000000000000000000005", 0, MOST, None),
        (b"", 0, MOST, None),
        (b"+1", 0, MOST, None),
        (b"1 ", 0, MOST, None),
    ];
    for (field, low, high, want) in cases {
        assert_eq!(rt; number(field, low, high), want, "{field:?}");
    }
}

#[test]
fn digits_stand_for_bytes(rt: HostRuntime) -> Result<(), Fail> {
    let cases: [(&[u8], Option<&[u8]>); 9] = [
        (b"", Some(b"")),
        (b"00", Some(b"\x00")),
        (b"feff", Some(b"\xfe\xff")),
        (b"FEFF", Some(b"\xfe\xff")),
        (b"fEfF", Some(b"\xfe\xff")),
        (b"fef", None),
        (b"fefg", None),
        (b"0x", None),
        (b"feff00", None),
    ];
    for (field, want) in cases {
        let found = bytes_of(rt.alloc(), field, 4)?;
        assert!(rt;
            found.as_ref().map(|bytes| bytes.as_slice()) == want,
            "{field:?}"
        );
    }
    Ok(())
}

#[test]
fn a_word_is_compared_byte_for_byte(rt: HostRuntime) {
    assert!(rt; is_word(b"poll".as_slice(), b"poll".as_slice()));
    assert!(rt; !is_word(b"Poll".as_slice(), b"poll".as_slice()));
    assert!(rt; !is_word(b"polls".as_slice(), b"poll".as_slice()));
}

#[test]
fn a_reason_is_shown_by_its_name(rt: HostRuntime) -> Result<(), Fail> {
    let cases = [
        (Reason::Kind, "kind"),
        (Reason::Fields, "fields"),
        (Reason::Number, "number"),
        (Reason::Hex, "hex"),
        (Reason::ClockBack, "clockback"),
        (Reason::NoClock, "noclock"),
        (Reason::Limit, "limit"),
        (Reason::Page, "page"),
        (Reason::Image, "image"),
        (Reason::Order, "order"),
    ];
    for (reason, want) in cases {
        assert_eq!(rt; format!(in rt.alloc(); "{reason}")?.as_str(), want);
    }
    Ok(())
}
