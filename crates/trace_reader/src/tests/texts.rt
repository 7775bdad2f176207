//! Texts of traces, with a letter for each long string.
use crate::{TraceError, TraceFault, read_trace};
use std::alloc::{AllocError, Global};

// A tracking reply.
const REPLY: &[u8] =
    b"06020000002100050000000000000000000000010000000000000000a9fea97ba9fea97b0000000000000000000000000001000000040000000000006500000000000000f7ffffff0000000000000000000000000000000000000000ec800000ea80000000000000";

// A page with sequence count 2 and marker 7.
const PAGE: &[u8] =
    b"56434c4b68000000010001000200000007000000000000000000000000000000000000000000000000000000000000000000000000000000000000000000000000000000000000000000000000000000000000000000000000000000000000000000000000000000";

// The same page of another counter.
const OTHER_COUNTER: &[u8] =
    b"56434c4b68000000010002000200000007000000000000000000000000000000000000000000000000000000000000000000000000000000000000000000000000000000000000000000000000000000000000000000000000000000000000000000000000000000";

// A page of version 2.
const OTHER_VERSION: &[u8] =
    b"56434c4b68000000020001000200000007000000000000000000000000000000000000000000000000000000000000000000000000000000000000000000000000000000000000000000000000000000000000000000000000000000000000000000000000000000";

// An image of layout 2 with generation 65,534, without its first digit.
const IMAGE: &[u8] =
    b"e5a4d4100024243500000000200feff01000000000000000000000000000000e9030000000000000000000000000000aeb9030000000000000000000000000050c30000010000000000000000000000";

// The same record under a header of layout 3, with generation 4,294,967,294.
const IMAGE_THREE: &[u8] =
    b"e5a4d410002424350000300feffffff01000000000000000000000000000000e9030000000000000000000000000000aeb9030000000000000000000000000050c30000010000000000000000000000";

/// A text in which `A` stands for a reply; `P`, `Q` and `V` for a page, one of another counter and one of version 2; and
/// `I` and `J` for an image of layout 2 and of layout 3 without their first digits.
pub fn spelled(alloc: Global, text: &[u8]) -> Result<Vec<u8>, AllocError> {
    let mut bytes = Vec::new(alloc);
    for byte in text {
        match byte {
            b'A' => bytes.extend_from_slice(REPLY)?,
            b'P' => bytes.extend_from_slice(PAGE)?,
            b'Q' => bytes.extend_from_slice(OTHER_COUNTER)?,
            b'V' => bytes.extend_from_slice(OTHER_VERSION)?,
            b'I' => bytes.extend_from_slice(IMAGE)?,
            b'J' => bytes.extend_from_slice(IMAGE_THREE)?,
            other => bytes.push(*other)?,
        }
    }
    Ok(bytes)
}

/// The header, and these lines.
pub fn headed(alloc: Global, lines: &[u8]) -> Result<Vec<u8>, AllocError> {
    let mut text = Vec::from_slice(alloc, b"clockbound-trace,1\n")?;
    let lines = spelled(alloc, lines)?;
    text.extend_from_slice(lines.as_slice())?;
    Ok(text)
}

/// The header, these lines, and so often a row after them.
pub fn repeated(
    alloc: Global,
    lines: &[u8],
    row: &[u8],
    count: usize,
) -> Result<Vec<u8>, AllocError> {
    let mut text = headed(alloc, lines)?;
    for _ in 0..count {
        text.extend_from_slice(row)?;
    }
    Ok(text)
}

/// Why a text is refused, `None` where it is not.
pub fn refusal(alloc: Global, text: &[u8]) -> Result<Option<TraceFault>, AllocError> {
    match read_trace(alloc, text) {
        Ok(_) => Ok(None),
        Err(TraceError::Refused(fault)) => Ok(Some(fault)),
        Err(TraceError::Memory) => Err(AllocError),
    }
}
