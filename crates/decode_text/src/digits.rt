//! The bytes that hexadecimal digits tell, with blanks between the digits.
ghost use Rattle.std.specs.Prelude.{◌≡◌, ◌*◌, length, IfOk, OnOk, IsErrOf};
ghost use Rattle.std.specs.List.{list_any};
ghost use Rattle.std.specs.Result.{result_ok};
ghost use Rattle.hex.specs.Hex.{decode_of};
ghost use Rattle.decode_text.specs.Digits.{is_blank, digits_of, IsHexadecimal, bytes_told};
ghost use Rattle.decode_text.specs.DecodeText.{Answers};

use crate::decode_error::DecodeError;
use clock_gate::List;
use hex::FromHexError;
use std::alloc::{AllocError, Global};

fn is_blank(byte: u8) -> bool
    ensures { result ≡ is_blank byte }
{
    matches!(byte, b' ' | b'\t' | b'\r' | b'\n')
}

#[tactic(auto, using(std::proofs::lemmas::List::Elements::filter_more), unfolding(crate::specs::Digits::digits_of))]
fn digits_of(alloc: Global, text: &[u8]) -> Result<Vec<u8>, AllocError>
    ensures { IfOk result (λ digits. digits.items ≡ digits_of text.now) }
{
    let mut digits = Vec::with_capacity(alloc, text.len())?;
    for &byte in text {
        if !is_blank(byte) {
            digits.push(byte)?;
        }
    }
    Ok(digits)
}

// Whether there is a blank: all bytes are looked at, which costs less than to stop at the first.
#[tactic(auto, using(std::proofs::lemmas::List::Folds::list_any_more))]
fn has_blank(text: &[u8]) -> bool
    ensures { result ≡ list_any is_blank text.now }
{
    let mut found = false;
    'bytes: for &byte in text {
        found |= is_blank(byte);
    }
    found
}

// The bytes that digits without blanks tell.
fn decoded(alloc: Global, digits: &[u8]) -> Result<List<u8>, DecodeError>
    ensures { Answers result (result_ok (decode_of digits.now)) }
{
    match hex::decode(alloc, digits) {
        Ok(bytes) => Ok(List::from_vec(bytes)),
        Err(FromHexError::OutOfMemory) => Err(DecodeError::Memory),
        Err(_) => Err(DecodeError::Hex),
    }
}

#[tactic(auto, using(crate::proofs::Hexadecimal::digits_alone), unfolding(crate::specs::Digits::bytes_told))]
fn told(alloc: Global, text: &[u8]) -> Result<List<u8>, DecodeError>
    ensures { Answers result (bytes_told text.now) }
{
    if !has_blank(text) {
        return decoded(alloc, text);
    }
    let digits = digits_of(alloc, text)?;
    decoded(alloc, digits.as_slice())
}

/// The bytes that a text's digits tell, two of them a byte.
#[tactic(auto, using(crate::proofs::Hexadecimal::hexadecimal_if_told, crate::proofs::Hexadecimal::not_hexadecimal, crate::proofs::Hexadecimal::pairs_if_told))]
pub fn bytes_told(alloc: Global, text: &[u8]) -> Result<List<u8>, DecodeError>
    ensures answer { Answers result (bytes_told text.now) }
    ensures ok { OnOk result (IsHexadecimal text.now) }
    ensures hex { IsErrOf result DecodeError.Hex → ¬ IsHexadecimal text.now }
    ensures pairs { IfOk result (λ bytes. length (digits_of text.now) ≡ 2 * length bytes) }
{
    told(alloc, text)
}
