// Bytes as pairs of hexadecimal digits, both ways.
ghost use Rattle.std.specs.Prelude.{◌≡◌, ◌<◌, IfSome, Some, MatchResult};
ghost use Rattle.script.specs.Hex.{hex_of, fault_text, value_of, Spells, Unspelled, HexStands};
ghost use Rattle.script.specs.declared.hex.HexFault.TheVariants.{NoMemory};

use std::alloc::{AllocError, AllocFailed, Global};
use std::error::Error;
use std::fmt;

// Bytes, shown as two lower-case digits each.
#[derive(Clone, Copy)]
pub struct HexText<'a> {
    pub bytes: &'a [u8],
}

impl fmt::Display for HexText<'_> {
    ghost output = { λ text. Some (hex_of text.bytes.now) };

    fn fmt<W: fmt::Write>(&self, f: &mut fmt::Formatter<W>) -> fmt::Result {
        for &b in self.bytes {
            write!(f, "{b:02x}")?;
        }
        Ok(())
    }
}

// Why digits spell no bytes.
#[derive(Clone, Copy, Debug)]
pub enum HexFault {
    NotHex,
    NoMemory,
}

impl fmt::Display for HexFault {
    ghost output = { λ fault. Some (fault_text fault) };

    fn fmt<W: fmt::Write>(&self, f: &mut fmt::Formatter<W>) -> fmt::Result {
        f.write_str(match self {
            HexFault::NotHex => "not the digits of bytes",
            HexFault::NoMemory => "no memory",
        })
    }
}

impl Error for HexFault {}

impl From<AllocError> for HexFault {
    ghost from_gives = { λ _ fault. fault ≡ NoMemory };

    fn from(_: AllocError) -> HexFault {
        HexFault::NoMemory
    }
}

impl<T: Drop> From<AllocFailed<T>> for HexFault {
    ghost from_gives = { λ _ fault. fault ≡ NoMemory };

    fn from(_: AllocFailed<T>) -> HexFault {
        HexFault::NoMemory
    }
}

// The value of a digit, in either case.
fn value(digit: u8) -> Option<u8>
    ensures value { result ≡ value_of digit }
    ensures small { IfSome result (λ n. n < 16) }
{
    let value = char::from(digit).to_digit(16)?;
    Some(value as u8)
}

// The bytes that the digits spell.
pub fn unhex(heap: Global, hex: &[u8]) -> Result<Vec<u8>, HexFault>
    ensures { MatchResult result (λ bytes. Spells hex.now bytes.items) (Unspelled hex.now) }
{
    let (pairs, []) = hex.as_chunks::<2>() else {
        return Err(HexFault::NotHex);
    };
    let mut bytes = Vec::new(heap);
    for [high, low] in pairs {
        let high = value(*high).ok_or(HexFault::NotHex)?;
        let low = value(*low).ok_or(HexFault::NotHex)?;
        bytes.push(high * 16 + low)?;
    }
    Ok(bytes)
}

// What is written as digits spells the same bytes, and digits spell one list of bytes at most.
pub fn hex_stands() -> u8
    ensures { HexStands }
{
    0
}
