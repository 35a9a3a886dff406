// Bytes as text, in lower case hexadecimal.
#![tactic(auto)]

ghost use Rattle.std.specs.Prelude.{◌≡◌, ◌%◌, ◌/◌, ◌<◌, ◌&&◌, ◌↔◌, length, IsErrOf, IsFalse, IsNone, IfOk, IfSome};
ghost use Rattle.std.specs.List.{list_all};
ghost use Rattle.lower_hex.specs.Hex.{hex_digit, hex_text, is_hex_digit};
ghost use Rattle.lower_hex.specs.declared.HexError.TheVariants.{OutOfMemory};

use std::alloc::{AllocFailed, Global};

// Why there are no bytes.
#[derive(Clone, Copy, PartialEq, Eq, Debug)]
pub enum HexError {
    // The number of digits is odd.
    HalfByte,
    NoDigit,
    OutOfMemory,
}

impl From<AllocFailed<u8>> for HexError {
    ghost from_gives = { λ _ error. error ≡ OutOfMemory };

    fn from(_refused: AllocFailed<u8>) -> HexError {
        HexError::OutOfMemory
    }
}

// The bytes that the digits name, two each.
pub fn decode(heap: Global, digits: &[u8]) -> Result<Vec<u8>, HexError>
    ensures ok { IfOk result (λ bytes. hex_text bytes.items ≡ digits.now) }
    ensures half_byte { IsErrOf result HexError.HalfByte ↔ (length digits.now % 2 ≡ 1) }
    ensures no_digit { IsErrOf result HexError.NoDigit → IsFalse (list_all is_hex_digit digits.now) }
{
    if digits.len() % 2 != 0 {
        return Err(HexError::HalfByte);
    }
    let mut bytes = Vec::new(heap);
    for pair in digits.chunks_exact(2) {
        let byte = byte_of(pair[0], pair[1]).ok_or(HexError::NoDigit)?;
        bytes.push(byte)?;
    }
    Ok(bytes)
}

// The byte of two digits.
fn byte_of(high: u8, low: u8) -> Option<u8>
    ensures high { IfSome result (λ byte. hex_digit (byte / 16) ≡ high) }
    ensures low { IfSome result (λ byte. hex_digit (byte % 16) ≡ low) }
    ensures none { IsNone result → IsFalse (is_hex_digit high && is_hex_digit low) }
{
    Some(value_of(high)? * 16 + value_of(low)?)
}

// The number of a digit. The library's own digits may be upper case too.
fn value_of(digit: u8) -> Option<u8>
    ensures below { IfSome result (λ value. value < 16) }
    ensures value { IfSome result (λ value. hex_digit value ≡ digit) }
    ensures none { IsNone result → IsFalse (is_hex_digit digit) }
{
    match digit {
        b'0'..=b'9' => Some(digit - b'0'),
        b'a'..=b'f' => Some(digit - b'a' + 10),
        _ => None,
    }
}

#[cfg(test)]
mod tests {
    use super::*;
    use std::test::Fail;

    #[test]
    fn decodes_pairs_of_digits(rt: HostRuntime) -> Result<(), Fail> {
        let heap = rt.alloc();
        assert_eq!(rt;
            decode(heap, b"00ff7a")?.as_slice(),
            [0, 255, 122].as_slice()
        );
        assert_eq!(rt; decode(heap, b"")?.as_slice(), [].as_slice());
        assert_eq!(rt; decode(heap, b"00f").err(), Some(HexError::HalfByte));
        assert_eq!(rt; decode(heap, b"0A").err(), Some(HexError::NoDigit));
        assert_eq!(rt; decode(heap, b"g0").err(), Some(HexError::NoDigit));
        Ok(())
    }
}
