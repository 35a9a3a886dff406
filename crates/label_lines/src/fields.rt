// The number in a field.
ghost use Rattle.std.specs.Prelude.{◌≡◌, ◌+◌, ◌^◌, ◌<◌, length};
ghost use Rattle.std.specs.Result.{result_map_both};
ghost use Rattle.label_lines.specs.Faults.{field_numbers};
ghost use Rattle.label_lines.specs.Fields.{field_of};

use crate::faults::{FieldFault, Spot};

const MOST_DIGITS: usize = 10;

// The number in the bytes of a field, which starts at this spot of its line. Its digits are taken in turn, since a fault
// tells the place of the first byte that is none. It is inlined, so that its result stays in registers.
#[inline(always)]
pub(crate) fn field_number(bytes: &[u8], spot: Spot) -> Result<u32, FieldFault>
    requires { spot.place + length bytes.now < 2 ^ 32 }
    ensures { result_map_both (λ n. n) field_numbers result ≡ field_of spot.field spot.place bytes.now }
{
    if bytes.is_empty() {
        return Err(FieldFault::Empty(spot));
    }
    let mut value: u64 = 0;
    for (i, byte) in bytes.iter().enumerate() {
        if !byte.is_ascii_digit() {
            return Err(FieldFault::NoDigit(Spot {
                place: spot.place + i as u32,
                ..spot
            }));
        }
        // This wraps only past `MOST_DIGITS`, where the field is too large whatever the value.
        value = value.wrapping_mul(10).wrapping_add(u64::from(*byte - b'0'));
    }
    match u32::try_from(value) {
        Ok(number) if bytes.len() <= MOST_DIGITS => Ok(number),
        _ => Err(FieldFault::TooLarge(spot)),
    }
}
