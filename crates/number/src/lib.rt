//! A number in a field of a line: base ten, no leading zeros, no minus zero, 32 signed bits.
#![tactic(auto, using(crate::specs::NumberLaws::natural_bounded, crate::specs::NumberLaws::digits_other, crate::specs::NumberLaws::digits_more, crate::specs::NumberLaws::digits_over, crate::specs::NumberLaws::digits_end), unfolding(crate::specs::Numbers::has_leading_zero, crate::specs::Numbers::digits_up_to, crate::specs::Numbers::natural_up_to, crate::specs::Numbers::negative_of, crate::specs::Numbers::unsigned_of, crate::specs::Numbers::signed_of))]

ghost use Rattle.std.specs.Prelude.{◌≤◌, ◌≡◌};
ghost use Rattle.number.specs.Numbers.{has_leading_zero, digits_up_to, natural_up_to, negative_of, unsigned_of, count_of, signed_of};

/// The largest number of 32 signed bits.
const LARGEST: u64 = i32::MAX as u64;

/// The smallest one without its minus sign.
const SMALLEST_NEGATED: u64 = LARGEST + 1;

/// The value of these bytes, where all are digits and it is at most `most`.
/// What was read so far is at most `most`, so that ten times as much and a digit fit 64 bits.
fn digits_up_to(field: &[u8], most: u64) -> Option<u64>
    requires { most ≤ 2147483648 }
    ensures { result ≡ digits_up_to most 0 field.now }
{
    let mut value: u64 = 0;
    for byte in field {
        if !byte.is_ascii_digit() {
            return None;
        }
        value = value * 10 + u64::from(byte - b'0');
        if most < value {
            return None;
        }
    }
    Some(value)
}

/// Whether a zero stands in front of other bytes.
fn has_leading_zero(field: &[u8]) -> bool
    ensures { result ≡ has_leading_zero field.now }
{
    2 <= field.len() && field[0] == b'0'
}

/// The number with these digits, where they are in base ten and it is at most `most`.
fn natural_up_to(digits: &[u8], most: u64) -> Option<u64>
    requires { most ≤ 2147483648 }
    ensures { result ≡ natural_up_to most digits.now }
{
    if digits.is_empty() || has_leading_zero(digits) {
        return None;
    }
    digits_up_to(digits, most)
}

/// The number whose digits follow a minus sign: from -1 down to the smallest.
fn negative_in(digits: &[u8]) -> Option<i32>
    ensures { result ≡ negative_of digits.now }
{
    let value = natural_up_to(digits, SMALLEST_NEGATED)?;
    if value == 0 {
        return None;
    }
    Some(-(value as i64) as i32)
}

/// The number with these digits and no sign.
fn unsigned_in(digits: &[u8]) -> Option<i32>
    ensures { result ≡ unsigned_of digits.now }
{
    // Within the bound the cast keeps the number; `i32::try_from` would test the same bound once more.
    natural_up_to(digits, LARGEST).map(|value| value as i32)
}

/// The number in a field in which a minus sign is allowed: a height or p.
pub fn signed_in(field: &[u8]) -> Option<i32>
    ensures { result ≡ signed_of field.now }
{
    match field.split_first() {
        None => None,
        Some((b'-', digits)) => negative_in(digits),
        Some(_) => unsigned_in(field),
    }
}

/// The number in a field in which no sign is allowed: any other than a height or p.
pub fn count_in(field: &[u8]) -> Option<u64>
    ensures { result ≡ count_of field.now }
{
    natural_up_to(field, LARGEST)
}
