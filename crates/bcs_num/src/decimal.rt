//! Plain decimal strings of integers: `0`, or digits without a leading zero, preceded by `-` if the number is negative.
ghost use Rattle.std.specs.Prelude.{◌≡◌, ℕ, ℤ, ◌+◌, ◌^◌, ◌<◌, ◌≤◌, Some, length, IfSome, SomeIff, decimal};
ghost use Rattle.std.specs.Char.{digit_value};
ghost use Rattle.std.specs.Fmt.{signed_decimal};
ghost use Rattle.std.specs.Str.Parse.{AllDigits, digits_value};
ghost use Rattle.bcs_num.specs.Le.{width_of, IsUnsigned, IsSigned};

use crate::width::Width;

/// Parses a plain decimal string as an unsigned integer of `width`. Returns `None` if the string isn't plain decimal
/// (`+1`, `007`, the empty string), or if the number is too large for `width`.
pub fn parse_unsigned(width: Width, text: &str) -> Option<u128>
    ensures found { IfSome result (λ n. IsUnsigned (width_of width) n × (text.now ≡ decimal n)) }
    ensures only { (n : ℕ) → IsUnsigned (width_of width) n → text.now ≡ decimal n
        → result ≡ Some n }
{
    let n = plain_number(text.as_bytes())?;
    if width.holds_unsigned(n) {
        Some(n)
    } else {
        None
    }
}

/// Parses a plain decimal string as a signed integer of `width`. Returns `None` if the string isn't plain decimal
/// (`+1`, `007`, `-0`, the empty string), or if the number is out of range for `width`.
pub fn parse_signed(width: Width, text: &str) -> Option<i128>
    ensures found { IfSome result (λ z. IsSigned (width_of width) z × (text.now ≡ signed_decimal z)) }
    ensures only { (z : ℤ) → IsSigned (width_of width) z → text.now ≡ signed_decimal z
        → result ≡ Some z }
{
    let greatest = width.greatest_signed();
    match text.as_bytes() {
        [b'-', digits @ ..] => {
            // The distance from -1 down to the number. `-0` has none, so the subtraction rejects it.
            let below = plain_number(digits)?.checked_sub(1)?;
            if below <= greatest {
                Some(-1 - below as i128)
            } else {
                None
            }
        }
        digits => {
            let n = plain_number(digits)?;
            if n <= greatest { Some(n as i128) } else { None }
        }
    }
}

fn plain_number(digits: &[u8]) -> Option<u128>
    ensures found { IfSome result (λ n. (n < 2 ^ 128) × (digits.now ≡ decimal n)) }
    ensures only { (n : ℕ) → n < 2 ^ 128 → digits.now ≡ decimal n → result ≡ Some n }
{
    if digits.is_empty() {
        return None;
    }
    if digits[0] == b'0' && digits.len() > 1 {
        return None;
    }
    number(digits)
}

// The number of digits that always fit into 64 bits.
const SHORT: usize = 19;

fn number(digits: &[u8]) -> Option<u128>
    ensures { SomeIff result (AllDigits 10 digits.now × (digits_value 10 digits.now < 2 ^ 128))
        (digits_value 10 digits.now) }
{
    let (front, rest) = digits.split_at(digits.len().min(SHORT));
    let mut n = u128::from(short_number(front)?);
    for byte in rest {
        n = n.checked_mul(10)?.checked_add(u128::from(digit(*byte)?))?;
    }
    Some(n)
}

fn short_number(digits: &[u8]) -> Option<u64>
    requires { length digits.now ≤ SHORT }
    ensures { SomeIff result (AllDigits 10 digits.now) (digits_value 10 digits.now) }
{
    let mut n: u64 = 0;
    for byte in digits {
        n = n * 10 + u64::from(digit(*byte)?);
    }
    Some(n)
}

fn digit(byte: u8) -> Option<u8>
    ensures { SomeIff result (digit_value byte < 10) (digit_value byte) }
{
    match byte {
        b'0'..=b'9' => Some(byte - b'0'),
        _ => None,
    }
}
