//! ULEB128, in which BCS encodes lengths and variant numbers.
ghost use Rattle.std.specs.Prelude.{◌≡◌, ℕ, ◌<◌, ◌≤◌, ◌+◌, ◌^◌, ◌↔◌, Ok, length, take, drop, IfOk, IsErrOf};
ghost use Rattle.bcs_num.specs.Uleb.{uleb, IsUnended, IsLongForm, IsTooLarge};

use crate::fault::NumFault;

/// The greatest length of a list, a map, a string or a byte string, according to the BCS specification.
pub const LENGTH_LIMIT: usize = 2147483647;

/// Writes the shortest form of `n` to the start of `out` and returns its length, one to five bytes.
pub fn put_uleb(n: u32, out: &mut [u8; 5]) -> usize
    ensures len { result ≡ length (uleb n) }
    ensures room { result ≤ 5 }
    ensures bytes { take result out.new ≡ uleb n }
    ensures rest { drop result out.new ≡ drop result out.old }
{
    let mut left = n;
    let mut i = 0;
    while left >= 128 {
        out[i] = (left % 128) as u8 + 128;
        left /= 128;
        i += 1;
    }
    out[i] = left as u8;
    i + 1
}

/// Reads the number at the start of `bytes`, and returns it with its length in bytes. Reads up to the first byte
/// without the high bit, at most five bytes. Fails with `EndOfInput` if `bytes` ends before that, with `NumberTooLarge`
/// if the fifth byte is above `0F`, and with `LongForm` if the last byte is `00` and not the only one.
pub fn take_uleb(bytes: &[u8]) -> Result<(u32, usize), NumFault>
    ensures found { IfOk result (λ r.
        (r.0 < 2 ^ 32) × (r.1 ≤ length bytes.now) × (take r.1 bytes.now ≡ uleb r.0)) }
    ensures only { (n len : ℕ) → n < 2 ^ 32 → len ≤ length bytes.now → take len bytes.now ≡ uleb n
        → result ≡ Ok (n, len) }

    ensures ended { IsErrOf result NumFault.EndOfInput ↔ IsUnended bytes.now }
    ensures long { IsErrOf result NumFault.LongForm ↔ IsLongForm bytes.now }
    ensures large { IsErrOf result NumFault.NumberTooLarge ↔ IsTooLarge bytes.now }
{
    let mut low = 0;
    let mut worth = 1;
    for (i, byte) in bytes.iter().enumerate() {
        if i == 4 && *byte > 0x0f {
            return Err(NumFault::NumberTooLarge);
        }
        if *byte < 128 {
            if *byte == 0 && i > 0 {
                return Err(NumFault::LongForm);
            }
            return Ok((low + u32::from(*byte) * worth, i + 1));
        }
        low += u32::from(*byte - 128) * worth;
        worth *= 128;
    }
    Err(NumFault::EndOfInput)
}
