//! How much of a block is valid UTF-8.
ghost use Rattle.std.specs.Prelude.{◌≡◌, ◌-◌, ◌≤◌, length, take, drop};
ghost use Rattle.std.specs.Str.{IsUtf8};
ghost use Rattle.bcs_decode_source.specs.Texts.{BeginsNoText};

/// The length of the longest prefix that is valid UTF-8.
pub fn valid_len(bytes: &[u8]) -> usize
    ensures within { result ≤ length bytes.now }
    ensures front { IsUtf8 (take result bytes.now) }
    ensures behind { BeginsNoText (drop result bytes.now) }
{
    match simdutf8::compat::from_utf8(bytes) {
        Ok(_) => bytes.len(),
        Err(error) => error.valid_up_to(),
    }
}
