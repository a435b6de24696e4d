//! The number of a variant in the JSON of an enum.
ghost use Rattle.std.specs.Prelude.{◌≡◌, ◌^◌, ◌<◌, IfSome, None, decimal, false};
ghost use Rattle.bcs_registry_json.specs.Shaped.{is_variant_number};

use bcs_num::{Width, parse_unsigned};

/// Parses a plain decimal number, at most 4294967295: `0`, or digits without a leading zero.
pub fn variant_number(name: &str) -> Option<u32>
    ensures some { IfSome result (λ n. (n < 2 ^ 32) × (name.now ≡ decimal n)) }
    ensures none { result ≡ None → is_variant_number name.now ≡ false }
{
    let number = parse_unsigned(Width::W4, name)?;
    u32::try_from(number).ok()
}
