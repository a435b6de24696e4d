//! Reads the number and the contents of a variant.
ghost use Rattle.std.specs.Prelude.{◌<◌, ◌^◌, ◌≡◌, ◌++◌, List, ℕ, map};
ghost use Rattle.bcs_num.specs.Uleb.{uleb};
ghost use Rattle.bcs_registry_model.specs.View.{choice_of};
ghost use Rattle.bcs_decode_parts.specs.Fronts.{IsChosen, IsNumber};

use bcs_num::take_uleb;
use bcs_registry::{Named, VariantFormat};
use std::collections::BTreeMap;

/// The ULEB128 number at the start of `bytes`, and the bytes after it.
pub fn after_number(bytes: &[u8]) -> Option<(u32, &[u8])>
    ensures { (n : ℕ) (after : List ℕ) → n < 2 ^ 32 → bytes.now ≡ uleb n ++ after → IsNumber n after result }
{
    match take_uleb(bytes) {
        Ok((number, length)) => {
            let (_, rest) = bytes.split_at(length);
            Some((number, rest))
        }
        Err(_) => None,
    }
}

/// The contents of the variant whose number is at the start of `bytes`, and the bytes after the number.
pub fn chosen<'r, 'a>(
    variants: &'r BTreeMap<u32, Named<VariantFormat>>,
    bytes: &'a [u8],
) -> Option<(&'r VariantFormat, &'a [u8])>
    ensures { (n : ℕ) (after : List ℕ) → n < 2 ^ 32 → bytes.now ≡ uleb n ++ after → IsChosen n (map choice_of variants.now.entries) after result }
{
    let (number, rest) = after_number(bytes)?;
    let variant = variants.get(&number)?;
    Some((&variant.value, rest))
}
