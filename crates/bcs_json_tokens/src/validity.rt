//! Recognises documents that are not JSON, without building a tree.
ghost use Rattle.std.specs.Bool.{OnTrue};
ghost use Rattle.bcs_registry_json.specs.Json.{IsNotJson};

use json::{Scratch, is_valid};
use std::alloc::Global;

/// Whether the document isn't JSON. If this returns `false`, it may still not be: an allocation may have failed.
pub fn is_not_json(alloc: Global, text: &[u8]) -> bool
    ensures { OnTrue result (IsNotJson text.now) }
{
    let Ok(text) = simdutf8::compat::from_utf8(text) else {
        return true;
    };
    let mut scratch = Scratch::new(alloc);
    match is_valid(text, &mut scratch) {
        Ok(valid) => !valid,
        Err(_) => false,
    }
}
