//! Parses JSON.
ghost use Rattle.std.specs.Prelude.{◌≡◌, ◌≢◌, ◌≤◌, IfOk, Err};
ghost use Rattle.serde_json.specs.View.{view};
ghost use Rattle.bcs_registry_json.specs.Json.{IsJson, IsNotJson};

use serde_json::{Category, Value};
use std::alloc::Global;
use thiserror::Error;

/// Why a document wasn't parsed. The message is the name of the variant.
#[derive(Clone, Copy, Debug, Drop, PartialEq, Eq, Error)]
pub enum TextFault {
    /// `serde_json` rejects the input.
    #[error("NotJson")]
    NotJson,
    /// An allocation failed.
    #[error("OutOfMemory")]
    OutOfMemory,
}

/// Parses a JSON document with `serde_json`. Input that isn't UTF-8 isn't JSON (RFC 8259).
pub fn read_json(alloc: Global, text: &[u8]) -> Result<Value, TextFault>
    ensures ok { IfOk result (λ v. IsJson text.now (view v)) }
    ensures not_json { result ≡ Err TextFault.NotJson → IsNotJson text.now }
{
    match Value::from_slice(alloc, text) {
        Ok(value) => Ok(value),
        Err(error) => if error.classify() == Category::Memory {
            Err(TextFault::OutOfMemory)
        } else {
            Err(TextFault::NotJson)
        },
    }
}
