//! Decodes bytes given as base64.
ghost use Rattle.std.specs.Prelude.{◌≢◌, ℕ, List, IfErr, IfOk};
ghost use Rattle.base64.specs.declared.decode.DecodeAllocError.TheVariants.{OutOfMemory};
ghost use Rattle.bcs_tool_answers.specs.Input.{IsBase64Of};

use base64::DecodeAllocError;
use base64::engine::general_purpose::STANDARD;
use std::alloc::Global;

/// The bytes whose base64 encoding is this text.
pub fn bytes_of_base64(alloc: Global, text: &[u8]) -> Result<Vec<u8>, DecodeAllocError>
    ensures ok { IfOk result (λ v. IsBase64Of text.now v.items) }
    ensures err { IfErr result (λ e. e ≢ OutOfMemory → (b : List ℕ) → IsBase64Of text.now b → ⊥) }
{
    STANDARD.decode(alloc, text)
}
