//! Why a JSON document is refused, and where.

use bcs_encode::EncodeFault;
use bcs_json_spec::{JsonFault, JsonStep};
use std::alloc::AllocError;

/// Why a JSON document is refused, and where.
#[derive(Drop)]
pub struct TextRefusal {
    pub fault: JsonFault,
    /// The steps from the whole document down to the JSON that was refused, the outermost first. `None` if the document
    /// is refused as a whole, or an allocation failed.
    pub steps: Option<Vec<JsonStep>>,
}

impl From<JsonFault> for TextRefusal {
    ghost use Rattle.std.specs.Prelude.{◌≡◌, None};

    ghost from_gives = { λ fault refusal. (refusal.fault ≡ fault) × (refusal.steps ≡ None) };

    fn from(fault: JsonFault) -> Self {
        TextRefusal { fault, steps: None }
    }
}

impl From<EncodeFault> for TextRefusal {
    ghost use Rattle.std.specs.Prelude.{◌≡◌, None};
    ghost use Rattle.bcs_json_spec.specs.Causes.{fault_of_value};

    ghost from_gives = { λ fault refusal. (refusal.fault ≡ fault_of_value fault) × (refusal.steps ≡ None) };

    fn from(fault: EncodeFault) -> Self {
        TextRefusal::from(JsonFault::from(fault))
    }
}

impl From<AllocError> for TextRefusal {
    ghost use Rattle.std.specs.Prelude.{◌≡◌, None};
    ghost use Rattle.bcs_json_spec.specs.declared.json_fault.JsonFault.TheVariants.{OutOfMemory};

    ghost from_gives = { λ _ refusal. (refusal.fault ≡ OutOfMemory) × (refusal.steps ≡ None) };

    fn from(_: AllocError) -> Self {
        TextRefusal::from(JsonFault::OutOfMemory)
    }
}

impl From<TextRefusal> for JsonFault {
    ghost use Rattle.std.specs.Prelude.{◌≡◌};

    ghost from_gives = { λ refusal fault. fault ≡ refusal.fault };

    fn from(refusal: TextRefusal) -> Self {
        refusal.fault
    }
}
