//! Converts faults of reading a text, and of encoding the value that it spells, to faults of JSON.

use crate::json_fault::JsonFault;
use bcs_encode_spec::EncodeFault;
use bcs_registry_json::TextFault;

impl From<TextFault> for JsonFault {
    ghost use Rattle.std.specs.Prelude.{◌≡◌};
    ghost use Rattle.bcs_json_spec.specs.Causes.{fault_of_text};

    ghost from_gives = { λ fault result. result ≡ fault_of_text fault };

    fn from(fault: TextFault) -> JsonFault {
        match fault {
            TextFault::NotJson => JsonFault::NotJson,
            TextFault::OutOfMemory => JsonFault::OutOfMemory,
        }
    }
}

impl From<EncodeFault> for JsonFault {
    ghost use Rattle.std.specs.Prelude.{◌≡◌};
    ghost use Rattle.bcs_json_spec.specs.Causes.{fault_of_value};

    ghost from_gives = { λ fault result. result ≡ fault_of_value fault };

    fn from(fault: EncodeFault) -> JsonFault {
        match fault {
            // JSON that spells a value spells one of the format, so this never occurs.
            EncodeFault::NotOfFormat => JsonFault::BadShape,
            EncodeFault::Unsupported => JsonFault::Unsupported,
            EncodeFault::TooDeep => JsonFault::TooDeep,
            EncodeFault::TooManyNodes => JsonFault::TooManyNodes,
            EncodeFault::TooLong => JsonFault::TooLong,
            EncodeFault::RepeatedKey => JsonFault::RepeatedKey,
            EncodeFault::OutOfMemory => JsonFault::OutOfMemory,
        }
    }
}
