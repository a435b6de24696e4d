//! Why JSON is refused, and where.
ghost use Rattle.std.specs.Prelude.{◌≡◌, ◌∷◌, Some, IfSome, option_map, map};
ghost use Rattle.bcs_json_spec.specs.Place.{item, member, pointer_step_of};
ghost use Rattle.bcs_json_reader.specs.Refused.{steps, fault_alone, location_of};

use bcs_json_spec::{JsonFault, JsonStep};
use std::alloc::{AllocError, AllocFailed, Global};

/// A fault, and the location of the JSON that is refused.
#[derive(Drop)]
pub struct Refusal {
    pub fault: JsonFault,
    pub location: JsonLocation,
}

/// Adds the step from an array to its item, if the item was refused.
#[inline(always)]
pub fn at_item<T: Drop>(
    alloc: Global,
    number: usize,
    read: Result<T, Refusal>,
) -> Result<T, Refusal>
    ensures same { fault_alone result ≡ fault_alone read }
    ensures location { IfSome (location_of result) (λ path. option_map (λ inner. item number ∷ inner) (location_of read) ≡ Some path) }
{
    match read {
        Ok(value) => Ok(value),
        Err(refusal) => Err(refusal.in_item(alloc, number)),
    }
}

/// Adds the step from an object to its member, if the member was refused.
#[inline(always)]
pub fn at_member<T: Drop>(alloc: Global, name: &str, read: Result<T, Refusal>) -> Result<T, Refusal>
    ensures same { fault_alone result ≡ fault_alone read }
    ensures location { IfSome (location_of result) (λ path. option_map (λ inner. member name.now ∷ inner) (location_of read) ≡ Some path) }
{
    match read {
        Ok(value) => Ok(value),
        Err(refusal) => Err(refusal.in_member(alloc, name)),
    }
}

impl Refusal {
    #[inline(never)]
    fn in_item(self, alloc: Global, number: usize) -> Refusal
        ensures fault { result.fault ≡ self.fault }
        ensures location { IfSome (steps result.location) (λ path. option_map (λ inner. item number ∷ inner) (steps self.location) ≡ Some path) }
    {
        Refusal {
            fault: self.fault,
            location: self.location.after(alloc, JsonStep::Item(number as u64)),
        }
    }

    #[inline(never)]
    fn in_member(self, alloc: Global, name: &str) -> Refusal
        ensures fault { result.fault ≡ self.fault }
        ensures location { IfSome (steps result.location) (λ path. option_map (λ inner. member name.now ∷ inner) (steps self.location) ≡ Some path) }
    {
        match String::from_str(alloc, name) {
            Ok(name) => Refusal {
                fault: self.fault,
                location: self.location.after(alloc, JsonStep::Member(name)),
            },
            Err(_) => Refusal {
                fault: self.fault,
                location: JsonLocation::Unknown,
            },
        }
    }
}

impl From<JsonFault> for Refusal {
    ghost use Rattle.std.specs.Prelude.{◌≡◌};
    ghost use Rattle.bcs_json_reader.specs.declared.refusal.JsonLocation.TheVariants.{Here};

    ghost from_gives = { λ fault refusal. (refusal.fault ≡ fault) × (refusal.location ≡ Here) };

    fn from(fault: JsonFault) -> Self {
        Refusal {
            fault,
            location: JsonLocation::Here,
        }
    }
}

impl From<AllocError> for Refusal {
    ghost use Rattle.std.specs.Prelude.{◌≡◌};
    ghost use Rattle.bcs_json_spec.specs.declared.json_fault.JsonFault.TheVariants.{OutOfMemory};

    ghost from_gives = { λ _ refusal. refusal.fault ≡ OutOfMemory };

    fn from(_: AllocError) -> Self {
        Refusal::from(JsonFault::OutOfMemory)
    }
}

impl<T: Drop> From<AllocFailed<T>> for Refusal {
    ghost use Rattle.std.specs.Prelude.{◌≡◌};
    ghost use Rattle.bcs_json_spec.specs.declared.json_fault.JsonFault.TheVariants.{OutOfMemory};

    ghost from_gives = { λ _ refusal. refusal.fault ≡ OutOfMemory };

    fn from(_: AllocFailed<T>) -> Self {
        Refusal::from(JsonFault::OutOfMemory)
    }
}

impl From<Refusal> for JsonFault {
    ghost use Rattle.std.specs.Prelude.{◌≡◌};

    ghost from_gives = { λ refusal fault. fault ≡ refusal.fault };

    fn from(refusal: Refusal) -> Self {
        refusal.fault
    }
}

/// Where JSON is refused, as steps to a part of it (as in a JSON Pointer, RFC 6901).
#[derive(Drop)]
pub enum JsonLocation {
    /// The JSON itself is refused.
    Here,
    /// The part at the end of these steps is refused. The innermost step comes first.
    Through(Vec<JsonStep>),
    /// Memory ran out while the location was built.
    Unknown,
}

impl JsonLocation {
    /// Prepends `step`. The result is `Unknown` if memory runs out.
    #[tactic(auto, using(crate::proofs::Locations::steps_more))]
    pub fn after(self, alloc: Global, step: JsonStep) -> JsonLocation
        ensures { IfSome (steps result) (λ path. option_map (λ inner. pointer_step_of step ∷ inner) (steps self) ≡ Some path) }
    {
        let mut through = match self {
            JsonLocation::Here => Vec::new(alloc),
            JsonLocation::Through(through) => through,
            JsonLocation::Unknown => return JsonLocation::Unknown,
        };
        match through.push(step) {
            Ok(()) => JsonLocation::Through(through),
            Err(_) => JsonLocation::Unknown,
        }
    }

    /// The steps from the outermost inwards, unless the location is unknown.
    #[tactic(auto, using(crate::proofs::Locations::steps_turned))]
    pub fn outward(self, alloc: Global) -> Option<Vec<JsonStep>>
        ensures { option_map (λ v. map pointer_step_of v.items) result ≡ steps self }
    {
        match self {
            JsonLocation::Here => Some(Vec::new(alloc)),
            JsonLocation::Through(inward) => {
                let mut outward = inward;
                outward.reverse();
                Some(outward)
            }
            JsonLocation::Unknown => None,
        }
    }
}
