//! Registries, for C.
ghost use Rattle.std.specs.Prelude.{◌≡◌, IfErr, IfOk};
ghost use Rattle.bcs_registry_model.specs.Container.{Entries};
ghost use Rattle.bcs_registry_model.specs.Grows.{Grows, IsFirstGrowthFault};
ghost use Rattle.bcs_registry_model.specs.declared.growth_fault.GrowthFault.{GrowthFault};
ghost use Rattle.bcs_calls.specs.Answers.{plain, refusal};
ghost use Rattle.bcs_calls.specs.Asking.{IsUnlessMemory};
ghost use Rattle.bcs_calls.specs.Keeping.{Knows};
ghost use Rattle.bcs_calls.specs.Registries.{AnswersGrowth, AnswersTwo, IsRegistry, RefusesFormat, RefusesRegistry};
ghost use Rattle.bcs_calls.specs.declared.fault.Fault.TheVariants.{Growth};
ghost use Rattle.bcs_calls.specs.declared.status.Status.TheVariants.{Done, Refused};

use crate::answer::Answer;
use crate::fault::Fault;
use crate::known::Known;
use crate::status::Status;
use bcs_registry::Registry;
use std::alloc::Global;

/// The registry that a JSON document represents, or its refusal with this status.
pub(crate) fn read_registry(alloc: Global, text: &[u8], status: Status) -> Result<Registry, Answer>
    ensures ok { IfOk result (λ r. IsRegistry text.now r) }
    ensures err { IfErr result (λ a. RefusesRegistry text.now status a) }
{
    match Registry::read(alloc, text) {
        Ok(registry) => Ok(registry),
        Err(fault) => Err(Answer::registry_refusal(status, fault)),
    }
}

/// The format that JSON represents, with the JSON, or its refusal.
pub(crate) fn read_known(alloc: Global, registry: &Registry, text: &[u8]) -> Result<Known, Answer>
    ensures ok { IfOk result (λ known. Knows registry.now known × (known.text.items ≡ text.now)) }
    ensures err { IfErr result (λ a. RefusesFormat registry.now text.now a) }
{
    let format = match registry.read_format(alloc, text) {
        Ok(format) => format,
        Err(fault) => return Err(Answer::registry_refusal(Status::Format, fault)),
    };
    match Vec::from_slice(alloc, text) {
        Ok(text) => Ok(Known { text, format }),
        Err(_) => Err(Answer::plain(Status::Memory)),
    }
}

/// Whether the older registry grows into the newer one. The older one is read first.
pub(crate) fn grows(alloc: Global, older: &[u8], newer: &[u8]) -> Answer
    ensures answers { AnswersTwo older.now newer.now result }
    ensures grown { (r q : Entries) → IsRegistry older.now r → IsRegistry newer.now q → Grows r q → IsUnlessMemory result (plain Done) }
    ensures broken { (r q : Entries) (e : GrowthFault) → IsRegistry older.now r → IsRegistry newer.now q → IsFirstGrowthFault r q e
        → IsUnlessMemory result (refusal Refused (Growth e)) }
{
    let older = match read_registry(alloc, older, Status::Registry) {
        Ok(registry) => registry,
        Err(answer) => return answer,
    };
    let newer = match read_registry(alloc, newer, Status::Newer) {
        Ok(registry) => registry,
        Err(answer) => return answer,
    };
    growth(&older, &newer)
}

/// Whether the older registry grows into the newer one.
pub(crate) fn growth(older: &Registry, newer: &Registry) -> Answer
    ensures answers { AnswersGrowth older.now newer.now result }
    ensures grown { Grows older.now newer.now → result ≡ plain Done }
    ensures broken { (e : GrowthFault) → IsFirstGrowthFault older.now newer.now e → result ≡ refusal Refused (Growth e) }
{
    match older.grows(newer) {
        Ok(()) => Answer::plain(Status::Done),
        Err(fault) => Answer::refusal(Status::Refused, Fault::Growth(fault)),
    }
}
