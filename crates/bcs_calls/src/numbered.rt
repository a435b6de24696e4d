//! The fault that a number stands for.
ghost use Rattle.std.specs.Prelude.{◌≡◌, IfNone, IfSome};
ghost use Rattle.bcs_registry_model.specs.declared.fault.RegistryFault.{RegistryFault};
ghost use Rattle.bcs_registry_model.specs.declared.growth_fault.GrowthFault.{GrowthFault};
ghost use Rattle.bcs_decode_spec.specs.declared.reason.Reason.{Reason};
ghost use Rattle.bcs_json_spec.specs.declared.json_fault.JsonFault.{JsonFault};
ghost use Rattle.bcs_move_types.specs.declared.refusal.MoveRefusalName.{MoveRefusalName};
ghost use Rattle.bcs_calls.specs.Named.{IsNumbered};
ghost use Rattle.bcs_calls.specs.declared.fault.Fault.{Fault};
ghost use Rattle.bcs_calls.specs.declared.fault.Fault.TheVariants.{Growth, Move, Registry, Stop, Text};

use crate::fault::Fault;
use bcs_decode_spec::Reason;
use bcs_json_spec::JsonFault;
use bcs_move::MoveRefusalName;
use bcs_registry_model::{GrowthFault, RegistryFault};

/// The fault with this number, or `None` exactly if there is none.
pub(crate) fn fault_numbered(number: u32) -> Option<Fault>
    ensures some { IfSome result (λ fault. IsNumbered fault number) }
    ensures none { IfNone result ((fault : Fault) → IsNumbered fault number → ⊥) }
{
    if let Some(fault) = registry_fault(number) {
        return Some(Fault::Registry(fault));
    }
    if let Some(fault) = growth_fault(number) {
        return Some(Fault::Growth(fault));
    }
    if let Some(fault) = text_fault(number) {
        return Some(Fault::Text(fault));
    }
    if let Some(reason) = stop_reason(number) {
        return Some(Fault::Stop(reason));
    }
    if let Some(name) = move_refusal(number) {
        return Some(Fault::Move(name));
    }
    match number {
        501 => Some(Fault::ShownTooNested),
        601 => Some(Fault::BadPath),
        602 => Some(Fault::NoContent),
        603 => Some(Fault::OtherFunction),
        701 => Some(Fault::ExampleUnknownVariant),
        702 => Some(Fault::ExampleNoValue),
        703 => Some(Fault::ExampleTooManyNodes),
        704 => Some(Fault::ExampleTooNested),
        _ => None,
    }
}

fn registry_fault(number: u32) -> Option<RegistryFault>
    ensures some { IfSome result (λ e. IsNumbered (Registry e) number) }
    ensures none { IfNone result ((e : RegistryFault) → IsNumbered (Registry e) number → ⊥) }
{
    match number {
        101 => Some(RegistryFault::NotJson),
        102 => Some(RegistryFault::BadShape),
        103 => Some(RegistryFault::BadNumber),
        104 => Some(RegistryFault::TooNested),
        105 => Some(RegistryFault::RepeatedName),
        106 => Some(RegistryFault::UnknownName),
        _ => None,
    }
}

fn growth_fault(number: u32) -> Option<GrowthFault>
    ensures some { IfSome result (λ e. IsNumbered (Growth e) number) }
    ensures none { IfNone result ((e : GrowthFault) → IsNumbered (Growth e) number → ⊥) }
{
    match number {
        201 => Some(GrowthFault::Missing),
        202 => Some(GrowthFault::Changed),
        203 => Some(GrowthFault::VariantMissing),
        204 => Some(GrowthFault::VariantChanged),
        _ => None,
    }
}

fn text_fault(number: u32) -> Option<JsonFault>
    ensures some { IfSome result (λ e. IsNumbered (Text e) number) }
    ensures none { IfNone result ((e : JsonFault) → IsNumbered (Text e) number → ⊥) }
{
    match number {
        301 => Some(JsonFault::NotJson),
        302 => Some(JsonFault::TooNested),
        303 => Some(JsonFault::Unsupported),
        304 => Some(JsonFault::BadShape),
        305 => Some(JsonFault::BadNumber),
        306 => Some(JsonFault::BadHex),
        307 => Some(JsonFault::UnknownField),
        308 => Some(JsonFault::MissingField),
        309 => Some(JsonFault::UnknownVariant),
        310 => Some(JsonFault::TooDeep),
        311 => Some(JsonFault::TooManyNodes),
        312 => Some(JsonFault::TooLong),
        313 => Some(JsonFault::RepeatedKey),
        _ => None,
    }
}

fn stop_reason(number: u32) -> Option<Reason>
    ensures some { IfSome result (λ e. IsNumbered (Stop e) number) }
    ensures none { IfNone result ((e : Reason) → IsNumbered (Stop e) number → ⊥) }
{
    match number {
        401 => Some(Reason::EndOfInput),
        402 => Some(Reason::BadBool),
        403 => Some(Reason::BadOption),
        404 => Some(Reason::LongForm),
        405 => Some(Reason::NumberTooLarge),
        406 => Some(Reason::LengthTooLarge),
        407 => Some(Reason::UnknownVariant),
        408 => Some(Reason::BadUtf8),
        409 => Some(Reason::KeyOrder),
        410 => Some(Reason::KeyRepeated),
        411 => Some(Reason::TooDeep),
        412 => Some(Reason::TrailingBytes),
        413 => Some(Reason::TooManyNodes),
        414 => Some(Reason::Unsupported),
        _ => None,
    }
}

fn move_refusal(number: u32) -> Option<MoveRefusalName>
    ensures some { IfSome result (λ e. IsNumbered (Move e) number) }
    ensures none { IfNone result ((e : MoveRefusalName) → IsNumbered (Move e) number → ⊥) }
{
    match number {
        801 => Some(MoveRefusalName::NotJson),
        802 => Some(MoveRefusalName::RepeatedMember),
        803 => Some(MoveRefusalName::NotModules),
        804 => Some(MoveRefusalName::ChainError),
        805 => Some(MoveRefusalName::MixedChains),
        806 => Some(MoveRefusalName::RepeatedName),
        807 => Some(MoveRefusalName::BadType),
        808 => Some(MoveRefusalName::MissingModule),
        809 => Some(MoveRefusalName::UnknownName),
        810 => Some(MoveRefusalName::WrongCount),
        811 => Some(MoveRefusalName::NoBytes),
        812 => Some(MoveRefusalName::UnknownVariants),
        813 => Some(MoveRefusalName::NotStandard),
        814 => Some(MoveRefusalName::TooLarge),
        _ => None,
    }
}
