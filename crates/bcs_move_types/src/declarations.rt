//! What a module declares: a struct, an enum or a function.

use crate::chains::Chain;
use crate::members::{array_in, unexpected};
use crate::move_type::MoveType;
use crate::place::{Place, member};
use crate::refusal::MoveFault;
use crate::sui_types::type_of_json;
use crate::type_text::type_of_text;
use serde_json::Value;
use std::alloc::Global;

/// The JSON of a struct, an enum or a function. It is read only when it is needed.
#[derive(Drop)]
pub struct Declaration<'m> {
    pub chain: Chain,
    /// Whether it is among the module's `enums`.
    pub is_enum: bool,
    pub value: &'m Value,
    /// The JSON Pointer to it.
    pub pointer: String,
}

impl Declaration<'_> {
    /// The number of its type parameters.
    pub fn type_parameters(&self, alloc: Global) -> Result<usize, MoveFault> {
        let place = Place::At(self.pointer.as_str());
        let name = self.chain.type_parameters();
        Ok(array_in(alloc, self.value, name, &place)?.len())
    }

    /// Whether it is an enum in the form of Aptos, which isn't read.
    pub fn is_enum_of_aptos(&self) -> bool {
        let has_variants = match self.value.get("variants") {
            Some(Value::Array(variants)) => !variants.is_empty(),
            _ => false,
        };
        let says_so = self.value.get("is_enum") == Some(&Value::Bool(true));
        self.chain == Chain::Aptos && (self.is_enum || has_variants || says_so)
    }
}

/// The type that the member `type` has.
pub fn type_in(
    alloc: Global,
    value: &Value,
    chain: Chain,
    place: &Place<'_>,
) -> Result<MoveType, MoveFault> {
    let place = member(place, "type");
    match value.get("type") {
        Some(kind) => type_at(alloc, kind, chain, &place),
        None => Err(unexpected(alloc, "a type", None, &place)),
    }
}

/// Reads a type: a string on Aptos, an object or a string on Sui.
pub fn type_at(
    alloc: Global,
    value: &Value,
    chain: Chain,
    place: &Place<'_>,
) -> Result<MoveType, MoveFault> {
    match (chain, value) {
        (Chain::Aptos, Value::String(text)) => type_of_text(alloc, text.as_str(), place),
        (Chain::Aptos, _) => Err(unexpected(alloc, "a type", Some(value), place)),
        (Chain::Sui, _) => type_of_json(alloc, value, place),
    }
}
