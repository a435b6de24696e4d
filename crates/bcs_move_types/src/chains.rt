//! The two forms of modules.

use serde_json::Value;

/// The chain whose API returned a module.
#[derive(Clone, Copy, Debug, PartialEq, Eq)]
pub enum Chain {
    Aptos,
    Sui,
}

impl Chain {
    /// The chain of a module, by its structs: an array on Aptos, and an object on Sui.
    pub(crate) fn of(module: &Value) -> Option<Chain> {
        match module.get("structs") {
            Some(Value::Array(_)) => Some(Chain::Aptos),
            Some(Value::Object(_)) => Some(Chain::Sui),
            _ => None,
        }
    }

    /// The member of a module that has its functions.
    pub(crate) fn functions(self) -> &'static str {
        match self {
            Chain::Aptos => "exposed_functions",
            Chain::Sui => "exposedFunctions",
        }
    }

    /// The member of a declaration that has its type parameters.
    pub(crate) fn type_parameters(self) -> &'static str {
        match self {
            Chain::Aptos => "generic_type_params",
            Chain::Sui => "typeParameters",
        }
    }

    /// The member of a function that has its parameters.
    pub fn parameters(self) -> &'static str {
        match self {
            Chain::Aptos => "params",
            Chain::Sui => "parameters",
        }
    }
}
