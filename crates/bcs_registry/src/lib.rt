//! Registries of formats (serde-reflection). BCS isn't self-describing, so decoding needs a registry.
#![tactic(auto)]

mod admitting;
mod checking;
mod growing;
pub mod laws;
mod reading;
mod registry;

pub use bcs_registry_model::{Container, Format, GrowthFault, Named, RegistryFault, VariantFormat};
pub use registry::Registry;
