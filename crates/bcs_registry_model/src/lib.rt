//! Formats and containers (serde-reflection), variant numbers, which registries are well-formed, and growth.
#![tactic(auto)]

mod container;
pub mod containers;
pub mod distinct;
pub mod equality;
mod fault;
mod format;
pub mod growth;
mod growth_fault;
mod integer_kind;
mod kind;
pub mod known;
mod layout;
pub mod levels;
pub mod mentions;
mod named;
pub mod rule;
mod scalar;
mod variant_format;
pub mod variant_numbers;
pub mod words;

pub use container::Container;
pub use fault::RegistryFault;
pub use format::Format;
pub use growth_fault::GrowthFault;
pub use integer_kind::IntegerKind;
pub use kind::Kind;
pub use layout::{Content, Layout, Row};
pub use named::Named;
pub use scalar::{Scalar, Unsupported};
pub use variant_format::VariantFormat;
pub use variant_numbers::VariantNumbers;
