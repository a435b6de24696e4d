//! A format of a registry, and limits.
ghost use Rattle.bcs_registry_model.specs.View.{shape_of};
ghost use Rattle.bcs_registry_model.specs.WellFormed.{Admits};

use bcs_registry::{Format, Registry};
use bcs_value::Limits;
use std::alloc::Global;
use test_rows::row_fault::{RowFault, agree};
use test_rows::words::limits_of;

#[derive(Drop)]
pub(crate) struct Question {
    pub registry: Registry,
    pub format: Format,
    pub limits: Limits,
    ghost admitted: { Admits registry (shape_of format) },
}

impl Question {
    /// Parses the words. `limits` is empty, or the depth and the number of nodes.
    pub(crate) fn read(
        alloc: Global,
        registry: &[u8],
        format: &str,
        limits: &[&str],
    ) -> Result<Question, RowFault> {
        let registry = Registry::read(alloc, registry)?;
        let format = registry.read_format(alloc, format.as_bytes())?;
        agree(registry.admits(&format), "admits")?;
        match limits_of(limits) {
            Some(limits) => Ok(Question {
                registry,
                format,
                limits,
            }),
            None => Err(RowFault::NotUnderstood),
        }
    }
}
