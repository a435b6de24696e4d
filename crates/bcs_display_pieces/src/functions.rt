//! The containers that `from-move` makes for a function.

use bcs_num::{Width, parse_unsigned};
use bcs_registry::{Container, Format, Named, Registry};
use std::alloc::{AllocError, Global};

/// A function whose arguments have containers.
#[derive(Debug, Drop)]
pub(crate) struct Function {
    pub name: String,
    /// The number of its arguments.
    pub count: u64,
}

impl Function {
    /// The function with this name: the registry has a struct of all its arguments, `F`, and a container for each,
    /// `F::arg0`. `None`: there is no such struct, or a container is missing.
    pub(crate) fn named(
        alloc: Global,
        registry: &Registry,
        name: &str,
    ) -> Result<Option<Function>, AllocError> {
        let Some(Container::Struct(fields)) = registry.container(name) else {
            return Ok(None);
        };
        let mut count: u64 = 0;
        for field in fields {
            let Some(number) = argument_number(field) else {
                return Ok(None);
            };
            let argument = format!(in alloc; "{name}::arg{number}")?;
            if registry.container(argument.as_str()).is_none() {
                return Ok(None);
            }
            count = count.max(number.saturating_add(1));
        }
        let name = String::from_str(alloc, name)?;
        Ok(Some(Function { name, count }))
    }

    pub(crate) fn copy(&self, alloc: Global) -> Result<Function, AllocError> {
        Ok(Function {
            name: String::from_str(alloc, self.name.as_str())?,
            count: self.count,
        })
    }
}

/// Whether the container has the arguments of a function.
pub(crate) fn is_function(container: &Container) -> bool {
    match container {
        Container::Struct(fields) => fields.iter().all(|field| argument_number(field).is_some()),
        _ => false,
    }
}

// The number in the name of such a field, as `arg3`.
fn argument_number(field: &Named<Format>) -> Option<u64> {
    let digits = field.name.as_str().strip_prefix("arg")?;
    let number = parse_unsigned(Width::W4, digits)?;
    u64::try_from(number).ok()
}
