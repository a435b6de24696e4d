//! Collects the definitions that a schema needs: the containers that a format mentions, directly or through other
//! containers, and the integer formats among them. Each is defined once.

use crate::containers::{container_schema, is_newtypes_alone};
use crate::pieces::put_word;
use crate::whole_numbers::{WholeNumbers, whole_number_schema};
use bcs_registry::{Container, Format, Named, Registry, VariantFormat};
use bcs_registry_model::{Kind, Scalar};
use serde_json::Value;
use std::alloc::{AllocError, Global};
use std::collections::BTreeMap;

/// What a name defines.
#[derive(Clone, Copy)]
pub(crate) enum Definition<'r> {
    Container(&'r Container),
    WholeNumbers(WholeNumbers),
}

/// The definitions by name.
pub(crate) type Definitions<'r> = BTreeMap<&'r str, Definition<'r>>;

/// Returns the definitions that the schema of `format` refers to, directly or through other definitions.
pub(crate) fn definitions_of<'r>(
    alloc: Global,
    registry: &'r Registry,
    format: &'r Format,
) -> Result<Definitions<'r>, AllocError> {
    let mut search = Search {
        registry,
        found: BTreeMap::new(alloc),
        open: Vec::new(alloc),
    };
    search_format(format, &mut search)?;
    // Each container is opened at most once, so this many rounds suffice.
    for _opened in 0..registry.len() {
        let Some(container) = search.open.pop() else {
            break;
        };
        search_container(container, &mut search)?;
    }
    let Search { found, .. } = search;
    Ok(found)
}

/// The schema of a definition, with its name as `title`.
pub(crate) fn definition_schema(
    alloc: Global,
    registry: &Registry,
    name: &str,
    definition: &Definition<'_>,
) -> Result<Value, AllocError> {
    match definition {
        Definition::Container(container) => {
            let mut schema = container_schema(alloc, registry, container)?;
            put_word(alloc, "title", name, &mut schema)?;
            Ok(schema)
        }
        Definition::WholeNumbers(numbers) => whole_number_schema(alloc, *numbers),
    }
}

/// The definitions found so far, and the containers whose formats must still be searched.
#[derive(Drop)]
struct Search<'r> {
    registry: &'r Registry,
    found: Definitions<'r>,
    open: Vec<&'r Container>,
}

impl<'r> Search<'r> {
    /// Adds a container, and queues it for the search if it is new.
    fn find_container(&mut self, name: &'r str) -> Result<(), AllocError> {
        match self.registry.container(name) {
            Some(container) if !self.found.contains_key(name) => {
                self.found.insert(name, Definition::Container(container))?;
                Ok(self.open.push(container)?)
            }
            _ => Ok(()),
        }
    }

    /// Adds an integer format, unless a container has the same name.
    fn find_whole_numbers(&mut self, numbers: WholeNumbers) -> Result<(), AllocError> {
        if self.registry.container(numbers.word).is_none() {
            self.found
                .insert(numbers.word, Definition::WholeNumbers(numbers))?;
        }
        Ok(())
    }
}

fn search_container<'r>(
    container: &'r Container,
    search: &mut Search<'r>,
) -> Result<(), AllocError> {
    match container {
        Container::UnitStruct => Ok(()),
        Container::NewTypeStruct(format) if is_newtypes_alone(search.registry, format) => Ok(()),
        Container::NewTypeStruct(format) => search_format(format, search),
        Container::TupleStruct(formats) => search_formats(formats, search),
        Container::Struct(fields) => search_fields(fields, search),
        Container::Enum(variants) => search_variants(variants, search),
    }
}

fn search_fields<'r>(
    fields: &'r [Named<Format>],
    search: &mut Search<'r>,
) -> Result<(), AllocError> {
    for field in fields {
        search_format(&field.value, search)?;
    }
    Ok(())
}

fn search_variants<'r>(
    variants: &'r BTreeMap<u32, Named<VariantFormat>>,
    search: &mut Search<'r>,
) -> Result<(), AllocError> {
    for (_, variant) in variants {
        match &variant.value {
            VariantFormat::Unit => {}
            VariantFormat::NewType(format) => search_format(format, search)?,
            VariantFormat::Tuple(formats) => search_formats(formats, search)?,
            VariantFormat::Struct(fields) => search_fields(fields, search)?,
        }
    }
    Ok(())
}

#[cycle(search)]
fn search_formats<'r>(formats: &'r [Format], search: &mut Search<'r>) -> Result<(), AllocError> {
    for format in formats {
        search_format(format, search)?;
    }
    Ok(())
}

#[cycle(search)]
fn search_format<'r>(format: &'r Format, search: &mut Search<'r>) -> Result<(), AllocError> {
    match format {
        Format::TypeName(name) => search.find_container(name.as_str()),
        Format::Opt(inner) | Format::Seq(inner) | Format::TupleArray(inner, _) => {
            search_format(inner, search)
        }
        Format::Map(key, value) => {
            search_format(key, search)?;
            search_format(value, search)
        }
        Format::Tuple(formats) => search_formats(formats, search),
        _ => search_scalar(format, search),
    }
}

fn search_scalar(format: &Format, search: &mut Search<'_>) -> Result<(), AllocError> {
    match format.kind() {
        Kind::Scalar(Scalar::Whole(number)) => search.find_whole_numbers(WholeNumbers::of(number)),
        _ => Ok(()),
    }
}
