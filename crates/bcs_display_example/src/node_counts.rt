//! Counts the nodes of least examples, given those of the containers.

use crate::least_examples::{LeastExample, LeastExamples};
use crate::part::{Content, Part, payload_part};
use bcs_registry::{Container, Format, Named, VariantFormat};
use bcs_registry_model::{Kind, Scalar};
use std::collections::BTreeMap;

/// The number of nodes of the least example of `format`, which saturates at 18446744073709551615. Returns `None` if
/// `least_examples` yields none with at most `depth` containers open at once.
#[cycle(node_counts)]
pub(crate) fn format_nodes(
    format: &Format,
    least_examples: &LeastExamples<'_>,
    depth: u32,
) -> Option<u64> {
    match format.kind() {
        Kind::TypeName(name) => Some(least_examples.within(name, depth)?.nodes),
        Kind::Tuple(formats) => row_nodes(formats, least_examples, depth),
        Kind::TupleArray(_, 0) => Some(1),
        Kind::TupleArray(element, size) => {
            let each = format_nodes(element, least_examples, depth)?;
            Some(each.saturating_mul(size).saturating_add(1))
        }
        Kind::Scalar(Scalar::Unsupported(_)) => None,
        Kind::Scalar(Scalar::Unit | Scalar::Bool | Scalar::Whole(_) | Scalar::Str | Scalar::Bytes)
        | Kind::Opt(_)
        | Kind::Seq(_)
        | Kind::Map(_, _) => Some(1),
    }
}

#[cycle(node_counts)]
fn row_nodes(formats: &[Format], least_examples: &LeastExamples<'_>, depth: u32) -> Option<u64> {
    let mut total: u64 = 1;
    for format in formats {
        total = total.saturating_add(format_nodes(format, least_examples, depth)?);
    }
    Some(total)
}

fn fields_nodes(
    fields: &[Named<Format>],
    least_examples: &LeastExamples<'_>,
    depth: u32,
) -> Option<u64> {
    let mut total: u64 = 1;
    for field in fields {
        total = total.saturating_add(format_nodes(&field.value, least_examples, depth)?);
    }
    Some(total)
}

/// Like `format_nodes`, for a part.
pub(crate) fn part_nodes(
    part: Part<'_>,
    least_examples: &LeastExamples<'_>,
    depth: u32,
) -> Option<u64> {
    match part {
        Part::Nothing => Some(1),
        Part::Format(format) => format_nodes(format, least_examples, depth),
        Part::Row(formats) => row_nodes(formats, least_examples, depth),
        Part::Fields(fields) => fields_nodes(fields, least_examples, depth),
    }
}

/// The contents of an example of the container. An enum has its first variant that has an example.
pub(crate) fn content_of<'r>(
    container: &'r Container,
    least_examples: &LeastExamples<'r>,
    depth: u32,
) -> Option<Content<'r>> {
    let part = match container {
        Container::UnitStruct => Part::Nothing,
        Container::NewTypeStruct(format) => Part::Format(format),
        Container::TupleStruct(formats) => Part::Row(formats),
        Container::Struct(fields) => Part::Fields(fields),
        Container::Enum(variants) => return first_variant(variants, least_examples, depth),
    };
    Some(Content {
        variant: None,
        part,
    })
}

fn first_variant<'r>(
    variants: &'r BTreeMap<u32, Named<VariantFormat>>,
    least_examples: &LeastExamples<'r>,
    depth: u32,
) -> Option<Content<'r>> {
    for (number, variant) in variants {
        let part = payload_part(&variant.value);
        if part_nodes(part, least_examples, depth).is_some() {
            return Some(Content {
                variant: Some(*number),
                part,
            });
        }
    }
    None
}

/// The least example of a container with at most `depth` containers open inside it, if `least_examples` suffices to
/// find it.
pub(crate) fn least_of_container<'r>(
    container: &'r Container,
    least_examples: &LeastExamples<'r>,
    depth: u32,
) -> Option<LeastExample<'r>> {
    let content = content_of(container, least_examples, depth)?;
    let inside = part_nodes(content.part, least_examples, depth)?;
    Some(LeastExample {
        below: depth,
        nodes: inside.saturating_add(u64::from(content.nodes_around())),
        content,
    })
}
