//! Computes the sizes of a container from those of the containers that it mentions.

use crate::sizes::Sizes;
use bcs_num::put_uleb;
use bcs_registry_model::{Container, Format, Kind, Named, Scalar, VariantFormat};
use std::alloc::{AllocError, Global};
use std::collections::BTreeMap;

/// A step of a formula, which runs on a stack of sizes: it pops its operands and pushes its result.
#[derive(Clone, Copy)]
pub(crate) enum Step {
    Known(Sizes),
    /// Pushes the sizes of the container with this number.
    Container(usize),
    /// Pops the content of an option.
    Optional,
    /// Pops an element of an array with this many elements.
    Times(u64),
    /// Pops a value, then the value before it.
    FollowedBy,
    /// Pops two alternatives.
    Or,
}

/// The sizes of a container as a list of steps, so that repeated evaluation needs no lookup by name.
#[derive(Drop)]
pub(crate) struct Formula {
    pub(crate) steps: Vec<Step>,
}

impl Formula {
    /// The formula of a container. `numbers` maps the names of containers to their numbers.
    pub(crate) fn of(
        alloc: Global,
        container: &Container,
        numbers: &BTreeMap<&str, usize>,
    ) -> Result<Formula, AllocError> {
        let mut formula = Formula {
            steps: Vec::new(alloc),
        };
        match container {
            Container::UnitStruct => formula.push(Step::Known(Sizes::exactly(0)))?,
            Container::NewTypeStruct(format) => push_format(format, numbers, &mut formula)?,
            Container::TupleStruct(formats) => push_row(formats, numbers, &mut formula)?,
            Container::Struct(fields) => push_fields(fields, numbers, &mut formula)?,
            Container::Enum(variants) => push_variants(variants, numbers, &mut formula)?,
        }
        Ok(formula)
    }

    /// Evaluates the formula. `known` has the sizes of the containers by number. `stack` is cleared first.
    pub(crate) fn sizes(
        &self,
        known: &[Sizes],
        stack: &mut Vec<Sizes>,
    ) -> Result<Sizes, AllocError> {
        stack.clear();
        for step in &self.steps {
            let sizes = match step {
                Step::Known(sizes) => *sizes,
                Step::Container(number) => sizes_at(known, *number),
                Step::Optional => pop(stack).optional(),
                Step::Times(count) => pop(stack).times(*count),
                Step::FollowedBy => {
                    let next = pop(stack);
                    pop(stack).followed_by(next)
                }
                Step::Or => {
                    let other = pop(stack);
                    pop(stack).or(other)
                }
            };
            stack.push(sizes)?;
        }
        Ok(pop(stack))
    }

    fn push(&mut self, step: Step) -> Result<(), AllocError> {
        Ok(self.steps.push(step)?)
    }
}

/// The sizes of the container with this number.
pub(crate) fn sizes_at(known: &[Sizes], number: usize) -> Sizes {
    match known.get(number) {
        Some(sizes) => *sizes,
        None => Sizes::NoValue,
    }
}

/// Pops the top of the stack. A formula never pops from an empty stack; no clause says so.
fn pop(stack: &mut Vec<Sizes>) -> Sizes {
    stack.pop().unwrap_or(Sizes::NoValue)
}

fn push_variants(
    variants: &BTreeMap<u32, Named<VariantFormat>>,
    numbers: &BTreeMap<&str, usize>,
    formula: &mut Formula,
) -> Result<(), AllocError> {
    formula.push(Step::Known(Sizes::NoValue))?;
    for (number, variant) in variants {
        formula.push(Step::Known(Sizes::exactly(number_bytes(*number))))?;
        push_payload(&variant.value, numbers, formula)?;
        formula.push(Step::FollowedBy)?;
        formula.push(Step::Or)?;
    }
    Ok(())
}

/// The number of bytes that encode a variant number.
fn number_bytes(number: u32) -> u64 {
    put_uleb(number, &mut [0; 5]) as u64
}

fn push_payload(
    payload: &VariantFormat,
    numbers: &BTreeMap<&str, usize>,
    formula: &mut Formula,
) -> Result<(), AllocError> {
    match payload {
        VariantFormat::Unit => formula.push(Step::Known(Sizes::exactly(0))),
        VariantFormat::NewType(format) => push_format(format, numbers, formula),
        VariantFormat::Tuple(formats) => push_row(formats, numbers, formula),
        VariantFormat::Struct(fields) => push_fields(fields, numbers, formula),
    }
}

fn push_fields(
    fields: &[Named<Format>],
    numbers: &BTreeMap<&str, usize>,
    formula: &mut Formula,
) -> Result<(), AllocError> {
    formula.push(Step::Known(Sizes::exactly(0)))?;
    for field in fields {
        push_format(&field.value, numbers, formula)?;
        formula.push(Step::FollowedBy)?;
    }
    Ok(())
}

#[cycle(sizing)]
fn push_row(
    formats: &[Format],
    numbers: &BTreeMap<&str, usize>,
    formula: &mut Formula,
) -> Result<(), AllocError> {
    formula.push(Step::Known(Sizes::exactly(0)))?;
    for format in formats {
        push_format(format, numbers, formula)?;
        formula.push(Step::FollowedBy)?;
    }
    Ok(())
}

#[cycle(sizing)]
fn push_format(
    format: &Format,
    numbers: &BTreeMap<&str, usize>,
    formula: &mut Formula,
) -> Result<(), AllocError> {
    match format.kind() {
        Kind::TypeName(name) => formula.push(container_step(name, numbers)),
        Kind::Opt(inner) => {
            push_format(inner, numbers, formula)?;
            formula.push(Step::Optional)
        }
        Kind::Tuple(formats) => push_row(formats, numbers, formula),
        Kind::TupleArray(element, size) => {
            push_format(element, numbers, formula)?;
            formula.push(Step::Times(size))
        }
        Kind::Scalar(scalar) => formula.push(Step::Known(scalar_sizes(scalar))),
        Kind::Seq(_) | Kind::Map(_, _) => formula.push(Step::Known(Sizes::WITH_LENGTH)),
    }
}

/// A name without a container has no value.
fn container_step(name: &str, numbers: &BTreeMap<&str, usize>) -> Step {
    match numbers.get(name) {
        Some(number) => Step::Container(*number),
        None => Step::Known(Sizes::NoValue),
    }
}

fn scalar_sizes(scalar: Scalar) -> Sizes {
    match scalar {
        Scalar::Unit => Sizes::exactly(0),
        Scalar::Bool => Sizes::exactly(1),
        Scalar::Whole(number) => Sizes::exactly(number.byte_len() as u64),
        Scalar::Unsupported(_) => Sizes::NoValue,
        Scalar::Str | Scalar::Bytes => Sizes::WITH_LENGTH,
    }
}
