//! Rows on the numbers of faults.

use bcs_decode::Reason;
use bcs_encode::EncodeFault;
use bcs_json::{JsonFault, PrintFault};
use bcs_registry::{GrowthFault, RegistryFault};
use std::alloc::{AllocError, Global};
use std::fmt::Debug;
use test_rows::row_fault::RowFault;

// The number and name of each variant of an enum.
pub(crate) fn answer(alloc: Global, words: &[&str]) -> Result<String, RowFault> {
    let told = match words {
        ["RegistryFault"] => registry_faults(alloc),
        ["GrowthFault"] => growth_faults(alloc),
        ["EncodeFault"] => encode_faults(alloc),
        ["Reason"] => reasons(alloc),
        ["JsonFault"] => json_faults(alloc),
        ["PrintFault"] => print_faults(alloc),
        _ => return Err(RowFault::NotUnderstood),
    };
    Ok(told?)
}

fn registry_faults(alloc: Global) -> Result<String, AllocError> {
    let mut told = String::new(alloc);
    for fault in [
        RegistryFault::NotJson,
        RegistryFault::BadShape,
        RegistryFault::BadNumber,
        RegistryFault::TooNested,
        RegistryFault::RepeatedName,
        RegistryFault::UnknownName,
        RegistryFault::OutOfMemory,
    ] {
        push(alloc, &mut told, fault as u8, &fault)?;
    }
    Ok(told)
}

fn growth_faults(alloc: Global) -> Result<String, AllocError> {
    let mut told = String::new(alloc);
    for fault in [
        GrowthFault::Missing,
        GrowthFault::Changed,
        GrowthFault::VariantMissing,
        GrowthFault::VariantChanged,
    ] {
        push(alloc, &mut told, fault as u8, &fault)?;
    }
    Ok(told)
}

fn encode_faults(alloc: Global) -> Result<String, AllocError> {
    let mut told = String::new(alloc);
    for fault in [
        EncodeFault::NotOfFormat,
        EncodeFault::TooDeep,
        EncodeFault::TooLong,
        EncodeFault::RepeatedKey,
        EncodeFault::Unsupported,
        EncodeFault::OutOfMemory,
        EncodeFault::TooManyNodes,
    ] {
        push(alloc, &mut told, fault as u8, &fault)?;
    }
    Ok(told)
}

fn reasons(alloc: Global) -> Result<String, AllocError> {
    let mut told = String::new(alloc);
    for reason in [
        Reason::EndOfInput,
        Reason::BadBool,
        Reason::BadOption,
        Reason::LongForm,
        Reason::NumberTooLarge,
        Reason::LengthTooLarge,
        Reason::UnknownVariant,
        Reason::BadUtf8,
        Reason::KeyOrder,
        Reason::KeyRepeated,
        Reason::TooDeep,
        Reason::TrailingBytes,
        Reason::TooManyNodes,
        Reason::Unsupported,
    ] {
        push(alloc, &mut told, reason as u8, &reason)?;
    }
    Ok(told)
}

fn json_faults(alloc: Global) -> Result<String, AllocError> {
    let mut told = String::new(alloc);
    for fault in [
        JsonFault::NotJson,
        JsonFault::TooNested,
        JsonFault::Unsupported,
        JsonFault::BadShape,
        JsonFault::BadNumber,
        JsonFault::BadHex,
        JsonFault::UnknownField,
        JsonFault::MissingField,
        JsonFault::UnknownVariant,
        JsonFault::TooDeep,
        JsonFault::TooLong,
        JsonFault::RepeatedKey,
        JsonFault::OutOfMemory,
        JsonFault::TooManyNodes,
    ] {
        push(alloc, &mut told, fault as u8, &fault)?;
    }
    Ok(told)
}

fn print_faults(alloc: Global) -> Result<String, AllocError> {
    let mut told = String::new(alloc);
    for fault in [
        PrintFault::NotOfFormat,
        PrintFault::TooDeep,
        PrintFault::TooLong,
        PrintFault::RepeatedKey,
        PrintFault::Unsupported,
        PrintFault::OutOfMemory,
        PrintFault::TooNested,
        PrintFault::TooManyNodes,
    ] {
        push(alloc, &mut told, fault as u8, &fault)?;
    }
    Ok(told)
}

fn push<F: Debug>(
    alloc: Global,
    told: &mut String,
    number: u8,
    fault: &F,
) -> Result<(), AllocError> {
    if !told.is_empty() {
        told.push_str(", ")?;
    }
    told.push_str(format!(in alloc; "{number} {fault:?}")?.as_str())
}
