//! Rows on registries and formats.

use crate::setting::Setting;
use bcs_registry::Registry;
use bcs_registry_json::format_text::format_from;
use bcs_registry_json::json_text::registry_json;
use std::alloc::Global;
use test_rows::row_fault::RowFault;
use test_rows::words::bytes;

pub(crate) fn answer(
    alloc: Global,
    setting: &mut Setting,
    question: &str,
    words: &[&str],
) -> Result<String, RowFault> {
    match (question, words) {
        ("registry", [text]) => registry(alloc, setting, text),
        ("format", [text]) => format_read(alloc, setting, text),
        ("print", [text]) => printed(alloc, text),
        ("container", [name]) => held(alloc, setting, name),
        ("admits", [text]) => admitted(alloc, setting, text),
        ("grows", [older, newer]) => grown(alloc, older, newer),
        _ => Err(RowFault::NotUnderstood),
    }
}

// Sets the registry for the following rows. Returns its number of containers.
fn registry(alloc: Global, setting: &mut Setting, text: &str) -> Result<String, RowFault> {
    setting.registry = bytes(alloc, text)?;
    match Registry::read(alloc, &setting.registry) {
        Ok(registry) => Ok(format!(in alloc; "ok {}", registry.len())?),
        Err(fault) => Ok(format!(in alloc; "{fault}")?),
    }
}

// The `Debug` output of a format.
fn format_read(alloc: Global, setting: &Setting, text: &str) -> Result<String, RowFault> {
    let registry = Registry::read(alloc, &setting.registry)?;
    match registry.read_format(alloc, &bytes(alloc, text)?) {
        Ok(format) => Ok(format!(in alloc; "{format:?}")?),
        Err(fault) => Ok(format!(in alloc; "{fault}")?),
    }
}

// The `Debug` output of a container.
fn held(alloc: Global, setting: &Setting, name: &str) -> Result<String, RowFault> {
    let registry = Registry::read(alloc, &setting.registry)?;
    match registry.container(name) {
        Some(container) => Ok(format!(in alloc; "{container:?}")?),
        None => Ok(String::from_str(alloc, "none")?),
    }
}

// Whether the registry admits the format, which is parsed without a registry.
fn admitted(alloc: Global, setting: &Setting, text: &str) -> Result<String, RowFault> {
    let registry = Registry::read(alloc, &setting.registry)?;
    let format = format_from(alloc, &registry_json(alloc, &bytes(alloc, text)?)?)?;
    Ok(format!(in alloc; "{}", registry.admits(&format))?)
}

// The printed form of a registry.
fn printed(alloc: Global, text: &str) -> Result<String, RowFault> {
    let registry = Registry::read(alloc, &bytes(alloc, text)?)?;
    Ok(registry.print(alloc)?)
}

// Whether the older registry grows into the newer.
fn grown(alloc: Global, older: &str, newer: &str) -> Result<String, RowFault> {
    let older = Registry::read(alloc, older.as_bytes())?;
    let newer = Registry::read(alloc, newer.as_bytes())?;
    match older.grows(&newer) {
        Ok(()) => Ok(String::from_str(alloc, "grows")?),
        Err(fault) => Ok(format!(in alloc; "{fault}")?),
    }
}
