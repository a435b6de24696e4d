//! Names with the module that declares them, such as `0x1::coin::Coin`.

use crate::address::address_of;
use crate::words::is_name;
use std::alloc::{AllocError, Global};

/// The name of a module, such as `0x1::coin`. `None`: this isn't an address, or not a name.
pub(crate) fn module_called(
    alloc: Global,
    address: &str,
    name: &str,
) -> Result<Option<String>, AllocError> {
    if !is_name(name) {
        return Ok(None);
    }
    let Some(mut full) = address_of(alloc, address)? else {
        return Ok(None);
    };
    full.push_str("::")?;
    full.push_str(name)?;
    Ok(Some(full))
}

/// The name of something in a module, such as `0x1::coin::Coin`. `None`: this isn't an address, or not a name.
pub(crate) fn declared_in(
    alloc: Global,
    address: &str,
    module: &str,
    name: &str,
) -> Result<Option<String>, AllocError> {
    if !is_name(name) {
        return Ok(None);
    }
    let Some(mut full) = module_called(alloc, address, module)? else {
        return Ok(None);
    };
    full.push_str("::")?;
    full.push_str(name)?;
    Ok(Some(full))
}

/// The name that a text such as `0x01::coin::Coin` spells.
pub(crate) fn declared_called(alloc: Global, word: &str) -> Result<Option<String>, AllocError> {
    let Some((address, rest)) = word.split_once("::") else {
        return Ok(None);
    };
    match rest.split_once("::") {
        Some((module, name)) => declared_in(alloc, address, module, name),
        None => Ok(None),
    }
}

/// The module that declares something, and the name that it has there.
pub fn split_name(full: &str) -> (&str, &str) {
    match full.rsplit_once("::") {
        Some((module, name)) => (module, name),
        None => (full, ""),
    }
}
