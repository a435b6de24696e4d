//! Addresses.

use std::alloc::{AllocError, Global};

/// The number of digits of a whole address.
const DIGITS: usize = 64;

/// The address as both chains print it: 0x0 to 0xf, or all 64 digits. `None`: this isn't an address, which is 0x and 1 to
/// 64 hexadecimal digits.
pub(crate) fn address_of(alloc: Global, text: &str) -> Result<Option<String>, AllocError> {
    let Some(digits) = text.strip_prefix("0x") else {
        return Ok(None);
    };
    if !is_address(digits) {
        return Ok(None);
    }
    let digits = digits.trim_start_matches('0');
    let least = if digits.len() <= 1 { 1 } else { DIGITS };
    let mut address = String::from_str(alloc, "0x")?;
    for _ in digits.len()..least {
        address.push('0')?;
    }
    for digit in digits.chars() {
        address.push(digit.to_ascii_lowercase())?;
    }
    Ok(Some(address))
}

fn is_address(digits: &str) -> bool {
    !digits.is_empty()
        && digits.len() <= DIGITS
        && digits
            .as_bytes()
            .iter()
            .all(|byte| byte.is_ascii_hexdigit())
}
