//! Names of descriptors: with `--output`, the answer goes to what is open there, and no file is opened.

// A host's numbers have 32 bits.
const MOST_DIGITS: usize = 9;

/// The number of the descriptor that this name stands for, in decimal.
pub(crate) fn descriptor_of(name: &str) -> Option<&str> {
    match name {
        "-" | "/dev/stdout" => Some("1"),
        "/dev/stderr" => Some("2"),
        _ => number_after("/dev/fd/", name).or(number_after("/proc/self/fd/", name)),
    }
}

fn number_after<'a>(folder: &str, name: &'a str) -> Option<&'a str> {
    let number = name.strip_prefix(folder)?;
    let is_number = number.bytes().all(|byte| byte.is_ascii_digit());
    (is_number && (1..=MOST_DIGITS).contains(&number.len())).then_some(number)
}
