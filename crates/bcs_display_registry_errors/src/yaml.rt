//! Registries in YAML.

/// The number of comment lines that are skipped at most.
const COMMENTS: usize = 100;

/// What to do with YAML.
pub(crate) const YAML: &str = "this looks like YAML; convert it to JSON with bcs-registry FILE";

/// Whether the text begins with three dashes, or with a name and a colon, after any comment lines.
pub(crate) fn begins_as_yaml(text: &[u8]) -> bool {
    let text = without_comments(text);
    let name = text.iter().position(|byte| !is_in_name(*byte)).unwrap_or(0);
    text.starts_with(b"---") || (name > 0 && text.get(name) == Some(&b':'))
}

fn without_comments(text: &[u8]) -> &[u8] {
    let mut text = text;
    for _ in 0..COMMENTS {
        if !text.starts_with(b"#") {
            break;
        }
        let end = text
            .iter()
            .position(|byte| *byte == b'\n')
            .unwrap_or(text.len());
        text = text.get(end.saturating_add(1)..).unwrap_or(b"");
    }
    text
}

fn is_in_name(byte: u8) -> bool {
    byte.is_ascii_alphanumeric() || byte == b'_'
}
