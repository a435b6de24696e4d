//! Follows a JSON Pointer (RFC 6901) into the JSON text that `decode` prints: `/payload/EntryFunction/args/0`.

use crate::entries::Entries;
use crate::following::Follower;
use crate::led::Led;
use crate::pointers::is_pointer;
use bcs_decode_parts::PathStep;
use bcs_decode_parts::inside::Inside;
use bcs_decode_parts::variants::after_number;
use bcs_num::{Width, parse_unsigned};
use bcs_registry::{Format, Named, Registry, VariantFormat};
use bcs_value::Limits;
use std::alloc::{AllocError, Global};
use std::collections::BTreeMap;

/// A position in the JSON text of a value.
#[derive(Drop)]
struct Position<'r, 'a> {
    follower: Follower<'r, 'a>,
    /// In an entry of a map, `[key, value]`, the bytes of the key.
    entry: Option<&'a [u8]>,
}

/// Returns where the pointer leads, if the bytes begin with a value of the format. The empty pointer leads to the whole
/// value; one to an entry of a map or to its key, or a text that isn't a pointer, leads nowhere.
pub fn path_of_pointer<'r, 'a>(
    alloc: Global,
    registry: &'r Registry,
    format: &'r Format,
    limits: &Limits,
    bytes: &'a [u8],
    pointer: &str,
) -> Result<Led<'r, 'a>, AllocError> {
    let mut position = Position {
        follower: Follower::start(alloc, registry, format, limits, bytes),
        entry: None,
    };
    if !is_pointer(pointer) {
        return position.stopped(alloc, 0, pointer);
    }
    let mut last = (0, "");
    // A pointer begins with `/`, so nothing comes before the first one.
    for (index, text) in pointer.split('/').skip(1).enumerate() {
        if !position.take(alloc, text)? {
            return position.stopped(alloc, index, text);
        }
        last = (index, text);
    }
    if position.entry.is_some() {
        let (index, text) = last;
        return position.stopped(alloc, index, text);
    }
    Ok(position.follower.arrived())
}

impl<'r, 'a> Position<'r, 'a> {
    // Takes a step, and returns whether it leads anywhere.
    fn take(&mut self, alloc: Global, text: &str) -> Result<bool, AllocError> {
        if let Some(key) = self.entry {
            if text != "1" {
                return Ok(false);
            }
            self.entry = None;
            return self
                .follower
                .take(PathStep::Key(Vec::from_slice(alloc, key)?));
        }
        self.follower.enter_containers()?;
        if let Inside::Map(key, content) = self.follower.inside() {
            self.entry = self.entry_at(key, content, text);
            return Ok(self.entry.is_some());
        }
        match self.step_to(alloc, text)? {
            Some(step) => self.follower.take(step),
            None => Ok(false),
        }
    }

    // The key of the entry with this number.
    fn entry_at(&self, key: &'r Format, content: &'r Format, text: &str) -> Option<&'a [u8]> {
        let entries = Entries {
            registry: self.follower.registry(),
            key,
            content,
            ahead: self.follower.at().ahead,
        };
        entries.key_at(index_of(text)?)
    }

    fn step_to(&self, alloc: Global, text: &str) -> Result<Option<PathStep>, AllocError> {
        match self.follower.inside() {
            Inside::Fields(fields) => field_step(alloc, fields, text),
            Inside::Variants(variants) => {
                variant_step(alloc, variants, self.follower.at().ahead.bytes, text)
            }
            Inside::Option(_) if text == "some" => Ok(Some(PathStep::Inner)),
            // These are strings.
            Inside::List(Format::U8) | Inside::Array(Format::U8, _) => Ok(None),
            Inside::List(_) | Inside::Array(_, _) | Inside::Tuple(_) => Ok(item_step(text)),
            Inside::Option(_) | Inside::Map(_, _) | Inside::Container(_) | Inside::Nothing => Ok(
                None,
            ),
        }
    }

    // Nowhere, since this step leads nowhere from here.
    fn stopped(self, alloc: Global, index: usize, text: &str) -> Result<Led<'r, 'a>, AllocError> {
        let Position { follower, entry } = self;
        follower.stopped(index, String::from_str(alloc, text)?, entry.is_some())
    }
}

fn field_step(
    alloc: Global,
    fields: &[Named<Format>],
    text: &str,
) -> Result<Option<PathStep>, AllocError> {
    let name = without_marks(alloc, text)?;
    for (index, field) in fields.iter().enumerate() {
        if field.name.as_str() == name.as_str() {
            return Ok(Some(PathStep::Item(index as u64)));
        }
    }
    Ok(None)
}

// Only the variant that is there can be entered. One without a payload is a string.
fn variant_step(
    alloc: Global,
    variants: &BTreeMap<u32, Named<VariantFormat>>,
    bytes: &[u8],
    text: &str,
) -> Result<Option<PathStep>, AllocError> {
    let name = without_marks(alloc, text)?;
    let Some((number, _)) = after_number(bytes) else {
        return Ok(None);
    };
    match variants.get(&number) {
        Some(variant) if has_payload(&variant.value) && variant.name.as_str() == name.as_str() => {
            Ok(Some(PathStep::Inner))
        }
        _ => Ok(None),
    }
}

fn has_payload(payload: &VariantFormat) -> bool {
    match payload {
        VariantFormat::Unit => false,
        VariantFormat::NewType(_) | VariantFormat::Tuple(_) | VariantFormat::Struct(_) => true,
    }
}

fn item_step(text: &str) -> Option<PathStep> {
    Some(PathStep::Item(index_of(text)?))
}

fn index_of(text: &str) -> Option<u64> {
    Some(parse_unsigned(Width::W8, text)? as u64)
}

// The text with `/` for `~1`, and `~` for `~0`.
fn without_marks(alloc: Global, text: &str) -> Result<String, AllocError> {
    let mut name = String::new(alloc);
    for (number, part) in text.split('~').enumerate() {
        let (sign, rest) = match (number, part.strip_prefix('0'), part.strip_prefix('1')) {
            (0, _, _) => ("", part),
            (_, Some(rest), _) => ("~", rest),
            (_, _, Some(rest)) => ("/", rest),
            (_, None, None) => ("~", part),
        };
        name.push_str(sign)?;
        name.push_str(rest)?;
    }
    Ok(name)
}
