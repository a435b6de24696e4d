//! What is wrong with a text that isn't a type.

use crate::leaf::LEAVES;
use crate::place::Place;
use crate::qualified::declared_called;
use crate::refusal::{MoveFault, MoveRefusalName, refusal_with};
use crate::type_text::{simple_type, word_len};
use bcs_display_mistakes::NearestName;
use bcs_display_refusal::Name;
use std::alloc::{AllocError, Global};

/// What people write in place of a type, and the type.
const OTHERS: &[(&str, &str)] = &[
    ("string", "0x1::string::String"),
    ("str", "0x1::string::String"),
    ("option", "0x1::option::Option<T>"),
    ("boolean", "bool"),
    ("vec", "vector<T>"),
    ("bytes", "vector<u8>"),
];

/// Refuses a text that isn't a type.
pub(crate) fn no_type(alloc: Global, text: &str, place: &Place<'_>) -> MoveFault {
    refusal_with(
        alloc,
        MoveRefusalName::BadType,
        place,
        message_of(alloc, text),
    )
}

fn message_of(alloc: Global, text: &str) -> Result<String, AllocError> {
    let shown = Name::of(text);
    let Some(word) = first_wrong_word(alloc, text)? else {
        return format!(in alloc;
            "\"{shown}\" isn't a type: write one like 0x1::coin::Coin<u64>, vector<u8> or u64"
        );
    };
    let name = Name::of(word);
    match meant_by(alloc, word)? {
        Some(meant) => format!(in alloc;
            "\"{shown}\" isn't a type: did you mean {meant}, where it has \"{name}\"?"
        ),
        None => format!(in alloc;
            "\"{shown}\" isn't a type: \"{name}\" isn't the whole name of one, with address, module and name, as 0x1::coin::Coin"
        ),
    }
}

/// The first word that no type has.
fn first_wrong_word(alloc: Global, text: &str) -> Result<Option<&str>, AllocError> {
    let mut rest = text;
    for _ in 0..=text.len() {
        let Some((word, next)) = rest.split_at_checked(word_len(rest)) else {
            break;
        };
        if !is_word_of_types(alloc, word)? {
            return Ok(Some(word));
        }
        // (after the sign)
        let Some(next) = next.get(1..) else {
            break;
        };
        rest = next;
    }
    Ok(None)
}

fn is_word_of_types(alloc: Global, word: &str) -> Result<bool, AllocError> {
    if matches!(word, "" | "mut" | "vector") || simple_type(word).is_some() {
        return Ok(true);
    }
    Ok(declared_called(alloc, word)?.is_some())
}

/// The type that was probably meant by a word.
fn meant_by<'a>(alloc: Global, word: &'a str) -> Result<Option<&'a str>, AllocError> {
    for (other, meant) in OTHERS {
        if word.eq_ignore_ascii_case(other) {
            return Ok(Some(meant));
        }
    }
    let mut search = NearestName::to(word);
    for leaf in LEAVES {
        if word.eq_ignore_ascii_case(leaf.word()) {
            return Ok(Some(leaf.word()));
        }
        search.consider(alloc, leaf.word())?;
    }
    Ok(search.found())
}
