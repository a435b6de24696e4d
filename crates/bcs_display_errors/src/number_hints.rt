//! The number that was found where another one was expected.

use crate::json_outline::Outline;
use bcs_display_refusal::Name;
use bcs_registry_model::IntegerKind;
use std::fmt;

/// What was found where an integer was expected, written in front of what was expected.
#[derive(Clone, Copy)]
pub(crate) enum FoundNumber<'a> {
    /// A number, as the document writes it.
    Bare(Name<'a>),
    /// A number in a string.
    Quoted(Name<'a>),
    /// Another string.
    Text(Name<'a>),
    /// Anything else, by these words.
    Other(&'static str),
}

impl<'a> FoundNumber<'a> {
    pub(crate) fn of(outline: &Outline<'a>) -> FoundNumber<'a> {
        match outline {
            Outline::Number(digits) => FoundNumber::Bare(Name::of(digits)),
            Outline::String(text) if is_whole(text) => FoundNumber::Quoted(Name::of(text)),
            Outline::String(text) => FoundNumber::Text(Name::of(text)),
            Outline::Null => FoundNumber::Other("null"),
            Outline::Bool(true) => FoundNumber::Other("true"),
            Outline::Bool(false) => FoundNumber::Other("false"),
            Outline::Array(_) => FoundNumber::Other("an array"),
            Outline::Object(_) => FoundNumber::Other("an object"),
        }
    }

    /// What is wrong with the digits of a number, if they spell none of this program's, after what was expected.
    pub(crate) fn advice(self, expected: IntegerKind) -> &'static str {
        match self {
            FoundNumber::Bare(name) if expected.byte_len() > 8 && is_long(name.text()) => QUOTES,
            FoundNumber::Bare(name) | FoundNumber::Quoted(name) | FoundNumber::Text(name) => {
                advice_for(name.text())
            }
            FoundNumber::Other(_) => "",
        }
    }
}

const QUOTES: &str = "; a number above 64 bits belongs in double quotes";

// Whether these are the digits of a number that may be above 64 bits.
fn is_long(text: &str) -> bool {
    is_whole(text) && text.len() > 18
}

// What to leave out of digits.
fn advice_for(text: &str) -> &'static str {
    let digits = text.strip_prefix('-').unwrap_or(text);
    if text.is_empty() {
        "; the string is empty"
    } else if text.starts_with('+') {
        "; write digits only, without a plus sign"
    } else if digits.starts_with("0x") || digits.starts_with("0X") {
        "; write the number in decimal, without 0x"
    } else if is_decimal(digits) {
        advice_for_zeros(text, digits)
    } else if !digits.bytes().any(|byte| byte.is_ascii_digit()) {
        "; write digits"
    } else if digits.contains('e') || digits.contains('E') {
        "; write digits only, without an exponent"
    } else if digits.contains('.') {
        "; write digits only, without a point"
    } else {
        "; write digits only"
    }
}

fn advice_for_zeros(text: &str, digits: &str) -> &'static str {
    if digits.len() > 1 && digits.starts_with('0') {
        "; write it without leading zeros"
    } else if text == "-0" {
        "; write 0"
    } else {
        ""
    }
}

// Whether a string holds digits, and perhaps a sign before them.
fn is_whole(text: &str) -> bool {
    let digits = text.strip_prefix('-').unwrap_or(text);
    is_decimal(digits)
}

fn is_decimal(text: &str) -> bool {
    !text.is_empty() && text.bytes().all(|byte| byte.is_ascii_digit())
}

impl fmt::Display for FoundNumber<'_> {
    fn fmt<W: fmt::Write>(&self, f: &mut fmt::Formatter<W>) -> fmt::Result {
        match self {
            FoundNumber::Bare(number) | FoundNumber::Quoted(number) => write!(
                f,
                "found {number}, "
            ),
            FoundNumber::Text(text) => write!(f, "found \"{text}\", "),
            FoundNumber::Other(words) => write!(f, "found {words}, "),
        }
    }
}
