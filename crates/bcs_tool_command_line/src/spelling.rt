//! Arguments as clap gets them.
ghost use Rattle.std.specs.Prelude.{◌≡◌, IfOk, map};
ghost use Rattle.bcs_tool_command_line.specs.CommandLine.{texts_of};
ghost use Rattle.bcs_tool_command_line.specs.Spelling.{may_be_option, spelled, spelled_word};

use std::alloc::{AllocError, Global};

/// The arguments in full, up to `--`, after which no argument is an option.
pub fn spelled<'a>(alloc: Global, words: &'a [String]) -> Result<Vec<&'a str>, AllocError>
    ensures { IfOk result (λ v. map (λ t. t.now) v.items ≡ spelled (texts_of words.now)) }
{
    let mut full = Vec::with_capacity(alloc, words.len())?;
    let mut goes_on = true;
    for word in words {
        let word = word.as_str();
        goes_on = may_be_option(goes_on, word);
        full.push(spelled_word(goes_on, word))?;
    }
    Ok(full)
}

// Whether options may still come: not after `--`.
fn may_be_option(goes_on: bool, word: &str) -> bool
    ensures { result ≡ may_be_option goes_on word.now }
{
    goes_on && word != "--"
}

// `--color` without a value means `--color=always`. clap would use the next argument as its value.
fn spelled_word(may_be_option: bool, word: &str) -> &str
    ensures { result.now ≡ spelled_word may_be_option word.now }
{
    if may_be_option && word == "--color" {
        "--color=always"
    } else {
        word
    }
}
