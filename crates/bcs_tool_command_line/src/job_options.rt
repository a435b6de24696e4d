//! What a command line asks for in addition: the options, and the arguments that only some commands have.
ghost use Rattle.std.specs.Prelude.{◌≡◌, IfOk, codes, option_map, string_bytes};
ghost use Rattle.std.specs.Option.{option_or};
ghost use Rattle.clap.specs.Words.{first_of, found_of, rows_of};
ghost use Rattle.bcs_tool_command_line.specs.Jobs.{HasNoOptions, HasOptions};

use crate::arguments::{given_name, has_value, is_set, name_in, names_in, notation_of, text_in};
use crate::display::Display;
use crate::notation::Notation;
use crate::views::views_of;
use bcs_view_texts::ViewText;
use clap::ArgMatches;
use std::alloc::{AllocError, Global};

/// What a command line asks for in addition.
#[derive(Debug, Drop)]
pub struct JobOptions {
    /// NAME of `show`: a container's name; or that of `--variant`: a variant's name.
    pub name: Option<String>,
    /// TYPE of `from-move`: types and functions.
    pub types: Option<Vec<String>>,
    /// `--base64`: bytes are read and written as base64. It overrides `--raw`.
    pub base64: bool,
    /// `--lines`: each line of the input is an input of its own.
    pub lines: bool,
    /// `--front`: a value is accepted at the start of the bytes, and the rest is left.
    pub front: bool,
    /// `--list`: all differences of two registries are printed first.
    pub list: bool,
    /// `--quiet`: the line that says where a refusal occurred is left out.
    pub quiet: bool,
    /// `--name`, `--pointer`: how PATH is written.
    pub notation: Notation,
    /// `--content`: the content of a byte string, without its length.
    pub content: bool,
    /// `--range`: the place and the length of a part, in place of its bytes.
    pub range: bool,
    /// `--output`: the name of the file to write instead of standard output.
    pub output: Option<String>,
    /// `--refusals json`: a line that is refused is answered by a JSON object.
    pub json_refusals: bool,
    /// What `explain` looks into, and which values it shows as Move does, in the order of the options; `None` if no such option
    /// was given.
    pub views: Option<Vec<ViewText>>,
    /// The options of output that people read.
    pub display: Display,
}

impl JobOptions {
    /// None of the options was given.
    pub fn none() -> JobOptions
        ensures { HasNoOptions result }
    {
        JobOptions {
            name: None,
            types: None,
            base64: false,
            lines: false,
            front: false,
            list: false,
            quiet: false,
            notation: Notation::Path,
            content: false,
            range: false,
            output: None,
            json_refusals: false,
            views: None,
            display: Display::none(),
        }
    }

    /// The options among these arguments.
    pub(crate) fn given(alloc: Global, given: &ArgMatches<'_>) -> Result<JobOptions, AllocError>
        ensures { IfOk result (HasOptions (rows_of (found_of given.now))) }
    {
        Ok(JobOptions {
            name: name_of(alloc, given)?,
            types: names_in(alloc, given, "TYPE")?,
            base64: is_set(given, "base64"),
            lines: is_set(given, "lines"),
            front: is_set(given, "front"),
            list: is_set(given, "list"),
            quiet: is_set(given, "quiet"),
            notation: notation_of(given),
            content: is_set(given, "content"),
            range: is_set(given, "range"),
            output: name_in(alloc, given, "output")?,
            json_refusals: has_value(given, "refusals"),
            views: views_of(alloc, given)?,
            display: Display::given(given),
        })
    }
}

// NAME, or the value of `--variant`.
fn name_of(alloc: Global, given: &ArgMatches<'_>) -> Result<Option<String>, AllocError>
    ensures { IfOk result (λ o. option_map string_bytes o ≡ option_or (first_of (codes "NAME") (rows_of (found_of given.now))) (first_of (codes "variant") (rows_of (found_of given.now)))) }
{
    given_name(alloc, text_in(given, "NAME").or(text_in(given, "variant")))
}
