//! Whether output that people read is in color.

use crate::{Color, Command, Display};
use std::env::{Env, VarError};
use std::rt::Files;
use std::{env, fs};

/// The same options with the color decided. If the command line leaves it open, pieces are in color on a terminal, unless
/// NO_COLOR is set.
pub fn with_color<R: Files + Env + AllocGlobal>(
    rt: &R,
    command: Command,
    display: Display,
) -> Display {
    let color = match display.color {
        Color::Auto => usual_color(rt, command),
        given => given,
    };
    Display { color, ..display }
}

// Color for the one command that has colors, on a terminal.
fn usual_color<R: Files + Env + AllocGlobal>(rt: &R, command: Command) -> Color {
    if command == Command::Explain && allows_color(rt) && is_on_terminal(rt) {
        Color::Always
    } else {
        Color::Never
    }
}

// NO_COLOR of any text that isn't empty forbids color (no-color.org). A text that can't be read forbids it too.
fn allows_color<R: Env + AllocGlobal>(rt: &R) -> bool {
    match env::var(rt, "NO_COLOR") {
        Ok(text) => text.is_empty(),
        Err(VarError::NotPresent) => true,
        Err(VarError::NotUnicode | VarError::OutOfMemory) => false,
    }
}

// On Linux, a link shows which file standard output is. Terminals are in /dev/pts and /dev/tty.
fn is_on_terminal<R: Files + AllocGlobal>(rt: &R) -> bool {
    match fs::read_link(rt, "/proc/self/fd/1") {
        Ok(path) => {
            let name = path.as_str();
            name.starts_with("/dev/pts/") || name.starts_with("/dev/tty")
        }
        Err(_) => false,
    }
}
