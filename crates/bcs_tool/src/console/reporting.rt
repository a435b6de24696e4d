//! What is written to standard output and standard error, and the status.
ghost use Rattle.std.specs.Prelude.{◌≡◌, ◌++◌, codes, not, true};
ghost use Rattle.bcs_tool_answers.specs.Answers.{line_of};
ghost use Rattle.bcs_tool_command_line.specs.CommandLine.{texts_of};
ghost use Rattle.bcs_tool.specs.Endings.{Put, ReportsFault, PrintsReport};
ghost use Rattle.bcs_tool.specs.Visible.{breaks_lines, usage_text};

use crate::console::visible::{breaks_lines, put_visible};
use bcs_io::{ByteSink, put_all};
use bcs_tool_command_line::{LineFault, Outcome};

/// Reports why the arguments aren't a job, or prints help or the version, and returns the status.
pub fn report_fault<O: ByteSink, E: ByteSink>(fault: &LineFault, out: &mut O, errors: &mut E) -> u8
    ensures { ReportsFault O.taken O.is_failed E.taken E.is_failed true fault.now out.old out.new errors.old errors.new result }
{
    report_fault_by(true, fault, out, errors)
}

/// The same if the arguments are known. If one of them contains a line feed, the usage text is one line: clap's text repeats
/// arguments, and so no argument can forge a line.
pub(crate) fn report_fault_of_words<O: ByteSink, E: ByteSink>(
    words: &[String],
    fault: &LineFault,
    out: &mut O,
    errors: &mut E,
) -> u8
    ensures { ReportsFault O.taken O.is_failed E.taken E.is_failed (not (breaks_lines (texts_of words.now))) fault.now out.old out.new errors.old errors.new result }
{
    report_fault_by(!breaks_lines(words), fault, out, errors)
}

fn report_fault_by<O: ByteSink, E: ByteSink>(
    keeps_lines: bool,
    fault: &LineFault,
    out: &mut O,
    errors: &mut E,
) -> u8
    ensures { ReportsFault O.taken O.is_failed E.taken E.is_failed keeps_lines fault.now out.old out.new errors.old errors.new result }
{
    match fault {
        // clap's text ends with a line feed.
        LineFault::Usage(text) => {
            report_usage(keeps_lines, text.as_str(), errors);
            3
        }
        LineFault::Help(text) => match put_all(text.as_bytes(), out) {
            Ok(()) => 0,
            Err(_) => report_note("fault: write", errors),
        },
        LineFault::OutOfMemory => report_note("fault: memory", errors),
    }
}

/// Prints the note of an outcome on a line, and then its place, if it has them, and returns its status.
pub fn print_report<E: ByteSink>(outcome: Outcome, errors: &mut E) -> u8
    ensures { PrintsReport E.taken E.is_failed outcome errors.old errors.new result }
{
    if outcome.note.is_empty() {
        if !outcome.place.is_empty() {
            report_line(outcome.place.as_slice(), errors);
        }
    } else if outcome.place.is_empty() {
        report_line(outcome.note.as_bytes(), errors);
    } else {
        report_lines(outcome.note.as_bytes(), outcome.place.as_slice(), errors);
    }
    outcome.status
}

// Prints a usage text with its hidden characters escaped.
fn report_usage<E: ByteSink>(keeps_lines: bool, text: &str, errors: &mut E)
    ensures { Put E.taken E.is_failed errors.old errors.new (usage_text keeps_lines text.now) }
{
    match put_visible(keeps_lines, text, errors) {
        Ok(()) => {
            if !keeps_lines {
                report_text("\n", errors);
            }
        }
        Err(_) => {}
    }
}

// Prints the note of a fault on a line, and returns its status.
fn report_note<E: ByteSink>(note: &str, errors: &mut E) -> u8
    ensures { (result ≡ 4) × Put E.taken E.is_failed errors.old errors.new (line_of note.now) }
{
    report_line(note.as_bytes(), errors);
    4
}

// Prints two texts, each with a line end.
fn report_lines<E: ByteSink>(text: &[u8], next: &[u8], errors: &mut E)
    ensures { Put E.taken E.is_failed errors.old errors.new (line_of text.now ++ line_of next.now) }
{
    match put_all(text, errors) {
        Ok(()) => report_next(next, errors),
        Err(_) => {}
    }
}

// Prints a line end, and then a text with another one.
fn report_next<E: ByteSink>(next: &[u8], errors: &mut E)
    ensures { Put E.taken E.is_failed errors.old errors.new (codes "\n" ++ line_of next.now) }
{
    match put_all(b"\n", errors) {
        Ok(()) => report_line(next, errors),
        Err(_) => {}
    }
}

// Prints a text and a line end. It doesn't allocate.
fn report_line<E: ByteSink>(text: &[u8], errors: &mut E)
    ensures { Put E.taken E.is_failed errors.old errors.new (line_of text.now) }
{
    match put_all(text, errors) {
        Ok(()) => report_text("\n", errors),
        Err(_) => {}
    }
}

// Prints a text. If standard error fails, the text is lost: there is nowhere else to report it.
fn report_text<E: ByteSink>(text: &str, errors: &mut E)
    ensures { Put E.taken E.is_failed errors.old errors.new text.now }
{
    let _ = put_all(text.as_bytes(), errors);
}
