//! The output lines of a run that answers certificates.

ghost use Rattle.std.specs.Prelude.{◌≡◌, ◌++◌, OnOk};
ghost use Rattle.vx_drivers.specs.Answers.{answer_of, answer_text, end_line, line_start};

use crate::text::{push_number, push_text};
use std::alloc::Global;
use vx_num::NoMemory;

/// Appends a word, a comma, a number and a comma.
fn push_line_start(
    alloc: Global,
    line: &mut Vec<u8>,
    word: &str,
    number: u64,
) -> Result<(), NoMemory>
    ensures { OnOk result (line.new.items ≡ line.old.items ++ line_start word.now number) }
{
    push_text(line, word)?;
    push_text(line, ",")?;
    push_number(alloc, line, number)?;
    push_text(line, ",")
}

/// Writes the line that answers the certificate line of this number.
pub(crate) fn write_answer(
    alloc: Global,
    line: &mut Vec<u8>,
    number: u64,
    yes: bool,
    words: &[u8],
) -> Result<(), NoMemory>
    ensures { OnOk result (line.new.items ≡ answer_text number (answer_of yes words.now)) }
{
    line.clear();
    push_line_start(alloc, line, if yes { "YES" } else { "NO" }, number)?;
    line.extend_from_slice(words)?;
    push_text(line, "\n")
}

/// Writes the last line, with how many lines were answered, and how.
pub(crate) fn write_end(
    alloc: Global,
    line: &mut Vec<u8>,
    lines: u64,
    yes: u64,
    no: u64,
) -> Result<(), NoMemory>
    ensures { OnOk result (line.new.items ≡ end_line lines yes no) }
{
    line.clear();
    push_end(alloc, line, lines, yes, no)
}

/// Appends the last line.
fn push_end(
    alloc: Global,
    line: &mut Vec<u8>,
    lines: u64,
    yes: u64,
    no: u64,
) -> Result<(), NoMemory>
    ensures { OnOk result (line.new.items ≡ line.old.items ++ end_line lines yes no) }
{
    push_line_start(alloc, line, "END", lines)?;
    push_number(alloc, line, yes)?;
    push_text(line, ",")?;
    push_number(alloc, line, no)?;
    push_text(line, "\n")
}
