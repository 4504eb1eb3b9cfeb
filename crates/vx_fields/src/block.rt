//! Lines that are split together.

ghost use Rattle.std.specs.Prelude.{◌≡◌, ◌≤◌, ◌==◌, [], ◌∷◌, ◌++◌, length, true, OnOk, OnErr};
ghost use Rattle.std.specs.List.{list_all};
ghost use Rattle.vx_fields.specs.declared.block.TheConstants.{PIECE_LEN};
ghost use Rattle.vx_fields.specs.Lines.{is_plain_line, lf_count, line_feed, lines_in, text_of};

use std::alloc::Global;
use std::marker::Model;
use vx_lines::LF;
use vx_num::NoMemory;

// How many bytes of a text are counted in one byte: fewer than 256, so that no count is too large for it, and a
// multiple of 32, so that they fill whole vector registers.
const PIECE_LEN: usize = 224;

// Appends a line and its LF, both or neither.
fn append_line(text: &mut Vec<u8>, line: &[u8]) -> Result<(), NoMemory>
    ensures ok { OnOk result (text.new.items ≡ text.old.items ++ line.now ++ line_feed ∷ []) }
    ensures err { OnErr result (text.new.items ≡ text.old.items) }
{
    let before = text.len();
    if text.extend_from_slice(line).is_err() || text.push(LF).is_err() {
        text.truncate(before);
        return Err(NoMemory);
    }
    Ok(())
}

// Appends a text, or nothing of it.
fn append_text(text: &mut Vec<u8>, more: &[u8]) -> Result<(), NoMemory>
    ensures ok { OnOk result (text.new.items ≡ text.old.items ++ more.now) }
    ensures err { OnErr result (text.new.items ≡ text.old.items) }
{
    text.extend_from_slice(more)?;
    Ok(())
}

// How many LFs a piece of a text has. A byte holds the count, so that a vector register counts many at a time.
fn count_in_piece(piece: &[u8]) -> u8
    requires { length piece.now ≤ PIECE_LEN }
    ensures { result ≡ lf_count piece.now }
{
    let mut count = 0u8;
    for byte in piece {
        count += u8::from(*byte == LF);
    }
    count
}

// How many lines a text of whole lines has.
fn count_lines(text: &[u8]) -> usize
    requires whole { text.now ≡ text_of (lines_in text.now) }
    ensures { result ≡ length (lines_in text.now) }
{
    let mut count = 0;
    for piece in text.chunks(PIECE_LEN) {
        count += usize::from(count_in_piece(piece));
    }
    count
}

/// Lines that are to be split together.
#[derive(Drop)]
pub struct LineBlock {
    text: Vec<u8>,
    lines: usize,
}

impl Model for LineBlock {
    ghost use Rattle.std.specs.Prelude.{ℕ, ◌≡◌, List, length, true};
    ghost use Rattle.std.specs.List.{list_all};
    ghost use Rattle.vx_fields.specs.Lines.{is_plain_line, lines_in, text_of};

    ghost Value = { List (List ℕ) };

    ghost view = { λ b. lines_in b.text.items };

    ghost invariant = { λ b. (b.text.items ≡ text_of (lines_in b.text.items)) × (list_all is_plain_line (lines_in b.text.items) ≡ true) × (b.lines ≡ length (lines_in b.text.items)) };
}

impl LineBlock {
    /// A block with no line.
    pub fn new(alloc: Global) -> Self
        ensures { result ≡ [] }
    {
        LineBlock {
            text: Vec::new(alloc),
            lines: 0,
        }
    }

    /// How many lines the block has.
    pub fn len(&self) -> usize
        ensures { result ≡ length self.now }
    {
        self.lines
    }

    /// Whether the block has no line.
    pub fn is_empty(&self) -> bool
        ensures { result ≡ (length self.now == 0) }
    {
        self.lines == 0
    }

    // The text of the lines, each with its LF.
    pub(crate) fn text(&self) -> &[u8]
        ensures lines { lines_in result.now ≡ self.now }
        ensures whole { result.now ≡ text_of (lines_in result.now) }
        ensures plain { list_all is_plain_line (lines_in result.now) ≡ true }
    {
        &self.text
    }

    /// Adds a line. After a refusal the block is unchanged.
    pub fn push(&mut self, line: &[u8]) -> Result<(), NoMemory>
        requires { is_plain_line line.now ≡ true }
        ensures ok { OnOk result (self.new ≡ self.old ++ line.now ∷ []) }
        ensures err { OnErr result (self.new ≡ self.old) }
    {
        append_line(&mut self.text, line)?;
        self.lines += 1;
        Ok(())
    }

    /// Adds the lines of a text, each with its LF, all at once. After a refusal the block is unchanged.
    pub fn push_text(&mut self, text: &[u8]) -> Result<(), NoMemory>
        requires whole { text.now ≡ text_of (lines_in text.now) }
        requires plain { list_all is_plain_line (lines_in text.now) ≡ true }
        ensures ok { OnOk result (self.new ≡ self.old ++ lines_in text.now) }
        ensures err { OnErr result (self.new ≡ self.old) }
    {
        append_text(&mut self.text, text)?;
        self.lines += count_lines(text);
        Ok(())
    }

    /// Takes all lines away and keeps the memory.
    pub fn clear(&mut self)
        ensures { self.new ≡ [] }
    {
        self.text.clear();
        self.lines = 0;
    }
}
