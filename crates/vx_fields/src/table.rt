//! A table of the fields of lines.

ghost use Rattle.std.specs.Prelude.{◌≡◌, ◌+◌, ◌<◌, ◌≤◌, [], ◌++◌, length, map, true, ◌==◌, slice_get, slice_index_or, take, Some, OnOk, OnErr, vec_len, option_map};
ghost use Rattle.std.specs.Option.{option_copied};
ghost use Rattle.std.specs.List.{list_all};
ghost use Rattle.csv.specs.Reading.{error_kind};
ghost use Rattle.csv.specs.Records.{fields_of};
ghost use Rattle.vx_fields.specs.Refusal.{IsRefusal};
ghost use Rattle.vx_fields.specs.Lines.{fields_of_line, is_plain_line, lines_in, text_of};

use crate::block::LineBlock;
use csv::{ByteRecord, Error, ErrorKind, ReaderBuilder};
use std::alloc::Global;
use std::marker::Model;
use vx_num::NoMemory;

// What `csv` refused with no record at fault: memory. No read of a slice fails, which its contracts do
// not say.
fn refusal(error: &Error) -> NoMemory
    requires { IsRefusal (error_kind error.now) }
{
    match error.kind() {
        ErrorKind::OutOfMemory | ErrorKind::Io(_) => NoMemory,
        _ => unreachable!(),
    }
}

// Reads the lines of a text into the first rows, one a line, by one reader.
fn read_rows(
    alloc: Global,
    text: &[u8],
    rows: &mut [ByteRecord],
    count: usize,
) -> Result<(), NoMemory>
    requires whole { text.now ≡ text_of (lines_in text.now) }
    requires plain { list_all is_plain_line (lines_in text.now) ≡ true }
    requires counted { count ≡ length (lines_in text.now) }
    requires room { count ≤ length rows.old }
    ensures { OnOk result (map fields_of (take count rows.new) ≡ map fields_of_line (lines_in text.now)) }
{
    let mut reader = ReaderBuilder::new()
        .has_headers(false)
        .flexible(true)
        .from_reader(alloc, text);
    for i in 0..count {
        match reader.read_byte_record(&mut rows[i]) {
            Ok(true) => {}
            Ok(false) => unreachable!(),
            Err(error) => return Err(refusal(&error)),
        }
    }
    Ok(())
}

// Makes rows until there are so many.
fn grow(alloc: Global, rows: &mut Vec<ByteRecord>, count: usize) -> Result<(), NoMemory>
    ensures room { OnOk result (count ≤ vec_len rows.new) }
{
    while rows.len() < count {
        rows.push(ByteRecord::new(alloc))?;
    }
    Ok(())
}

/// The fields of a block of lines, line by line. Its memory is used again for the next block.
#[derive(Drop)]
pub struct FieldTable {
    rows: Vec<ByteRecord>,
    used: usize,
}

impl Model for FieldTable {
    ghost use Rattle.std.specs.Prelude.{ℕ, ◌≤◌, List, map, take, vec_len};
    ghost use Rattle.csv.specs.Records.{fields_of};

    ghost Value = { List (List (List ℕ)) };

    ghost view = { λ t. map fields_of (take t.used t.rows.items) };

    ghost invariant = { λ t. t.used ≤ vec_len t.rows };
}

impl FieldTable {
    /// A table of no line.
    pub fn new(alloc: Global) -> Self
        ensures { result ≡ [] }
    {
        FieldTable {
            rows: Vec::new(alloc),
            used: 0,
        }
    }

    /// How many lines the table has.
    pub fn len(&self) -> usize
        ensures { result ≡ length self.now }
    {
        self.used
    }

    /// Whether the table has no line.
    pub fn is_empty(&self) -> bool
        ensures { result ≡ (length self.now == 0) }
    {
        self.used == 0
    }

    /// Splits the lines of a block at their commas, in place of what the table had. After a refusal it
    /// has no line.
    pub fn fill(&mut self, block: &LineBlock) -> Result<(), NoMemory>
        ensures ok { OnOk result (self.new ≡ map fields_of_line block.now) }
        ensures err { OnErr result (self.new ≡ []) }
    {
        self.used = 0;
        let alloc = *self.rows.allocator();
        let count = block.len();
        grow(alloc, &mut self.rows, count)?;
        read_rows(alloc, block.text(), &mut self.rows, count)?;
        self.used = count;
        Ok(())
    }

    /// The fields of a line of the table.
    pub fn line(&self, i: usize) -> Fields<'_>
        requires { i < length self.now }
        ensures { slice_get self.now i ≡ Some result }
    {
        Fields { row: &self.rows[i] }
    }
}

/// The fields of one line, at least one.
#[derive(Drop)]
pub struct Fields<'a> {
    row: &'a ByteRecord,
}

impl<'a> Model for Fields<'a> {
    ghost use Rattle.std.specs.Prelude.{ℕ, List};
    ghost use Rattle.csv.specs.Records.{fields_of};

    ghost Value = { List (List ℕ) };

    ghost view = { λ f. fields_of f.row.now };
}

impl<'a> Fields<'a> {
    /// How many fields the line has.
    pub fn len(&self) -> usize
        ensures { result ≡ length self.now }
    {
        self.row.len()
    }

    /// Whether there is no field. A line has one at least, so this comes of no line that was split.
    pub fn is_empty(&self) -> bool
        ensures { result ≡ (length self.now == 0) }
    {
        self.row.is_empty()
    }

    /// The field at a place that the line has, counted from 0.
    pub fn field(&self, i: usize) -> &[u8]
        requires { i < length self.now }
        ensures { result.now ≡ slice_index_or self.now i [] }
    {
        match self.row.get(i) {
            Some(field) => field,
            None => unreachable!(),
        }
    }

    /// The field at a place, counted from 0, if the line has it.
    pub fn get(&self, i: usize) -> Option<&[u8]>
        ensures { option_copied result ≡ slice_get self.now i }
    {
        self.row.get(i)
    }
}
