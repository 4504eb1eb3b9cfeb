//! Reading the lines of positions.

ghost use Rattle.std.specs.Prelude.{◌≡◌, ◌⊎◌, [], ◌∷◌, None, true, IfOk};
ghost use Rattle.vx_fields.specs.Lines.{fields_of_line, is_plain_line};
ghost use Rattle.vx_settle.specs.Form.{position_of_line, unsplit_fault};
ghost use Rattle.vx_settle.specs.Position.{IsPositionInRange};

use crate::fault::PositionFault;
use crate::form::position_of_fields;
use crate::position::Position;
use std::alloc::Global;
use vx_fields::{FieldTable, LineBlock, why_unsplit};
use vx_num::NoMemory;

// The fault of a line that can't be split into fields: `Fields` where it is empty, `Byte` where it has
// a byte outside 0x20 to 0x7E or a double quote. Every other line can be split.
fn line_fault(line: &[u8]) -> Option<PositionFault>
    ensures fault { result ≡ unsplit_fault line.now }
    ensures plain { result ≡ None → is_plain_line line.now ≡ true }
{
    match why_unsplit(line) {
        Some(cause) => Some(PositionFault::from(cause)),
        None => None,
    }
}

// The fields of one line.
fn split(alloc: Global, line: &[u8]) -> Result<FieldTable, NoMemory>
    requires { is_plain_line line.now ≡ true }
    ensures { IfOk result (λ table. table ≡ fields_of_line line.now ∷ []) }
{
    let mut block = LineBlock::new(alloc);
    block.push(line)?;
    let mut table = FieldTable::new(alloc);
    table.fill(&block)?;
    Ok(table)
}

/// The position of a line, given without its LF.
///
/// # Errors
///
/// The first that holds of: `Byte`, a byte outside 0x20 to 0x7E or a double quote; `Fields`, not three
/// fields; `Field`, the first field, counted from 1, that is not of its form or range. `NoMemory` has no
/// cause in the line.
pub fn read_position(alloc: Global, line: &[u8]) -> Result<Position, PositionFault>
    ensures value { (result ≡ position_of_line line.now) ⊎ (result ≡ Err PositionFault.NoMemory) }
    ensures in_range { IfOk result IsPositionInRange }
{
    if let Some(fault) = line_fault(line) {
        return Err(fault);
    }
    let table = split(alloc, line)?;
    position_of_fields(&table.line(0))
}
