//! Pieces of output lines.

ghost use Rattle.std.specs.Prelude.{◌≡◌, ◌≤◌, ◌++◌, OnOk};
ghost use Rattle.vx_num.specs.Written.{decimal_text};

use std::alloc::Global;
use vx_num::{NoMemory, write_decimal};

/// Appends a text.
pub fn push_text(line: &mut Vec<u8>, text: &str) -> Result<(), NoMemory>
    ensures { OnOk result (line.new.items ≡ line.old.items ++ text.now) }
{
    line.extend_from_slice(text.as_bytes())?;
    Ok(())
}

/// Appends a whole number.
pub fn push_number(alloc: Global, line: &mut Vec<u8>, number: u64) -> Result<(), NoMemory>
    ensures { OnOk result (line.new.items ≡ line.old.items ++ decimal_text number 0) }
{
    write_decimal(alloc, line, number as u128, 0)
}
