//! The strip as the program holds it.

ghost use Rattle.std.specs.Prelude.{◌≡◌, List, [], ◌∷◌, ◌++◌, IfOk, OnOk, OnErr};

use std::alloc::Global;
use std::marker::Model;
use vx_num::NoMemory;

/// One selected strike.
#[derive(Clone, Copy, Debug, PartialEq, Eq)]
pub struct StripRow {
    /// In thousandths of a point.
    pub strike: u32,
    /// The doubled width, in thousandths of a point.
    pub d: u32,
    /// The price, in quarter cents.
    pub q4: u32,
}

/// The rows of a strip in rising order of strike; contracts see the list of them.
#[derive(Debug, Drop)]
pub struct StripRows {
    list: Vec<StripRow>,
}

impl Model for StripRows {
    ghost use Rattle.std.specs.Prelude.{List};
    ghost use Rattle.vx_strip.specs.declared.strip.StripRow.{StripRow};

    ghost Value = { List StripRow };

    ghost view = { λ rows. rows.list.items };
}

impl StripRows {
    /// The empty list.
    pub fn new(alloc: Global) -> StripRows
        ensures { result ≡ [] }
    {
        StripRows {
            list: Vec::new(alloc),
        }
    }

    /// The empty list, with the memory of so many rows.
    pub(crate) fn with_room(alloc: Global, count: usize) -> Result<StripRows, NoMemory>
        ensures { IfOk result (λ rows. rows ≡ []) }
    {
        let list = Vec::with_capacity(alloc, count)?;
        Ok(StripRows { list })
    }

    /// Puts a row last. After a refusal the list is unchanged.
    pub fn push(&mut self, item: StripRow) -> Result<(), NoMemory>
        ensures ok { OnOk result (self.new ≡ self.old ++ item ∷ []) }
        ensures err { OnErr result (self.new ≡ self.old) }
    {
        self.list.push(item)?;
        Ok(())
    }

    /// A copy of the list.
    fn copied(&self, alloc: Global) -> Result<StripRows, NoMemory>
        ensures { IfOk result (λ rows. rows ≡ self.now) }
    {
        let list = Vec::from_slice(alloc, self.list.as_slice())?;
        Ok(StripRows { list })
    }

    /// The rows in order.
    pub fn items(&self) -> &[StripRow]
        ensures { result.now ≡ self.now }
    {
        self.list.as_slice()
    }
}

/// The selected strikes of a term at its level, with their widths and prices.
#[derive(Debug, Drop)]
pub struct Strip {
    pub rows: StripRows,
}

impl Strip {
    /// A copy of the strip.
    pub fn copied(&self, alloc: Global) -> Result<Strip, NoMemory>
        ensures { IfOk result (λ strip. strip ≡ self.now) }
    {
        Ok(Strip {
            rows: self.rows.copied(alloc)?,
        })
    }
}
