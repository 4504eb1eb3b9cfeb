//! The sum as the program holds it.

ghost use Rattle.std.specs.Prelude.{◌≡◌, List, [], ◌∷◌, ◌++◌, IfOk, OnOk, OnErr};

use std::alloc::Global;
use std::marker::Model;
use vx_interval::Iv;
use vx_num::NoMemory;

/// The contribution of one row of a strip, in units of `2^-P`.
#[derive(Clone, Copy, Debug, PartialEq, Eq)]
pub struct SumRow {
    /// Rounded down.
    pub lo: u64,
    /// Rounded up.
    pub hi: u64,
}

/// The contributions of a strip's rows, in their order; contracts see the list of them.
#[derive(Debug, Drop)]
pub struct SumRows {
    list: Vec<SumRow>,
}

impl Model for SumRows {
    ghost use Rattle.std.specs.Prelude.{List};
    ghost use Rattle.vx_sum.specs.declared.sum.SumRow.{SumRow};

    ghost Value = { List SumRow };

    ghost view = { λ rows. rows.list.items };
}

impl SumRows {
    /// The empty list.
    pub fn new(alloc: Global) -> SumRows
        ensures { result ≡ [] }
    {
        SumRows {
            list: Vec::new(alloc),
        }
    }

    /// The empty list, with the memory of so many rows.
    pub(crate) fn with_room(alloc: Global, count: usize) -> Result<SumRows, NoMemory>
        ensures { IfOk result (λ rows. rows ≡ []) }
    {
        let list = Vec::with_capacity(alloc, count)?;
        Ok(SumRows { list })
    }

    /// Puts a row last. After a refusal the list is unchanged.
    pub fn push(&mut self, item: SumRow) -> Result<(), NoMemory>
        ensures ok { OnOk result (self.new ≡ self.old ++ item ∷ []) }
        ensures err { OnErr result (self.new ≡ self.old) }
    {
        self.list.push(item)?;
        Ok(())
    }

    /// A copy of the list.
    fn copied(&self, alloc: Global) -> Result<SumRows, NoMemory>
        ensures { IfOk result (λ rows. rows ≡ self.now) }
    {
        let list = Vec::from_slice(alloc, self.list.as_slice())?;
        Ok(SumRows { list })
    }

    /// The rows in order.
    pub fn items(&self) -> &[SumRow]
        ensures { result.now ≡ self.now }
    {
        self.list.as_slice()
    }
}

/// What a strip's rows contribute, and the sum of it.
#[derive(Debug, Drop)]
pub struct StripSum<const P: u32> {
    pub rows: SumRows,
    /// From the sum of all low ends to the sum of all high ends.
    pub total: Iv<P>,
}

impl<const P: u32> StripSum<P> {
    /// A copy of the sum.
    pub fn copied(&self, alloc: Global) -> Result<StripSum<P>, NoMemory>
        ensures { IfOk result (λ sum. sum ≡ self.now) }
    {
        Ok(StripSum {
            rows: self.rows.copied(alloc)?,
            total: self.total,
        })
    }
}
