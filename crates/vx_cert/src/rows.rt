//! The rows of a certificate's strip.

ghost use Rattle.std.specs.Prelude.{◌≡◌, List, [], ◌∷◌, ◌++◌, IfOk, OnOk, OnErr};

use std::alloc::Global;
use std::marker::Model;
use vx_num::NoMemory;

/// One selected strike and its contribution to the strip's sum.
#[derive(Clone, Copy, Debug, PartialEq, Eq)]
pub struct CertRow {
    /// Thousandths of a point.
    pub strike: u32,
    /// The doubled width, in thousandths of a point.
    pub d: u32,
    /// The price, in quarter cents.
    pub q4: u32,
    /// The contribution's low end.
    pub lo: u64,
    /// The contribution's high end.
    pub hi: u64,
}

/// The rows of a strip in rising order of strike; contracts see the list of them.
#[derive(Debug, Drop)]
pub struct CertRows {
    list: Vec<CertRow>,
}

impl Model for CertRows {
    ghost use Rattle.std.specs.Prelude.{List};
    ghost use Rattle.vx_cert.specs.declared.rows.CertRow.{CertRow};

    ghost Value = { List CertRow };

    ghost view = { λ rows. rows.list.items };
}

impl CertRows {
    /// The empty list.
    pub fn new(alloc: Global) -> CertRows
        ensures { result ≡ [] }
    {
        CertRows {
            list: Vec::new(alloc),
        }
    }

    /// The empty list with room for so many rows.
    pub(crate) fn with_capacity(alloc: Global, count: usize) -> Result<CertRows, NoMemory>
        ensures { IfOk result (λ rows. rows ≡ []) }
    {
        Ok(CertRows {
            list: Vec::with_capacity(alloc, count)?,
        })
    }

    /// Puts a row last. After a refusal the list is unchanged.
    pub fn push(&mut self, item: CertRow) -> Result<(), NoMemory>
        ensures ok { OnOk result (self.new ≡ self.old ++ item ∷ []) }
        ensures err { OnErr result (self.new ≡ self.old) }
    {
        self.list.push(item)?;
        Ok(())
    }

    /// The rows in order.
    pub fn items(&self) -> &[CertRow]
        ensures { result.now ≡ self.now }
    {
        self.list.as_slice()
    }
}
