//! What a certificate states of a term's run.

ghost use Rattle.std.specs.Prelude.{◌≡◌, IfOk};
ghost use Rattle.vx_certify.specs.Certified.{certified_pair, certified_row, certified_rows, certified_term};

use crate::figure::certified_ends;
use std::alloc::Global;
use vx_cert::{CertRow, CertRows, CertTerm, Pair as CertPair};
use vx_forward::Pair;
use vx_num::NoMemory;
use vx_strip::StripRow;
use vx_sum::SumRow;
use vx_term::TermRun;

/// What a certificate states of a term: the numbers of its run, each as it is. Intervals count units of
/// `2^-P`, as the run's do.
///
/// # Errors
///
/// `NoMemory`, for the rows of the strip.
pub fn certify_term<const P: u32>(alloc: Global, run: &TermRun<P>) -> Result<CertTerm, NoMemory>
    ensures { IfOk result (λ term. term ≡ certified_term run.now) }
{
    let rows = certified_rows(alloc, run.strip.rows.items(), run.sum.rows.items())?;
    Ok(CertTerm {
        expiry: run.expiry,
        minutes: run.minutes,
        rate: run.rate,
        t_lo: run.exp.t_lo,
        t_hi: run.exp.t_hi,
        e: certified_ends(&run.exp.value),
        pair: certified_pair(run.pair),
        f: certified_ends(&run.f),
        k0: run.k0,
        g: certified_ends(&run.g),
        rows,
        s: certified_ends(&run.sum.total),
        w: certified_ends(&run.w),
    })
}

/// The rows of a strip, each with its contribution.
fn certified_rows(alloc: Global, rows: &[StripRow], parts: &[SumRow]) -> Result<CertRows, NoMemory>
    ensures { IfOk result (λ stated. stated ≡ certified_rows rows.now parts.now) }
{
    let mut stated = CertRows::new(alloc);
    for (row, part) in rows.iter().zip(parts) {
        stated.push(certified_row(*row, *part))?;
    }
    Ok(stated)
}

/// A row of a strip with its contribution.
fn certified_row(row: StripRow, part: SumRow) -> CertRow
    ensures { result ≡ certified_row row part }
{
    CertRow {
        strike: row.strike,
        d: row.d,
        q4: row.q4,
        lo: part.lo,
        hi: part.hi,
    }
}

/// A pair as a certificate states it.
fn certified_pair(pair: Pair) -> CertPair
    ensures { result ≡ certified_pair pair }
{
    CertPair {
        strike: pair.strike,
        d: pair.d,
    }
}
