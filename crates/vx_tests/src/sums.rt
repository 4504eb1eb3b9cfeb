//! The tests of what each selected strike adds, and of their sum.

ghost use Rattle.std.specs.Prelude.{◌≡◌, ◌-◌, ◌*◌, ◌^◌, ◌≤◌, ◌↔◌, IsTrue, sum_by, All};
ghost use Rattle.vx_cert.specs.declared.rows.CertRow.{CertRow};
ghost use Rattle.vx_claims.specs.TermTests.{EnclosesContribution, EnclosesTotal};

use crate::scale::{limit, power};
use vx_cert::{CertRow, Ends};
use vx_claims::limits::SCALE;
use vx_formula::limits::STRIP_TOTAL_MAX;

/// The ends of each row enclose what it adds.
pub fn enclose_contributions(scale: u32, rows: &[CertRow]) -> bool
    requires low { 2 ≤ scale }
    requires high { scale ≤ SCALE }
    ensures { IsTrue result ↔ All (EnclosesContribution scale) rows.now }
{
    for row in rows {
        if !encloses_contribution(scale, row) {
            return false;
        }
    }
    true
}

fn encloses_contribution(scale: u32, row: &CertRow) -> bool
    requires low { 2 ≤ scale }
    requires high { scale ≤ SCALE }
    ensures { IsTrue result ↔ EnclosesContribution scale row.now }
{
    is_row_in_range(scale, row) && is_low_end(scale, row) && is_high_end(scale, row)
}

fn is_row_in_range(scale: u32, row: &CertRow) -> bool
    requires { scale ≤ SCALE }
    ensures { IsTrue result ↔ ((row.now.lo ≤ row.now.hi) × (row.now.hi ≤ STRIP_TOTAL_MAX * 2 ^ scale)) }
{
    row.lo <= row.hi && u128::from(row.hi) <= limit(scale, STRIP_TOTAL_MAX)
}

// Both sides are a quarter of what the definition says, so that they fit for every row.
fn is_low_end(scale: u32, row: &CertRow) -> bool
    requires low { 2 ≤ scale }
    requires high { scale ≤ SCALE }
    ensures { IsTrue result ↔ (row.now.lo * (4 * (row.now.strike * row.now.strike))
        ≤ 5 * (row.now.d * row.now.q4) * 2 ^ scale) }
{
    times_square(row.lo, row.strike) <= contribution(scale, row)
}

fn is_high_end(scale: u32, row: &CertRow) -> bool
    requires low { 2 ≤ scale }
    requires high { scale ≤ SCALE }
    ensures { IsTrue result ↔ (5 * (row.now.d * row.now.q4) * 2 ^ scale
        ≤ row.now.hi * (4 * (row.now.strike * row.now.strike))) }
{
    contribution(scale, row) <= times_square(row.hi, row.strike)
}

fn times_square(end: u64, strike: u32) -> u128
    ensures { result ≡ end * (strike * strike) }
{
    u128::from(end) * (u128::from(strike) * u128::from(strike))
}

/// A quarter of a row's width times its price, at a scale.
fn contribution(scale: u32, row: &CertRow) -> u128
    requires low { 2 ≤ scale }
    requires high { scale ≤ SCALE }
    ensures { result ≡ 5 * (row.now.d * row.now.q4) * 2 ^ (scale - 2) }
{
    5 * (u128::from(row.d) * u128::from(row.q4)) * quarter(scale)
}

/// A quarter of the unit of 1.
fn quarter(scale: u32) -> u128
    requires low { 2 ≤ scale }
    requires high { scale ≤ SCALE }
    ensures value { result ≡ 2 ^ (scale - 2) }
    ensures most { result ≤ 2 ^ 60 }
{
    power(scale - 2) as u128
}

/// The ends enclose the sum of the rows.
pub fn encloses_total(scale: u32, rows: &[CertRow], s: Ends) -> bool
    requires { scale ≤ SCALE }
    ensures { IsTrue result ↔ EnclosesTotal scale rows.now s }
{
    0 <= s.lo
        && 0 <= s.hi
        && s.hi <= limit(scale, STRIP_TOTAL_MAX) as i128
        && s.lo as u128 <= low_sum(rows)
        && high_sum(rows) <= s.hi as u128
}

fn low_sum(rows: &[CertRow]) -> u128
    ensures { result ≡ sum_by (λ row. row.lo) rows.now }
{
    let mut sum = 0;
    for row in rows {
        sum += u128::from(row.lo);
    }
    sum
}

fn high_sum(rows: &[CertRow]) -> u128
    ensures { result ≡ sum_by (λ row. row.hi) rows.now }
{
    let mut sum = 0;
    for row in rows {
        sum += u128::from(row.hi);
    }
    sum
}
