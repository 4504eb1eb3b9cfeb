//! The level.

ghost use Rattle.std.specs.Prelude.{◌≡◌, ◌≤◌, ◌≤ℤ◌, ◌<ℤ◌, int_le, length};
ghost use Rattle.std.specs.List.Sorted.{IsPartitionPoint};
ghost use Rattle.vx_num.specs.Fraction.{Fraction};
ghost use Rattle.vx_symbol.specs.Rows.{AreLawfulRows, IsLawfulTerm};
ghost use Rattle.vx_interval.specs.Membership.{IsMember};
ghost use Rattle.vx_forward.specs.Forward.{IsForwardInRange, printed_forward};
ghost use Rattle.vx_forward.specs.Level.{IsK0Answer, SaysOfForward, in_units};

use crate::forwards::forward_ends;
use vx_formula::limits::FORWARD_UNITS;
use vx_interval::Iv;
use vx_symbol::{StrikeRow, TermView};

/// What the two printed ends of a forward say of the level.
#[derive(Clone, Copy, Debug, PartialEq, Eq)]
pub enum K0Answer {
    /// The place of the level's row.
    At(usize),
    /// Every listed strike is above the forward.
    NoStrikeBelow,
    /// The place of the level's row, and no listed strike is above the level and at most twice it.
    NoStrikeAbove(usize),
    /// A listed strike, in thousandths of a point, is above the low end and at most the high one: the
    /// lowest such. The ends are in units of `10^-12` point.
    Straddle { strike: u32, lo: i128, hi: i128 },
}

/// The level, from the two printed ends of a forward: the listed strike equal to the forward, or else
/// the one immediately below it, as the Cboe VIX white paper has it.
///
/// Where a listed strike is above the low end and at most the high one, the ends do not tell the level,
/// and the answer is that strike. That a strike of at most twice the level must be listed above it is
/// this project's own rule. The term is lawful, and the ends of the forward are within `2^27`
/// thousandths of a point in absolute value. Takes no memory.
pub fn find_k0<const P: u32>(term: &TermView, f: &Iv<P>) -> K0Answer
    requires lawful { IsLawfulTerm term.now }
    requires in_range { IsForwardInRange P f.now }
    ensures answer { let ends = printed_forward P f.now in
        IsK0Answer term.now.rows.now ends.0 ends.1 result }
    ensures level { (forward : Fraction) → IsMember P f.now forward
        → SaysOfForward term.now.rows.now forward result }
{
    let (lo, hi) = forward_ends(f);
    k0_between(term.rows, lo, hi)
}

/// What two printed ends say of the level.
fn k0_between(rows: &[StrikeRow], lo: i128, hi: i128) -> K0Answer
    requires { AreLawfulRows rows.now }
    ensures { IsK0Answer rows.now lo hi result }
{
    let above = first_above(rows, lo);
    if above < rows.len() && is_at_most(rows[above].strike, hi) {
        let strike = rows[above].strike;
        return K0Answer::Straddle { strike, lo, hi };
    }
    if above == 0 {
        return K0Answer::NoStrikeBelow;
    }
    let level = above - 1;
    if above < rows.len() && rows[above].strike <= 2 * rows[level].strike {
        K0Answer::At(level)
    } else {
        K0Answer::NoStrikeAbove(level)
    }
}

/// The place of the first row whose strike is above an end; the number of rows where none is.
fn first_above(rows: &[StrikeRow], end: i128) -> usize
    requires { AreLawfulRows rows.now }
    ensures within { result ≤ length rows.now }
    ensures split { IsPartitionPoint (λ row. in_units row.strike ≤ℤ end)
        (λ row. end <ℤ in_units row.strike) rows.now result }
{
    rows.partition_point(|row| is_at_most(row.strike, end))
}

/// The strike, in thousandths of a point, is at most an end in units of `10^-12` point.
fn is_at_most(strike: u32, end: i128) -> bool
    ensures { result ≡ int_le (in_units strike) end }
{
    i128::from(strike) * FORWARD_UNITS as i128 <= end
}
