//! Symbols of option series, read and written.

ghost use Rattle.std.specs.Prelude.{◌≡◌, ◌≤◌, length, slice_index, bytes_eq, IfOk, IfSome};
ghost use Rattle.vx_clock.specs.Day.{IsDayInRange};
ghost use Rattle.vx_clock.specs.declared.terms.Root.TheVariants as root;
ghost use Rattle.vx_symbol.specs.Symbol.{IsSymbolInRange, IsStrikeInRange, root_text, side_byte, root_of, date_of_digits, side_of, strike_of, symbol_of_text};
ghost use Rattle.vx_symbol.specs.SymbolText.{symbol_text};

use crate::limits::{STRIKE_MAX, STRIKE_MIN, SYMBOL_LEN};
use thiserror::Error;
use vx_clock::digits::{self, digit};
use vx_clock::limits::YEAR_MIN;
use vx_clock::{DayNo, Root, date_of, day_of};

/// Which side of a strike a series is.
#[derive(Clone, Copy, Debug, PartialEq, Eq, Hash)]
pub enum Side {
    Call,
    Put,
}

/// A series of options.
#[derive(Clone, Copy, Debug, PartialEq, Eq, Hash)]
pub struct Symbol {
    pub root: Root,
    /// The day on which the series settles.
    pub date: DayNo,
    pub side: Side,
    /// In thousandths of a point.
    pub strike: u32,
}

/// Why bytes are no symbol. Where several causes hold, the first in this order is named.
#[derive(Clone, Copy, Debug, PartialEq, Eq, Error)]
pub enum SymbolFault {
    /// There are not 21 bytes.
    #[error("not 21 bytes")]
    Length,
    /// The first six bytes are no root, padded with spaces on its right.
    #[error("no such root")]
    Root,
    /// The next six are not the digits `yymmdd` of a day of 20yy.
    #[error("no such day")]
    Date,
    /// The next one is neither `C` nor `P`.
    #[error("neither call nor put")]
    Side,
    /// The last eight are not the digits of a strike from 100 to 50,000 points.
    #[error("no strike in range")]
    Strike,
}

/// The series that a symbol of 21 bytes names.
///
/// A symbol is a root padded with spaces on its right to six bytes, the digits `yymmdd` of a day of
/// 20yy, `C` or `P`, and eight digits of strike in thousandths of a point, as the Options Clearing
/// Corporation writes it. Takes no memory.
pub fn read_symbol(bytes: &[u8]) -> Result<Symbol, SymbolFault>
    ensures value { result ≡ symbol_of_text bytes.now }
    ensures in_range { IfOk result IsSymbolInRange }
{
    if bytes.len() != SYMBOL_LEN {
        return Err(SymbolFault::Length);
    }
    let root = read_root(&bytes[..6]).ok_or(SymbolFault::Root)?;
    let date = read_date(&bytes[6..12]).ok_or(SymbolFault::Date)?;
    let side = read_side(bytes[12]).ok_or(SymbolFault::Side)?;
    let strike = read_strike(&bytes[13..21]).ok_or(SymbolFault::Strike)?;
    Ok(Symbol {
        root,
        date,
        side,
        strike,
    })
}

/// The 21 bytes that name a series. [`read_symbol`] reads them back.
///
/// The day is of the years 2000 to 2099, and the strike from 100 to 50,000 points.
pub fn write_symbol(s: &Symbol) -> [u8; SYMBOL_LEN]
    requires { IsSymbolInRange s.now }
    ensures text { result ≡ symbol_text s.now }
    ensures read_back { symbol_of_text result ≡ Ok s.now }
{
    let (year, month, day) = date_of(s.date);
    let year = year - YEAR_MIN;
    [
        b'S',
        b'P',
        b'X',
        root_mark(s.root),
        b' ',
        b' ',
        digit(year, 10),
        digit(year, 1),
        digit(month, 10),
        digit(month, 1),
        digit(day, 10),
        digit(day, 1),
        side_mark(s.side),
        digit(s.strike, 10_000_000),
        digit(s.strike, 1_000_000),
        digit(s.strike, 100_000),
        digit(s.strike, 10_000),
        digit(s.strike, 1000),
        digit(s.strike, 100),
        digit(s.strike, 10),
        digit(s.strike, 1),
    ]
}

/// The byte in which the two roots differ.
fn root_mark(root: Root) -> u8
    ensures { result ≡ slice_index (root_text root) 3 }
{
    match root {
        Root::Spx => b' ',
        Root::Spxw => b'W',
    }
}

fn side_mark(side: Side) -> u8
    ensures { result ≡ side_byte side }
{
    match side {
        Side::Call => b'C',
        Side::Put => b'P',
    }
}

fn is_spx(text: &[u8]) -> bool
    ensures { result ≡ bytes_eq text.now (root_text root.Spx) }
{
    matches!(text, [b'S', b'P', b'X', b' ', b' ', b' '])
}

fn is_spxw(text: &[u8]) -> bool
    ensures { result ≡ bytes_eq text.now (root_text root.Spxw) }
{
    matches!(text, [b'S', b'P', b'X', b'W', b' ', b' '])
}

fn read_root(text: &[u8]) -> Option<Root>
    ensures { result ≡ root_of text.now }
{
    if is_spx(text) {
        Some(Root::Spx)
    } else if is_spxw(text) {
        Some(Root::Spxw)
    } else {
        None
    }
}

fn read_date(text: &[u8]) -> Option<DayNo>
    requires { length text.now ≡ 6 }
    ensures value { result ≡ date_of_digits text.now }
    ensures in_range { IfSome result IsDayInRange }
{
    let year = digits::number(&text[..2])?;
    let month = digits::number(&text[2..4])?;
    let day = digits::number(&text[4..6])?;
    day_of(YEAR_MIN + year, month, day).ok()
}

fn read_side(byte: u8) -> Option<Side>
    ensures { result ≡ side_of byte }
{
    match byte {
        b'C' => Some(Side::Call),
        b'P' => Some(Side::Put),
        _ => None,
    }
}

fn read_strike(text: &[u8]) -> Option<u32>
    requires { length text.now ≤ 8 }
    ensures value { result ≡ strike_of text.now }
    ensures in_range { IfSome result IsStrikeInRange }
{
    let strike = digits::number(text)?;
    if strike < STRIKE_MIN || strike > STRIKE_MAX {
        return None;
    }
    Some(strike)
}
