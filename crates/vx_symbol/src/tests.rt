//! Symbols that are read and written, and bytes that are none.

use super::*;
use vx_clock::{DayNo, Root};

fn symbol(root: Root, day: i32, side: Side, strike: u32) -> Symbol {
    Symbol {
        root,
        date: DayNo(day),
        side,
        strike,
    }
}

// The day numbers are those of Python's `datetime`: `(date(y, m, d) - date(1970, 1, 1)).days`.
#[test]
fn symbols_are_read_and_written(rt: HostRuntime) {
    for (text, want) in [
        (
            "SPX   141017C01900000",
            symbol(Root::Spx, 16_360, Side::Call, 1_900_000),
        ),
        (
            "SPXW  141024P00100000",
            symbol(Root::Spxw, 16_367, Side::Put, 100_000),
        ),
        (
            "SPXW  991231C50000000",
            symbol(Root::Spxw, 47_481, Side::Call, 50_000_000),
        ),
        (
            "SPX   000229P04567250",
            symbol(Root::Spx, 11_016, Side::Put, 4_567_250),
        ),
    ] {
        let read = read_symbol(text.as_bytes());
        assert_eq!(rt; read, Ok(want), "{text}");
        if let Ok(series) = read {
            assert_eq!(rt; write_symbol(&series).as_slice(), text.as_bytes(), "{text}");
        }
    }
}

#[test]
fn other_symbols_are_refused(rt: HostRuntime) {
    for (text, fault) in [
        ("", SymbolFault::Length),
        ("SPX  141017C01900000", SymbolFault::Length),
        ("SPX   141317C01900000", SymbolFault::Date),
        ("SPX   010229C01900000", SymbolFault::Date),
        ("SPX   14101xC01900000", SymbolFault::Date),
        (" SPX  141017C01900000", SymbolFault::Root),
        ("spx   141017C01900000", SymbolFault::Root),
        ("SPXWW 141017C01900000", SymbolFault::Root),
        ("SPX  1141317X00000000", SymbolFault::Root),
        ("SPX   141017c01900000", SymbolFault::Side),
        ("SPX   141017C 1900000", SymbolFault::Strike),
        ("SPX   141017C00099999", SymbolFault::Strike),
        ("SPX   141017C50000001", SymbolFault::Strike),
    ] {
        assert_eq!(rt; read_symbol(text.as_bytes()), Err(fault), "{text}");
    }
}
