//! Inputs that the tests share, and how a run is made.

ghost use Rattle.std.specs.Prelude.{◌≤◌, IfOk};
ghost use Rattle.vx_drivers.specs.Exits.{IsWithoutNoMemory};
ghost use Rattle.vx_desk.specs.Memory.{told_memory};
ghost use Rattle.vx_desk.specs.Told.{OnlyOutIsOpen};

use std::alloc::Global;
use std::process::Abort;
use std::test::Fail;
use vx_cli::{Exit, exit_line, run};
use vx_desk::{Desk, MemDesk, Slot};

// The sample feed of one expiry, in pieces: its first three lines, the six series, the four quotes,
// the tick in line 14, and the last line.
pub(crate) const DECLARED: &str = "H,1,2014-09-17\nE,SPX,2014-10-17\nR,SPX,2014-10-17,0\n";

pub(crate) const LISTED: &str =
    "S,SPX   141017C01900000\nS,SPX   141017P01900000\nS,SPX   141017C02000000\nS,SPX   141017P02000000\nS,SPX   141017C02100000\nS,SPX   141017P02100000\n";

pub(crate) const QUOTED: &str =
    "Q,08:30,SPX   141017P01900000,10.00,10.00\nQ,08:30,SPX   141017C02000000,50.00,50.00\nQ,08:30,SPX   141017P02000000,50.00,50.00\nQ,08:30,SPX   141017C02100000,10.00,10.00\n";

pub(crate) const TICK: &str = "V,08:30\n";

pub(crate) const END: &str = "END,13\n";

/// The whole sample feed.
pub(crate) const FEED: [&str; 5] = [DECLARED, LISTED, QUOTED, TICK, END];

// The same series and quotes of the second expiry.
const LISTED_NEXT: &str =
    "S,SPXW  141024C01900000\nS,SPXW  141024P01900000\nS,SPXW  141024C02000000\nS,SPXW  141024P02000000\nS,SPXW  141024C02100000\nS,SPXW  141024P02100000\n";

const QUOTED_NEXT: &str =
    "Q,08:30,SPXW  141024P01900000,10.00,10.00\nQ,08:30,SPXW  141024C02000000,50.00,50.00\nQ,08:30,SPXW  141024P02000000,50.00,50.00\nQ,08:30,SPXW  141024C02100000,10.00,10.00\n";

/// The sample feed of two expiries, whose tick is in line 26.
pub(crate) const TWO_EXPIRIES: [&str; 7] = [
    "H,1,2014-09-17\nE,SPX,2014-10-17\nE,SPXW,2014-10-24\nR,SPX,2014-10-17,0\nR,SPXW,2014-10-24,0\n",
    LISTED,
    LISTED_NEXT,
    QUOTED,
    QUOTED_NEXT,
    TICK,
    "END,25\n",
];

/// The sample feed whose opening is taken in line 15.
pub(crate) const OPENING_FEED: [&str; 4] = [
    DECLARED,
    LISTED,
    "T,08:30,SPX   141017P01900000,10.00\nT,08:30,SPX   141017C02000000,50.00\nQ,08:30,SPX   141017P02000000,50.00,50.00\nQ,08:30,SPX   141017C02100000,10.00,10.00\nT,08:30,SPX   141017P01900000,12.00\n",
    "Z,08:30\nEND,14\n",
];

/// The certificate of the level at the sample feed's tick.
pub(crate) const LEVEL: &str =
    "{\"date\":\"2014-10-17\",\"k0\":2000000,\"kind\":\"k0\",\"line\":14,\"pair\":[2000000,0],\"root\":\"SPX\",\"time\":\"08:30\",\"v\":1}\n";

/// What `check` sends for this certificate over the sample feed.
pub(crate) const LEVEL_OUT: &str = "YES,1,08:30,2000.000\nEND,1,1,0\n";

/// A certificate of the level that names the line before the tick.
pub(crate) const EARLIER: &str =
    "{\"date\":\"2014-10-17\",\"k0\":2000000,\"kind\":\"k0\",\"line\":13,\"pair\":[2000000,0],\"root\":\"SPX\",\"time\":\"08:30\",\"v\":1}\n";

/// A quarter of the longest feed line.
pub(crate) const LONG: &str = "xxxxxxxxxxxxxxxxxxxxxxxxxxxxxxxxxxxxxxxxxxxxxxxxxxxxxxxxxxxxxxxx";

/// One run of `check`: the pieces of the feed and of the certificates, what it sends, how it ends, and
/// what it then says on standard error.
pub(crate) struct Row {
    pub(crate) feed: &'static [&'static str],
    pub(crate) certs: &'static [&'static str],
    pub(crate) out: &'static str,
    pub(crate) exit: Exit,
    pub(crate) said: &'static str,
}

/// The text that pieces make.
pub(crate) fn joined(alloc: Global, pieces: &[&str]) -> Result<Vec<u8>, Fail> {
    let mut text = Vec::new(alloc);
    for piece in pieces {
        text.extend_from_slice(piece.as_bytes())?;
    }
    Ok(text)
}

/// A desk with a file of a feed, a file of certificates or positions, and an empty file to write.
pub(crate) fn desk_of(
    alloc: Global,
    room: usize,
    most: usize,
    fails: &[u64],
    feed: &[u8],
    certs: &[u8],
) -> Result<MemDesk, Fail>
    requires { 1 ≤ most }
    ensures { IfOk result (λ desk. OnlyOutIsOpen (told_memory desk)) }
{
    let mut desk = MemDesk::new(alloc, room, most, fails)?;
    desk.add_file("feed", feed)?;
    desk.add_file("certificates", certs)?;
    desk.add_file("written", b"")?;
    Ok(desk)
}

/// The words of a command line.
fn words_of(alloc: Global, words: &[&str]) -> Result<Vec<String>, Fail> {
    let mut owned = Vec::new(alloc);
    for word in words {
        owned.push(String::from_str(alloc, word)?)?;
    }
    Ok(owned)
}

/// Runs the command of the words.
pub(crate) fn run_words<D: Desk>(alloc: Global, words: &[&str], desk: &mut D) -> Result<Exit, Fail>
    requires { OnlyOutIsOpen (D.told desk.old) }
    ensures { IfOk result IsWithoutNoMemory }
{
    let words = words_of(alloc, words)?;
    Ok(run(alloc, &words, desk))
}

/// Asserts what a run of `check` sends, how it ends and what it says, where one call of the desk moves
/// at most so many bytes.
pub(crate) fn expect_row(rt: &impl Abort, alloc: Global, most: usize, row: &Row) -> Result<(), Fail>
    requires { 1 ≤ most }
{
    let feed = joined(alloc, row.feed)?;
    let certs = joined(alloc, row.certs)?;
    let mut desk = desk_of(alloc, 1000, most, &[], &feed, &certs)?;
    let exit = run_words(alloc, &["check", "feed", "certificates"], &mut desk)?;
    assert_eq!(rt; exit, row.exit, "where it sends {}", row.out);
    assert_eq!(rt; desk.sent(Slot::Out), row.out.as_bytes(), "{}", row.out);
    assert_eq!(rt; exit_line(alloc, &exit)?.as_slice(), row.said.as_bytes());
    Ok(())
}

/// The same where one call moves 1, 7, 64 or 1000 bytes at most.
pub(crate) fn expect_row_by_pieces(rt: &impl Abort, alloc: Global, row: &Row) -> Result<(), Fail> {
    expect_row(rt, alloc, 1, row)?;
    expect_row(rt, alloc, 7, row)?;
    expect_row(rt, alloc, 64, row)?;
    expect_row(rt, alloc, 1000, row)
}
