//! Lines of a desk in memory, split one after another, however its reads are cut.

ghost use Rattle.std.specs.Prelude.{◌≡◌, ◌≤◌, IsTrue};
ghost use Rattle.vx_blocks.specs.SplitLines.{AreAhead};

use crate::{ReadStop, Rest, SplitLines};
use std::alloc::Global;
use std::process::Abort;
use std::test::Fail;
use vx_desk::{Desk, MemDesk, Slot};
use vx_fields::{Fields, Unsplit};

/// Asserts that a line has just these fields.
fn expect_fields(rt: &impl Abort, split: &Fields<'_>, fields: &[&[u8]]) {
    assert_eq!(rt; split.len(), fields.len());
    for i in 0..fields.len() {
        assert_eq!(rt; split.get(i), Some(fields[i]));
    }
}

/// Asserts which fields the next line has.
fn expect_line<D: Desk>(rt: &impl Abort, lines: &mut SplitLines, desk: &mut D, fields: &[&[u8]])
    requires ahead { AreAhead lines.old }
    requires open { IsTrue (D.told desk.old lines.old.lines.slot).is_open }
    ensures ahead { AreAhead lines.new }
    ensures slot { lines.new.lines.slot ≡ lines.old.lines.slot }
    ensures open { IsTrue (D.told desk.new lines.old.lines.slot).is_open }
{
    match lines.read_on(desk) {
        Ok(()) => {}
        Err(_) => panic!(rt; "no line was read"),
    }
    if !lines.has_line() {
        panic!(rt; "no line");
    }
    expect_fields(rt, &lines.fields(), fields);
    lines.take();
}

/// Asserts what comes in place of a line.
fn expect_rest<D: Desk>(rt: &impl Abort, lines: &mut SplitLines, desk: &mut D, rest: Rest)
    requires ahead { AreAhead lines.old }
    requires open { IsTrue (D.told desk.old lines.old.lines.slot).is_open }
{
    assert_eq!(rt; lines.read_on(desk), Ok(()));
    assert!(rt; !lines.has_line());
    assert_eq!(rt; lines.rest(), rest);
}

#[tactic(auto, using(crate::proofs::FreshLemmas::fresh_ahead))]
fn reads_text(
    rt: &impl Abort,
    alloc: Global,
    most: usize,
    text: &[u8],
    rest: Rest,
) -> Result<(), Fail>
    requires { 1 ≤ most }
{
    let mut desk = MemDesk::new(alloc, 0, most, &[])?;
    desk.add_file("feed", text)?;
    desk.open(Slot::Feed, "feed")?;
    let mut lines = SplitLines::new(alloc, Slot::Feed, 7)?;
    expect_line(rt, &mut lines, &mut desk, &[b"V", b"08:30"]);
    expect_line(rt, &mut lines, &mut desk, &[b"", b"", b""]);
    expect_line(rt, &mut lines, &mut desk, &[b"end"]);
    expect_rest(rt, &mut lines, &mut desk, rest);
    Ok(())
}

#[test]
fn gives_lines_up_to_what_comes_in_their_place(rt: HostRuntime) -> Result<(), Fail> {
    for most in [1, 1000] {
        let alloc = rt.alloc();
        reads_text(&rt, alloc, most, b"V,08:30\n,,\nend\n", Rest::End)?;
        let empty = b"V,08:30\n,,\nend\n\na\n";
        reads_text(&rt, alloc, most, empty, Rest::Unsplit(Unsplit::Empty))?;
        let tab = b"V,08:30\n,,\nend\na\tb\nc\n";
        reads_text(&rt, alloc, most, tab, Rest::Unsplit(Unsplit::Byte))?;
        let long = b"V,08:30\n,,\nend\n01234567\na\n";
        reads_text(&rt, alloc, most, long, Rest::TooLong)?;
        reads_text(&rt, alloc, most, b"V,08:30\n,,\nend\ncut", Rest::NoEol)?;
    }
    Ok(())
}

#[test]
#[tactic(auto, using(crate::proofs::FreshLemmas::fresh_ahead))]
fn reads_on_after_a_fault(rt: HostRuntime) -> Result<(), Fail> {
    let mut desk = MemDesk::new(rt.alloc(), 0, 5, &[3])?;
    desk.add_file("positions", b"a,b\nc,d\n")?;
    desk.open(Slot::Side, "positions")?;
    let mut lines = SplitLines::new(rt.alloc(), Slot::Side, 7)?;
    expect_line(&rt, &mut lines, &mut desk, &[b"a", b"b"]);
    match lines.read_on(&mut desk) {
        Err(ReadStop::Device) => {}
        _ => panic!(rt; "the read did not fail"),
    }
    expect_line(&rt, &mut lines, &mut desk, &[b"c", b"d"]);
    expect_rest(&rt, &mut lines, &mut desk, Rest::End);
    Ok(())
}
