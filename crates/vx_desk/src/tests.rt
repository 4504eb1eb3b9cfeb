//! Lines and pieces over desks in memory, with reads and writes that are short or fail.

ghost use Rattle.std.specs.Prelude.{◌≡◌, ◌≤◌, IsTrue};
ghost use Rattle.vx_desk.specs.Slots.{IsReadingSlot};

use crate::{Desk, Failed, LF, LineReader, MemDesk, ReadFault, RealDesk, SendFault, Slot, send};
use std::alloc::Global;
use std::process::Abort;
use std::test::Fail;
use std::{fs, process};

/// Asserts which line comes next.
fn expect_line<D: Desk>(
    rt: &impl Abort,
    reader: &mut LineReader,
    desk: &mut D,
    number: u64,
    bytes: &[u8],
)
    requires reading { IsReadingSlot reader.old.slot }
    requires open { IsTrue (D.told desk.old reader.old.slot).is_open }
    ensures slot { reader.new.slot ≡ reader.old.slot }
    ensures open { IsTrue (D.told desk.new reader.old.slot).is_open }
{
    match reader.next(desk) {
        Ok(Some(line)) => {
            assert_eq!(rt; line.number, number);
            assert_eq!(rt; reader.bytes(&line), bytes);
        }
        _ => panic!(rt; "no line"),
    }
}

fn reads_pieces(rt: &impl Abort, alloc: Global, most: usize) -> Result<(), Fail>
    requires { 1 ≤ most }
{
    let mut desk = MemDesk::new(alloc, 0, most, &[])?;
    desk.add_file("feed", b"another text\n")?;
    desk.add_file("feed", b"ab\n\ncdefg\nh")?;
    desk.open(Slot::Feed, "feed")?;
    let mut reader = LineReader::new(alloc, Slot::Feed, 5)?;
    expect_line(rt, &mut reader, &mut desk, 1, b"ab");
    expect_line(rt, &mut reader, &mut desk, 2, b"");
    expect_line(rt, &mut reader, &mut desk, 3, b"cdefg");
    assert_eq!(rt; reader.next(&mut desk), Err(ReadFault::NoEol { number: 4 }));
    assert_eq!(rt; reader.next(&mut desk), Ok(None));
    Ok(())
}

#[test]
fn cuts_lines_however_reads_are_cut(rt: HostRuntime) -> Result<(), Fail> {
    reads_pieces(&rt, rt.alloc(), 1)?;
    reads_pieces(&rt, rt.alloc(), 2)?;
    reads_pieces(&rt, rt.alloc(), 3)?;
    reads_pieces(&rt, rt.alloc(), 7)
}

#[test]
fn takes_a_long_line_by_single_bytes(rt: HostRuntime) -> Result<(), Fail> {
    let line = vec![in rt.alloc(); b'a'; 131_072]?;
    let mut text = Vec::from_slice(rt.alloc(), &line)?;
    text.push(LF)?;
    let mut desk = MemDesk::new(rt.alloc(), 0, 1, &[])?;
    desk.add_file("feed", &text)?;
    desk.open(Slot::Feed, "feed")?;
    let mut reader = LineReader::new(rt.alloc(), Slot::Feed, 131_072)?;
    assert!(rt; !reader.holds_line());
    expect_line(&rt, &mut reader, &mut desk, 1, &line);
    assert_eq!(rt; reader.next(&mut desk), Ok(None));
    Ok(())
}

#[test]
fn says_which_lines_are_in_hand(rt: HostRuntime) -> Result<(), Fail> {
    let mut desk = MemDesk::new(rt.alloc(), 0, 6, &[])?;
    desk.add_file("feed", b"a\nb\ncdefg\n")?;
    desk.open(Slot::Feed, "feed")?;
    let mut reader = LineReader::new(rt.alloc(), Slot::Feed, 4)?;
    expect_line(&rt, &mut reader, &mut desk, 1, b"a");
    assert!(rt; reader.holds_line());
    expect_line(&rt, &mut reader, &mut desk, 2, b"b");
    assert!(rt; !reader.holds_line());
    assert_eq!(rt;
        reader.next(&mut desk),
        Err(ReadFault::LineTooLong { number: 3 })
    );
    assert!(rt; !reader.holds_line());
    Ok(())
}

#[test]
fn keeps_bytes_over_a_failed_read(rt: HostRuntime) -> Result<(), Fail> {
    let mut desk = MemDesk::new(rt.alloc(), 0, 2, &[3])?;
    desk.add_file("positions", b"abc\nd\n")?;
    desk.open(Slot::Side, "positions")?;
    let mut reader = LineReader::new(rt.alloc(), Slot::Side, 3)?;
    assert_eq!(rt; reader.next(&mut desk), Err(ReadFault::Device));
    expect_line(&rt, &mut reader, &mut desk, 1, b"abc");
    expect_line(&rt, &mut reader, &mut desk, 2, b"d");
    assert_eq!(rt; reader.next(&mut desk), Ok(None));
    Ok(())
}

#[test]
fn keeps_the_last_line_over_a_failed_read(rt: HostRuntime) -> Result<(), Fail> {
    let mut desk = MemDesk::new(rt.alloc(), 0, 3, &[4])?;
    desk.add_file("feed", b"ab\ncdefg\n")?;
    desk.open(Slot::Feed, "feed")?;
    let mut reader = LineReader::new(rt.alloc(), Slot::Feed, 5)?;
    match reader.next(&mut desk) {
        Ok(Some(line)) => {
            assert_eq!(rt; reader.next(&mut desk), Err(ReadFault::Device));
            assert_eq!(rt; reader.bytes(&line), b"ab".as_slice());
        }
        _ => panic!(rt; "no line"),
    }
    expect_line(&rt, &mut reader, &mut desk, 2, b"cdefg");
    Ok(())
}

#[test]
fn refuses_lines_past_the_limit(rt: HostRuntime) -> Result<(), Fail> {
    let mut desk = MemDesk::new(rt.alloc(), 0, 100, &[])?;
    desk.add_file("feed", b"abcd\nefghi\nj\n")?;
    assert_eq!(rt; desk.open(Slot::Feed, "other"), Err(Failed));
    desk.open(Slot::Feed, "feed")?;
    let mut reader = LineReader::new(rt.alloc(), Slot::Feed, 4)?;
    expect_line(&rt, &mut reader, &mut desk, 1, b"abcd");
    assert_eq!(rt;
        reader.next(&mut desk),
        Err(ReadFault::LineTooLong { number: 2 })
    );
    assert_eq!(rt; reader.next(&mut desk), Ok(None));
    Ok(())
}

#[test]
fn holds_whole_lines_as_one_text(rt: HostRuntime) -> Result<(), Fail> {
    let mut desk = MemDesk::new(rt.alloc(), 0, 100, &[])?;
    desk.add_file("feed", b"ab\ncd\n\nefghij\nk\n")?;
    desk.open(Slot::Feed, "feed")?;
    let mut reader = LineReader::new(rt.alloc(), Slot::Feed, 5)?;
    expect_line(&rt, &mut reader, &mut desk, 1, b"ab");
    assert_eq!(rt; reader.held_text(100), b"cd\n\n".as_slice());
    assert_eq!(rt; reader.held_text(3), b"cd\n".as_slice());
    assert_eq!(rt; reader.held_text(2), b"".as_slice());
    let size = reader.held_text(3).len();
    reader.pass(size, 1);
    expect_line(&rt, &mut reader, &mut desk, 3, b"");
    assert_eq!(rt; reader.held_text(100), b"".as_slice());
    assert_eq!(rt;
        reader.next(&mut desk),
        Err(ReadFault::LineTooLong { number: 4 })
    );
    Ok(())
}

#[test]
fn sends_what_there_is_room_for(rt: HostRuntime) -> Result<(), Fail> {
    let mut desk = MemDesk::new(rt.alloc(), 10, 4, &[])?;
    assert_eq!(rt; send(&mut desk, Slot::Out, b"hello "), Ok(()));
    assert_eq!(rt;
        send(&mut desk, Slot::Out, b"world!"),
        Err(SendFault::Device { sent: 4 })
    );
    assert_eq!(rt; desk.sent(Slot::Out), b"hello worl".as_slice());
    assert_eq!(rt; desk.sent(Slot::Feed), b"".as_slice());
    Ok(())
}

#[test]
fn works_over_files(rt: HostRuntime) -> Result<(), Fail> {
    let alloc = rt.alloc();
    let name = format!(in alloc; "/tmp/vx_desk_{}.txt", process::id(rt.process()))?;
    let mut desk = RealDesk::new(rt.clone()?);
    assert_eq!(rt; desk.open(Slot::Feed, "/tmp/vx_desk/missing"), Err(Failed));
    let mut desk = RealDesk::new(desk.finish());
    desk.open(Slot::Certs, name.as_str())?;
    send(&mut desk, Slot::Certs, b"one\ntwo\n")?;
    send(&mut desk, Slot::Out, b"sent\n")?;
    let mut desk = RealDesk::new(desk.finish());
    desk.open(Slot::Side, name.as_str())?;
    let mut reader = LineReader::new(alloc, Slot::Side, 256)?;
    expect_line(&rt, &mut reader, &mut desk, 1, b"one");
    expect_line(&rt, &mut reader, &mut desk, 2, b"two");
    assert_eq!(rt; reader.next(&mut desk), Ok(None));
    fs::remove_file(&desk.finish(), name.as_str())?;
    Ok(())
}
