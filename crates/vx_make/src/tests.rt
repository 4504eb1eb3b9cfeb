//! The first and the last lines of a sample feed, and its pieces.

use super::*;
use std::test::Fail;

const FIRST_LINES: &str = "\
    H,1,2014-09-22\nE,SPX,2014-10-17\nE,SPXW,2014-10-24\n\
    R,SPX,2014-10-17,0.030500\nR,SPXW,2014-10-24,0.028600\n\
    S,SPX   141017C01500000\nS,SPX   141017P01500000\nS,SPX   141017C01505000\n";

const FIRST_QUOTES: &str = "\
    S,SPXW  141024P02495000\n\
    Q,08:30,SPX   141017C01500000,450.02,450.11\n\
    Q,08:30,SPX   141017P01500000,0.02,0.07\n";

const LAST_LINES: &str = "V,08:30\nEND,1605\n";

#[test]
fn a_feed_is_made(rt: HostRuntime) -> Result<(), Fail> {
    let feed = make_feed(rt.alloc(), 0, 1)?;
    let text = str::from_utf8(&feed)?;
    assert_eq!(rt; text.lines().count(), 1_607);
    assert!(rt; text.starts_with(FIRST_LINES));
    assert!(rt; text.contains(FIRST_QUOTES));
    assert!(rt; text.ends_with(LAST_LINES));
    Ok(())
}

#[test]
fn the_pieces_are_the_feed(rt: HostRuntime) -> Result<(), Fail> {
    let feed = make_feed(rt.alloc(), 7, 2)?;
    let mut pieces = SampleFeed::new(rt.alloc(), 7, 2)?;
    let mut text = Vec::new(rt.alloc());
    text.extend_from_slice(pieces.head())?;
    pieces.make_tick();
    text.extend_from_slice(pieces.tick_lines())?;
    pieces.make_tick();
    text.extend_from_slice(pieces.tick_lines())?;
    text.extend_from_slice(pieces.last_line())?;
    assert!(rt; text == feed);
    Ok(())
}
