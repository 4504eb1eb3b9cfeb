//! Runs by positions over what answers the opening with how many lines the feed has, and says of each line of
//! positions how many fields it has.

ghost use Rattle.std.proofs.Common.{sym, ap, ◌∙◌};
ghost use Rattle.std.specs.Prelude.{◌≡◌, ◌≤◌, ◌∷◌, ◌++◌, ℕ, [], length, Ok};
ghost use Rattle.vx_drivers.specs.PositionRun.{said_unless};
ghost use Rattle.vx_fields.specs.Lines.{fields_of_line};
ghost use Rattle.vx_settle.specs.Form.{unsplit_fault};
ghost use Rattle.vx_num.specs.Written.{decimal_text};

use crate::text::{push_number, push_text};
use crate::{
    AnswersOpening, Exit, FeedCause, PositionCause, SettlesPositions, TakesEvents,
    position_run_is_one, settle_positions,
};
use std::alloc::Global;
use std::process::Abort;
use std::test::Fail;
use vx_desk::{Desk, MemDesk, Slot};
use vx_feed::{Event, FeedFault};
use vx_fields::Fields;
use vx_num::NoMemory;
use vx_settle::PositionFault;

/// How many lines a feed has.
#[derive(Drop)]
struct FeedLines {
    alloc: Global,
    lines: u64,
}

impl TakesEvents for FeedLines {
    ghost StandsFor = { λ feed events. feed.lines ≡ length events };

    fn take(&mut self, _event: Event) -> Result<(), NoMemory> {
        if self.lines == u64::MAX {
            return Err(NoMemory);
        }
        self.lines += 1;
        Ok(())
    }
}

impl AnswersOpening for FeedLines {
    type Sheet = FieldCounts;

    fn answer_opening(
        &self,
        certificate: &mut Vec<u8>,
        line: &mut Vec<u8>,
    ) -> Result<FieldCounts, NoMemory> {
        push_text(certificate, "c")?;
        push_number(self.alloc, certificate, self.lines)?;
        push_text(certificate, "\n")?;
        push_number(self.alloc, line, self.lines)?;
        push_text(line, "\n")?;
        Ok(FieldCounts {
            alloc: self.alloc,
            feed_lines: self.lines,
        })
    }
}

/// Takes each line that can be split for a position.
#[derive(Drop)]
struct FieldCounts {
    alloc: Global,
    feed_lines: u64,
}

impl SettlesPositions for FieldCounts {
    ghost Answer = { ℕ };

    ghost Item = { ℕ };

    ghost rules = { record {
      IsOpening = λ events answer. answer ≡ length events;
      certificate = λ answer. 99 ∷ decimal_text answer 0 ++ 10 ∷ [];
      line = λ answer. decimal_text answer 0 ++ 10 ∷ [];
      ComesTo = λ answer text said. said ≡ said_unless (unsplit_fault text) (Ok (length (fields_of_line text)));
      item_line = λ number item. decimal_text number 0 ++ 44 ∷ decimal_text item 0 ++ 10 ∷ [];
      last_lines = λ answer items. 61 ∷ decimal_text (length items) 0 ++ 10 ∷ [];
    } };

    ghost StandsAt = { λ sheet answer items. sheet.feed_lines ≡ answer };

    fn settle(
        &mut self,
        count: u64,
        fields: &Fields<'_>,
        line: &mut Vec<u8>,
    ) -> Result<Option<PositionFault>, NoMemory> {
        push_number(self.alloc, line, count + 1)?;
        push_text(line, ",")?;
        push_number(self.alloc, line, fields.len() as u64)?;
        push_text(line, "\n")?;
        Ok(None)
    }

    fn end(&self, count: u64, line: &mut Vec<u8>) -> Result<(), NoMemory> {
        push_text(line, "=")?;
        push_number(self.alloc, line, count)?;
        push_text(line, "\n")
    }

    ghost none_unsplit = { λ answer text fault is. ap (λ why. said_unless why (Ok (length (fields_of_line text)))) (sym is) };

    ghost opens_one = { λ events a b h k. h ∙ sym k };

    ghost comes_to_one = { λ answer text a b h k. h ∙ sym k };
}

/// A run: the feed, the positions, the calls that fail, how it ends, and what it sends.
#[derive(Drop)]
struct Case {
    feed: &'static str,
    positions: &'static str,
    fails: &'static [u64],
    exit: Exit,
    out: &'static str,
    certs: &'static str,
}

const FEED: &str = "H,1,2014-09-17\nV,08:30\nEND,1\n";

const POSITIONS: &str = "a,b,c\nd\n";

fn expect_run(rt: &impl Abort, alloc: Global, most: usize, case: &Case) -> Result<(), Fail>
    requires { 1 ≤ most }
{
    let mut desk = MemDesk::new(alloc, 100, most, case.fails)?;
    desk.add_file("feed", case.feed.as_bytes())?;
    desk.add_file("positions", case.positions.as_bytes())?;
    desk.add_file("certs", &[])?;
    desk.open(Slot::Feed, "feed")?;
    desk.open(Slot::Side, "positions")?;
    desk.open(Slot::Certs, "certs")?;
    position_run_is_one(&FieldCounts {
        alloc,
        feed_lines: 0,
    });
    let exit = settle_positions(alloc, FeedLines { alloc, lines: 0 }, &mut desk);
    assert_eq!(rt; exit, case.exit);
    assert_eq!(rt; desk.sent(Slot::Out), case.out.as_bytes());
    assert_eq!(rt; desk.sent(Slot::Certs), case.certs.as_bytes());
    Ok(())
}

/// A run with no bad line, of whose calls one fails.
fn expect_cut(
    rt: &impl Abort,
    alloc: Global,
    fails: &'static [u64],
    exit: Exit,
    out: &'static str,
    certs: &'static str,
) -> Result<(), Fail> {
    let case = Case {
        feed: FEED,
        positions: POSITIONS,
        fails,
        exit,
        out,
        certs,
    };
    expect_run(rt, alloc, 1000, &case)
}

#[test]
fn settles_each_position(rt: HostRuntime) -> Result<(), Fail> {
    let case = Case {
        feed: FEED,
        positions: POSITIONS,
        fails: &[],
        exit: Exit::Done,
        out: "3\n1,3\n2,1\n=2\n",
        certs: "c3\n",
    };
    expect_run(&rt, rt.alloc(), 1000, &case)?;
    expect_run(&rt, rt.alloc(), 1, &case)
}

#[test]
fn stops_at_a_bad_line(rt: HostRuntime) -> Result<(), Fail> {
    let bad_feed = Case {
        feed: "H,1,2014-09-17\nX\nEND,1\n",
        positions: "\n",
        fails: &[],
        exit: Exit::BadFeed {
            line: 2,
            cause: FeedCause::Event(FeedFault::Kind),
        },
        out: "",
        certs: "",
    };
    expect_run(&rt, rt.alloc(), 1000, &bad_feed)?;
    let bad_position = Case {
        feed: FEED,
        positions: "a,b,c\n\nd",
        fails: &[],
        exit: Exit::BadPositions {
            line: 2,
            cause: PositionCause::Fault(PositionFault::Fields),
        },
        out: "3\n1,3\n",
        certs: "c3\n",
    };
    expect_run(&rt, rt.alloc(), 1000, &bad_position)?;
    let no_line_feed = Case {
        feed: FEED,
        positions: "a,b,c\nd",
        fails: &[],
        exit: Exit::BadPositions {
            line: 2,
            cause: PositionCause::NoEol,
        },
        out: "3\n1,3\n",
        certs: "c3\n",
    };
    expect_run(&rt, rt.alloc(), 1000, &no_line_feed)
}

#[test]
fn is_cut_off_by_a_failed_call(rt: HostRuntime) -> Result<(), Fail> {
    let feed = Exit::ReadFault { slot: Slot::Feed };
    let side = Exit::ReadFault { slot: Slot::Side };
    let out = Exit::WriteFault { slot: Slot::Out };
    let certs = Exit::WriteFault { slot: Slot::Certs };
    expect_cut(&rt, rt.alloc(), &[4], feed, "", "")?;
    expect_cut(&rt, rt.alloc(), &[6], certs, "", "")?;
    expect_cut(&rt, rt.alloc(), &[7], out, "", "c3\n")?;
    expect_cut(&rt, rt.alloc(), &[8], side, "3\n", "c3\n")?;
    expect_cut(&rt, rt.alloc(), &[9], out, "3\n", "c3\n")?;
    expect_cut(&rt, rt.alloc(), &[10], side, "3\n1,3\n2,1\n", "c3\n")?;
    expect_cut(&rt, rt.alloc(), &[11], out, "3\n1,3\n2,1\n", "c3\n")
}

#[test]
fn sends_a_first_part_of_lines_that_were_split_together(rt: HostRuntime) -> Result<(), Fail> {
    let case = Case {
        feed: FEED,
        positions: POSITIONS,
        fails: &[16],
        exit: Exit::WriteFault { slot: Slot::Out },
        out: "3\n1,3\n2",
        certs: "c3\n",
    };
    expect_run(&rt, rt.alloc(), 5, &case)
}
