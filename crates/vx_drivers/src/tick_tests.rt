//! Runs by ticks over what gives each line behind the header its number.

ghost use Rattle.std.proofs.Common.{sym, ◌∙◌};
ghost use Rattle.std.specs.Prelude.{◌≡◌, ◌≤◌, ◌==◌, ◌∷◌, ◌++◌, ℕ, [], length, Some, None, if◌then◌else◌};
ghost use Rattle.vx_num.specs.Written.{decimal_text};

use crate::text::{push_number, push_text};
use crate::{AnswersTicks, Exit, FeedCause, TakesEvents, Tally, answer_ticks, tick_run_is_one};
use std::alloc::Global;
use std::process::Abort;
use std::test::Fail;
use vx_desk::{Desk, MemDesk, Slot};
use vx_feed::{Event, FeedFault};
use vx_num::NoMemory;

/// Takes each line behind the header for a tick that is given six answers.
#[derive(Drop)]
struct LineNumbers {
    alloc: Global,
    lines: u64,
}

impl TakesEvents for LineNumbers {
    ghost StandsFor = { λ numbers events. numbers.lines ≡ length events };

    fn take(&mut self, _event: Event) -> Result<(), NoMemory> {
        if self.lines == u64::MAX {
            return Err(NoMemory);
        }
        self.lines += 1;
        Ok(())
    }
}

impl AnswersTicks for LineNumbers {
    ghost Answer = { ℕ };

    ghost rules = { record {
      IsGiven = λ events said. said ≡ (if length events == 1 then None else Some (length events));
      certificate = λ number. 99 ∷ decimal_text number 0 ++ 10 ∷ [];
      line = λ number. decimal_text number 0 ++ 10 ∷ [];
      tally = λ number. record { published = 1; undecided = 2; refused = 3 };
    } };

    fn answer(
        &self,
        certificate: &mut Vec<u8>,
        line: &mut Vec<u8>,
    ) -> Result<Option<Tally>, NoMemory> {
        if self.lines == 1 {
            return Ok(None);
        }
        push_text(certificate, "c")?;
        push_number(self.alloc, certificate, self.lines)?;
        push_text(certificate, "\n")?;
        push_number(self.alloc, line, self.lines)?;
        push_text(line, "\n")?;
        Ok(Some(Tally {
            published: 1,
            undecided: 2,
            refused: 3,
        }))
    }

    ghost gives_one = { λ events a b h k. h ∙ sym k };
}

/// A run: the feed, the calls that fail, how it ends, and what it sends.
#[derive(Drop)]
struct Case {
    feed: &'static str,
    fails: &'static [u64],
    exit: Exit,
    out: &'static str,
    certs: &'static str,
}

const FEED: &str = "H,1,2014-09-17\nV,08:30\nV,08:31\nEND,2\n";

fn expect_run(rt: &impl Abort, alloc: Global, most: usize, case: &Case) -> Result<(), Fail>
    requires { 1 ≤ most }
{
    let mut desk = MemDesk::new(alloc, 100, most, case.fails)?;
    desk.add_file("feed", case.feed.as_bytes())?;
    desk.add_file("certs", &[])?;
    desk.open(Slot::Feed, "feed")?;
    desk.open(Slot::Certs, "certs")?;
    let numbers = LineNumbers { alloc, lines: 0 };
    tick_run_is_one(&numbers);
    let exit = answer_ticks(alloc, numbers, &mut desk);
    assert_eq!(rt; exit, case.exit);
    assert_eq!(rt; desk.sent(Slot::Out), case.out.as_bytes());
    assert_eq!(rt; desk.sent(Slot::Certs), case.certs.as_bytes());
    Ok(())
}

/// A run over the feed with no bad line, of whose calls one fails.
fn expect_cut(
    rt: &impl Abort,
    alloc: Global,
    fails: &'static [u64],
    exit: Exit,
    out: &'static str,
    certs: &'static str,
) -> Result<(), Fail> {
    let case = Case {
        feed: FEED,
        fails,
        exit,
        out,
        certs,
    };
    expect_run(rt, alloc, 1000, &case)
}

#[test]
fn answers_each_tick(rt: HostRuntime) -> Result<(), Fail> {
    let case = Case {
        feed: FEED,
        fails: &[],
        exit: Exit::Done,
        out: "2\n3\n4\nEND,18,3,6,9\n",
        certs: "c2\nc3\nc4\n",
    };
    expect_run(&rt, rt.alloc(), 1000, &case)?;
    expect_run(&rt, rt.alloc(), 1, &case)
}

#[test]
fn answers_the_ticks_before_a_bad_line(rt: HostRuntime) -> Result<(), Fail> {
    let case = Case {
        feed: "H,1,2014-09-17\nV,08:30\nX\nEND,2\n",
        fails: &[],
        exit: Exit::BadFeed {
            line: 3,
            cause: FeedCause::Event(FeedFault::Kind),
        },
        out: "2\n",
        certs: "c2\n",
    };
    expect_run(&rt, rt.alloc(), 1000, &case)
}

#[test]
fn is_cut_off_by_a_failed_call(rt: HostRuntime) -> Result<(), Fail> {
    let out = Exit::WriteFault { slot: Slot::Out };
    let certs = Exit::WriteFault { slot: Slot::Certs };
    let feed = Exit::ReadFault { slot: Slot::Feed };
    expect_cut(&rt, rt.alloc(), &[3], feed, "", "")?;
    expect_cut(&rt, rt.alloc(), &[5], out, "", "c2\n")?;
    expect_cut(&rt, rt.alloc(), &[6], certs, "2\n", "c2\n")?;
    expect_cut(&rt, rt.alloc(), &[10], feed, "2\n3\n4\n", "c2\nc3\nc4\n")?;
    expect_cut(&rt, rt.alloc(), &[11], out, "2\n3\n4\n", "c2\nc3\nc4\n")
}
