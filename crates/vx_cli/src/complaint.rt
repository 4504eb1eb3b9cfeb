//! The line for standard error that says why a run ended.

ghost use Rattle.std.specs.Prelude.{◌≡◌, ◌++◌, IfOk, OnOk};
ghost use Rattle.vx_drivers.specs.Exits.{IsWithoutNoMemory};
ghost use Rattle.vx_cli.specs.ExitText.{bad_certs_text, bad_feed_text, bad_positions_text, complaint, exit_text, failed_call_text, feed_fault_word, feed_word, field_word, line_word, place, position_fault_word, position_word, slot_word};

use std::alloc::Global;
use vx_desk::Slot;
use vx_drivers::text::{push_number, push_text};
use vx_drivers::{Exit, FeedCause, LineCause, PositionCause};
use vx_feed::FeedFault;
use vx_num::NoMemory;
use vx_settle::PositionFault;

fn slot_word(slot: Slot) -> &'static str
    ensures { result.now ≡ slot_word slot }
{
    match slot {
        Slot::Feed => "feed",
        Slot::Side => "side",
        Slot::Out => "out",
        Slot::Certs => "certs",
    }
}

fn line_word(cause: LineCause) -> &'static str
    ensures { result.now ≡ line_word cause }
{
    match cause {
        LineCause::TooLong => "too-long",
        LineCause::NoEol => "no-eol",
        LineCause::TooMany => "too-many",
    }
}

/// Appends the word for a field that is not of its form or range.
pub(crate) fn push_field_word(alloc: Global, line: &mut Vec<u8>, field: u32) -> Result<(), NoMemory>
    ensures { OnOk result (line.new.items ≡ line.old.items ++ field_word field) }
{
    push_text(line, "field-")?;
    push_number(alloc, line, field as u64)
}

fn push_feed_fault(alloc: Global, line: &mut Vec<u8>, fault: FeedFault) -> Result<(), NoMemory>
    ensures { OnOk result (line.new.items ≡ line.old.items ++ feed_fault_word fault) }
{
    let word = match fault {
        FeedFault::NoMemory => "",
        FeedFault::Byte => "byte",
        FeedFault::Kind => "kind",
        FeedFault::Fields => "fields",
        FeedFault::Field(field) => return push_field_word(alloc, line, field),
        FeedFault::NotFirst => "not-first",
        FeedFault::AfterEnd => "after-end",
        FeedFault::TimeBack => "time-back",
        FeedFault::DuplicateExpiry => "duplicate-expiry",
        FeedFault::DuplicateSeries => "duplicate-series",
        FeedFault::UndeclaredExpiry => "undeclared-expiry",
        FeedFault::TooMany => "too-many",
        FeedFault::EndCount => "end-count",
        FeedFault::TimeRange => "time-range",
        FeedFault::SecondOpening => "second-opening",
    };
    push_text(line, word)
}

fn push_feed_word(alloc: Global, line: &mut Vec<u8>, cause: FeedCause) -> Result<(), NoMemory>
    ensures { OnOk result (line.new.items ≡ line.old.items ++ feed_word cause) }
{
    match cause {
        FeedCause::Event(fault) => push_feed_fault(alloc, line, fault),
        FeedCause::TooLong => push_text(line, "too-long"),
        FeedCause::NoEol => push_text(line, "no-eol"),
        FeedCause::MissingEnd => push_text(line, "missing-end"),
    }
}

fn push_position_word(
    alloc: Global,
    line: &mut Vec<u8>,
    cause: PositionCause,
) -> Result<(), NoMemory>
    ensures { OnOk result (line.new.items ≡ line.old.items ++ position_word cause) }
{
    let word = match cause {
        PositionCause::Fault(PositionFault::NoMemory) => "",
        PositionCause::Fault(PositionFault::Byte) => "byte",
        PositionCause::Fault(PositionFault::Fields) => "fields",
        PositionCause::Fault(PositionFault::Field(field)) => {
            return push_field_word(alloc, line, field);
        }
        PositionCause::TooLong => "too-long",
        PositionCause::NoEol => "no-eol",
        PositionCause::TooMany => "too-many",
    };
    push_text(line, word)
}

/// Appends which line of which input is bad, up to the word that says why.
fn push_place(alloc: Global, line: &mut Vec<u8>, input: &str, number: u64) -> Result<(), NoMemory>
    ensures { OnOk result (line.new.items ≡ line.old.items ++ place input.now number) }
{
    push_text(line, input)?;
    push_text(line, " line ")?;
    push_number(alloc, line, number)?;
    push_text(line, ": ")
}

/// Appends which call of which slot failed.
fn push_failed_call(line: &mut Vec<u8>, call: &str, slot: Slot) -> Result<(), NoMemory>
    ensures { OnOk result (line.new.items ≡ line.old.items ++ failed_call_text call.now slot) }
{
    push_text(line, "cannot ")?;
    push_text(line, call)?;
    push_text(line, " ")?;
    push_text(line, slot_word(slot))
}

fn push_bad_feed(
    alloc: Global,
    line: &mut Vec<u8>,
    number: u64,
    cause: FeedCause,
) -> Result<(), NoMemory>
    ensures { OnOk result (line.new.items ≡ line.old.items ++ bad_feed_text number cause) }
{
    push_place(alloc, line, "feed", number)?;
    push_feed_word(alloc, line, cause)
}

fn push_bad_positions(
    alloc: Global,
    line: &mut Vec<u8>,
    number: u64,
    cause: PositionCause,
) -> Result<(), NoMemory>
    ensures { OnOk result (line.new.items ≡ line.old.items ++ bad_positions_text number cause) }
{
    push_place(alloc, line, "position", number)?;
    push_position_word(alloc, line, cause)
}

fn push_bad_certs(
    alloc: Global,
    line: &mut Vec<u8>,
    number: u64,
    cause: LineCause,
) -> Result<(), NoMemory>
    ensures { OnOk result (line.new.items ≡ line.old.items ++ bad_certs_text number cause) }
{
    push_place(alloc, line, "certificate", number)?;
    push_text(line, line_word(cause))
}

fn push_complaint(alloc: Global, line: &mut Vec<u8>, exit: &Exit) -> Result<(), NoMemory>
    ensures { OnOk result (line.new.items ≡ line.old.items ++ complaint exit.now) }
{
    match *exit {
        Exit::Done | Exit::SaidNo { .. } => Ok(()),
        Exit::Usage => push_text(line, USAGE),
        Exit::BadFeed {
            line: number,
            cause,
        } => push_bad_feed(alloc, line, number, cause),
        Exit::OpenFault { slot } => push_failed_call(line, "open", slot),
        Exit::ReadFault { slot } => push_failed_call(line, "read", slot),
        Exit::WriteFault { slot } => push_failed_call(line, "write", slot),
        Exit::NoMemory => push_text(line, "no memory"),
        Exit::BadPositions {
            line: number,
            cause,
        } => { push_bad_positions(alloc, line, number, cause) }
        Exit::BadCerts {
            line: number,
            cause,
        } => push_bad_certs(alloc, line, number, cause),
    }
}

const USAGE: &str =
    "usage: replay FEED CERTS, check FEED CERTS, settle FEED POSITIONS CERTS, make NUMBER TICKS, drill NUMBER TICKS";

/// The line for standard error that says why a run ended, with its LF. It is empty where nothing is
/// wrong.
pub fn exit_line(alloc: Global, e: &Exit) -> Result<Vec<u8>, NoMemory>
    requires { IsWithoutNoMemory e.now }
    ensures { IfOk result (λ line. line.items ≡ exit_text e.now) }
{
    let mut line = Vec::new(alloc);
    if let Exit::Done | Exit::SaidNo { .. } = e {
        return Ok(line);
    }
    push_text(&mut line, "vixcert: ")?;
    push_complaint(alloc, &mut line, e)?;
    push_text(&mut line, "\n")?;
    Ok(line)
}
