//! The lines that `settle` writes.

ghost use Rattle.std.specs.Prelude.{◌≡◌, ◌+◌, ◌++◌, ◌≤◌, [], ◌∷◌, codes, drop, OnOk};
ghost use Rattle.vx_num.specs.Written.{signed_text};
ghost use Rattle.vx_feed.specs.Written.{count_text};
ghost use Rattle.vx_soq.specs.Written.{IsWritable};
ghost use Rattle.vx_cli.specs.OutputLines.{comma_separated, line_of};
ghost use Rattle.vx_cli.specs.ReadBack.{OpeningCertificateIsRead};
ghost use Rattle.vx_cli.specs.SettleText as text;

use crate::tick_lines::{push_index_ends, push_straddled, refusal_word};
use crate::words::push_clock;
use std::alloc::Global;
use vx_cert::write_cert;
use vx_drivers::text::{push_number, push_text};
use vx_num::{NoMemory, write_decimal, write_signed};
use vx_room::{put, put_all, put_decimal, put_signed, put_wide_signed, written};
use vx_settle::{Contract, Position};
use vx_soq::{OpeningAnswer, SoqReason};

/// The word for why an opening has no figure.
fn reason_word(reason: SoqReason) -> &'static str
    ensures { result.now ≡ text.opening_reason_word reason }
{
    match reason {
        SoqReason::NoOpening => "no-opening",
        SoqReason::NoTerm => "no-term",
        SoqReason::Term(refusal) => refusal_word(refusal),
        SoqReason::NegativeVariance => "negative-variance",
    }
}

/// Appends the minute of an opening; `-` where none was taken.
fn push_opening_clock(line: &mut Vec<u8>, time: Option<u16>) -> Result<(), NoMemory>
    ensures { OnOk result (line.new.items ≡ line.old.items ++ text.opening_clock time) }
{
    match time {
        Some(time) => push_clock(line, time),
        None => push_text(line, "-"),
    }
}

/// Appends the word of an opening's line, and its minute.
fn push_start(line: &mut Vec<u8>, word: &str, time: Option<u16>) -> Result<(), NoMemory>
    ensures { OnOk result (line.new.items ≡ line.old.items
        ++ comma_separated (word.now ∷ text.opening_clock time ∷ [])) }
{
    push_text(line, word)?;
    push_text(line, ",")?;
    push_opening_clock(line, time)
}

/// Appends the start of an undecided opening's line, up to what is undecided.
fn push_undecided(line: &mut Vec<u8>, time: Option<u16>, what: &str) -> Result<(), NoMemory>
    ensures { OnOk result (line.new.items ≡ line.old.items
        ++ comma_separated (codes "UND" ∷ text.opening_clock time ∷ codes "soq" ∷ what.now ∷ [])) }
{
    push_start(line, "UND", time)?;
    push_text(line, ",soq,")?;
    push_text(line, what)
}

/// Appends the line of an opening whose figure is undecided between two ends, in millionths of a point.
fn push_undecided_cents(
    alloc: Global,
    line: &mut Vec<u8>,
    time: Option<u16>,
    lo: i64,
    hi: i64,
) -> Result<(), NoMemory>
    ensures { OnOk result (line.new.items ≡ line.old.items ++ text.opening_text
        (text.opening_clock time) (OpeningAnswer.UndecidedCents lo hi)) }
{
    push_undecided(line, time, "cents")?;
    push_index_ends(alloc, line, lo, hi)
}

/// Appends the line of an answer to an opening.
pub(crate) fn push_opening(
    alloc: Global,
    line: &mut Vec<u8>,
    time: Option<u16>,
    answer: &OpeningAnswer,
) -> Result<(), NoMemory>
    ensures { OnOk result (line.new.items ≡ line.old.items
        ++ text.opening_text (text.opening_clock time) answer.now) }
{
    match answer {
        OpeningAnswer::Published(figure) => {
            push_start(line, "SOQ", time)?;
            push_text(line, ",")?;
            write_decimal(alloc, line, u128::from(figure.cents), 2)?;
            push_index_ends(alloc, line, figure.lo, figure.hi)
        }
        OpeningAnswer::UndecidedCents { lo, hi } => {
            push_undecided_cents(alloc, line, time, *lo, *hi)
        }
        OpeningAnswer::UndecidedForward { strike, lo, hi } => {
            push_undecided(line, time, "forward")?;
            push_text(line, ",")?;
            push_straddled(alloc, line, *strike, *lo, *hi)
        }
        OpeningAnswer::Refused(reason) => {
            push_start(line, "REF", time)?;
            push_text(line, ",soq,")?;
            push_text(line, reason_word(*reason))?;
            push_text(line, "\n")
        }
    }
}

/// Appends the certificate of a published figure, whose fields are in range; nothing of another answer.
pub(crate) fn push_opening_certificate(
    alloc: Global,
    line: &mut Vec<u8>,
    answer: &OpeningAnswer,
) -> Result<(), NoMemory>
    requires { IsWritable answer.now }
    ensures text { OnOk result (line.new.items ≡ line.old.items ++ text.opening_certificate_text answer.now) }
    ensures read_back { OnOk result (OpeningCertificateIsRead answer.now) }
{
    match answer {
        OpeningAnswer::Published(figure) => write_cert(alloc, &figure.certificate, line),
        OpeningAnswer::UndecidedCents { .. }
        | OpeningAnswer::UndecidedForward { .. }
        | OpeningAnswer::Refused(_) => Ok(()),
    }
}

/// The word of a contract.
fn contract_word(contract: Contract) -> &'static str
    ensures { result.now ≡ text.contract_word contract }
{
    match contract {
        Contract::Vx => "VX",
        Contract::Vxm => "VXM",
    }
}

/// The longest line of a position: its word and number, its contract, quantity, last price and amount, each behind
/// its comma, and LF.
const POSITION_ROOM: usize = START_ROOM + CONTRACT_ROOM + 2 * FIELD_ROOM + AMOUNT_ROOM + 1;

/// The word, a comma and a number.
const START_ROOM: usize = 25;

/// A comma and the word of a contract.
const CONTRACT_ROOM: usize = 4;

/// A comma and a number of 64 bits.
const FIELD_ROOM: usize = 22;

/// A comma and a number of 128 bits.
const AMOUNT_ROOM: usize = 42;

// The line of a position is put together from its end, in a room of its own, and then appended at once, since a
// sheet is made of little else and a test of room for each piece would cost more than its digits.

/// Puts an amount in cents, behind a comma.
fn put_amount(bytes: &mut [u8; POSITION_ROOM], end: usize, amount: i128) -> usize
    requires room { AMOUNT_ROOM ≤ end }
    requires within { end ≤ POSITION_ROOM }
    ensures least { end ≤ result + AMOUNT_ROOM }
    ensures within { result ≤ end }
    ensures written { drop result bytes.new ≡ 44 ∷ signed_text amount 2 ++ drop end bytes.old }
{
    let comma = put_wide_signed(bytes, end, amount, 2);
    put(bytes, comma, b',')
}

/// Puts a number over `10^places`, behind a comma.
fn put_field(bytes: &mut [u8; POSITION_ROOM], end: usize, value: i64, places: u32) -> usize
    requires room { FIELD_ROOM ≤ end }
    requires within { end ≤ POSITION_ROOM }
    requires places { places ≤ 12 }
    ensures least { end ≤ result + FIELD_ROOM }
    ensures within { result ≤ end }
    ensures written { drop result bytes.new ≡ 44 ∷ signed_text value places ++ drop end bytes.old }
{
    let comma = put_signed(bytes, end, value, places);
    put(bytes, comma, b',')
}

/// Puts the word of a contract, behind a comma.
fn put_contract(bytes: &mut [u8; POSITION_ROOM], end: usize, contract: Contract) -> usize
    requires room { CONTRACT_ROOM ≤ end }
    requires within { end ≤ POSITION_ROOM }
    ensures least { end ≤ result + CONTRACT_ROOM }
    ensures within { result ≤ end }
    ensures written { drop result bytes.new ≡ 44 ∷ text.contract_word contract ++ drop end bytes.old }
{
    let comma = put_all(bytes, end, contract_word(contract).as_bytes());
    put(bytes, comma, b',')
}

/// Puts the word of a position's line, and the line's number behind a comma.
fn put_start(bytes: &mut [u8; POSITION_ROOM], end: usize, number: u64) -> usize
    requires room { START_ROOM ≤ end }
    requires within { end ≤ POSITION_ROOM }
    ensures within { result ≤ end }
    ensures written { drop result bytes.new ≡ codes "POS" ++ 44 ∷ (count_text number ++ drop end bytes.old) }
{
    let comma = put_decimal(bytes, end, number, 0);
    put_all(bytes, comma, b"POS,")
}

/// Appends the line of a position with its amount in cents; the line of the file has this number.
pub(crate) fn push_position(
    line: &mut Vec<u8>,
    number: u64,
    position: &Position,
    amount: i128,
) -> Result<(), NoMemory>
    ensures { OnOk result (line.new.items ≡ line.old.items ++ text.position_text number position.now amount) }
{
    let mut bytes = [0; POSITION_ROOM];
    let end = put(&mut bytes, POSITION_ROOM, b'\n');
    let amount = put_amount(&mut bytes, end, amount);
    let last = put_field(&mut bytes, amount, i64::from(position.last), 4);
    let quantity = put_field(&mut bytes, last, i64::from(position.quantity), 0);
    let contract = put_contract(&mut bytes, quantity, position.contract);
    let start = put_start(&mut bytes, contract, number);
    line.extend_from_slice(written(&bytes, start))?;
    Ok(())
}

/// Appends the line of the sum of all amounts, in cents.
pub(crate) fn push_total(alloc: Global, line: &mut Vec<u8>, total: i128) -> Result<(), NoMemory>
    ensures { OnOk result (line.new.items ≡ line.old.items
        ++ line_of (codes "TOTAL" ∷ text.amount_text total ∷ [])) }
{
    push_text(line, "TOTAL,")?;
    write_signed(alloc, line, total, 2)?;
    push_text(line, "\n")
}

/// Appends the last line, with how many positions were settled.
pub(crate) fn push_end(alloc: Global, line: &mut Vec<u8>, count: u64) -> Result<(), NoMemory>
    ensures { OnOk result (line.new.items ≡ line.old.items
        ++ line_of (codes "END" ∷ count_text count ∷ [])) }
{
    push_text(line, "END,")?;
    push_number(alloc, line, count)?;
    push_text(line, "\n")
}
