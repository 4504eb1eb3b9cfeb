//! What a command line asks for: each command with its operands.

ghost use Rattle.std.specs.Prelude.{◌≡◌, ◌<◌, ◌≤◌, true, IfOk, IfSome, map, option_and_then, option_map, string_bytes};
ghost use Rattle.std.specs.List.{list_all};
ghost use Rattle.vx_cli.specs.Requests.{IsRequestInRange, IsSample, asked};
ghost use Rattle.vx_cli.specs.Words.{check_form, command_of, drill_form, is_plain_word, make_form, named_form};
ghost use Rattle.vx_cli.specs.Words.{sample_number_of, replay_form, sample_of, settle_form, three_files, three_of, sample_ticks_of, two_files, two_of};

use crate::operands::{three_operands, two_operands};
use std::alloc::Global;
use vx_make::limits::{STATES, TICKS_MAX};
use vx_num::{NoMemory, read_decimal};

/// What a command line asks for.
#[derive(Clone, Copy)]
pub(crate) enum Request<'a> {
    /// Answer each tick of a feed, with the certificates of its figures.
    Replay {
        feed: &'a str,
        certs: &'a str,
    },
    /// Answer each certificate line over a feed.
    Check {
        feed: &'a str,
        certs: &'a str,
    },
    /// Settle each position on the opening figure of a feed, with the figure's certificate.
    Settle {
        feed: &'a str,
        positions: &'a str,
        certs: &'a str,
    },
    /// Send the sample feed of a number below 2^31, with so many ticks, 1 to 390.
    Make {
        number: u32,
        ticks: u32,
    },
    /// Count the answers to the ticks of such a feed.
    Drill {
        number: u32,
        ticks: u32,
    },
}

/// Whether a word is not empty and does not begin with `-`.
fn is_plain(word: &str) -> bool
    ensures { result ≡ is_plain_word word.now }
{
    match word.as_bytes() {
        [] => false,
        [first, ..] => *first != b'-',
    }
}

/// Whether all words are plain ones.
fn are_plain(words: &[String]) -> bool
    ensures { result ≡ list_all (λ word. is_plain_word (string_bytes word)) words.now }
{
    words.iter().all(|word| is_plain(word.as_str()))
}

/// Reads the names of two files, which differ.
fn read_files<'a>(
    alloc: Global,
    operands: &'a [String],
) -> Result<Option<(&'a str, &'a str)>, NoMemory>
    requires { list_all is_plain_word (map string_bytes operands.now) ≡ true }
    ensures { IfOk result (λ r. option_map (λ p. (p.0.now, p.1.now)) r
        ≡ option_and_then two_files (two_of (map string_bytes operands.now))) }
{
    let Some((first, second)) = two_operands(alloc, operands)? else {
        return Ok(None);
    };
    if first == second {
        return Ok(None);
    }
    Ok(Some((first, second)))
}

/// Reads the operands of `replay`.
fn read_replay<'a>(alloc: Global, operands: &'a [String]) -> Result<Option<Request<'a>>, NoMemory>
    requires { list_all is_plain_word (map string_bytes operands.now) ≡ true }
    ensures asked { IfOk result (λ r. option_map asked r ≡ replay_form (map string_bytes operands.now)) }
    ensures in_range { IfOk result (λ r. IfSome r IsRequestInRange) }
{
    let Some((feed, certs)) = read_files(alloc, operands)? else {
        return Ok(None);
    };
    Ok(Some(Request::Replay { feed, certs }))
}

/// Reads the operands of `check`.
fn read_check<'a>(alloc: Global, operands: &'a [String]) -> Result<Option<Request<'a>>, NoMemory>
    requires { list_all is_plain_word (map string_bytes operands.now) ≡ true }
    ensures asked { IfOk result (λ r. option_map asked r ≡ check_form (map string_bytes operands.now)) }
    ensures in_range { IfOk result (λ r. IfSome r IsRequestInRange) }
{
    let Some((feed, certs)) = read_files(alloc, operands)? else {
        return Ok(None);
    };
    Ok(Some(Request::Check { feed, certs }))
}

/// Reads the names of three files, no two of them the same.
fn read_three_files<'a>(
    alloc: Global,
    operands: &'a [String],
) -> Result<Option<(&'a str, &'a str, &'a str)>, NoMemory>
    requires { list_all is_plain_word (map string_bytes operands.now) ≡ true }
    ensures { IfOk result (λ r. option_map (λ p. (p.0.now, p.1.now, p.2.now)) r
        ≡ option_and_then three_files (three_of (map string_bytes operands.now))) }
{
    let Some((first, second, third)) = three_operands(alloc, operands)? else {
        return Ok(None);
    };
    if first == second || first == third || second == third {
        return Ok(None);
    }
    Ok(Some((first, second, third)))
}

/// Reads the operands of `settle`.
fn read_settle<'a>(alloc: Global, operands: &'a [String]) -> Result<Option<Request<'a>>, NoMemory>
    requires { list_all is_plain_word (map string_bytes operands.now) ≡ true }
    ensures asked { IfOk result (λ r. option_map asked r ≡ settle_form (map string_bytes operands.now)) }
    ensures in_range { IfOk result (λ r. IfSome r IsRequestInRange) }
{
    let Some((feed, positions, certs)) = read_three_files(alloc, operands)? else {
        return Ok(None);
    };
    Ok(Some(Request::Settle {
        feed,
        positions,
        certs,
    }))
}

/// Reads the number of a sample feed.
fn read_number(word: &str) -> Option<u32>
    ensures value { result ≡ sample_number_of word.now }
    ensures in_range { IfSome result (λ number. number < STATES) }
{
    let number = read_decimal(word.as_bytes(), 0, u64::from(STATES - 1)).ok()?;
    Some(number as u32)
}

/// Reads how many ticks a sample feed has.
fn read_ticks(word: &str) -> Option<u32>
    ensures value { result ≡ sample_ticks_of word.now }
    ensures in_range { IfSome result (λ ticks. (1 ≤ ticks) × (ticks ≤ TICKS_MAX)) }
{
    let ticks = read_decimal(word.as_bytes(), 0, u64::from(TICKS_MAX)).ok()?;
    if ticks < 1 {
        return None;
    }
    Some(ticks as u32)
}

/// Reads the number and the ticks of a sample feed.
fn read_sample(alloc: Global, operands: &[String]) -> Result<Option<(u32, u32)>, NoMemory>
    requires { list_all is_plain_word (map string_bytes operands.now) ≡ true }
    ensures value { IfOk result (λ r. r ≡ option_and_then sample_of (two_of (map string_bytes operands.now))) }
    ensures in_range { IfOk result (λ r. IfSome r (λ sample. IsSample sample.0 sample.1)) }
{
    let Some((number, ticks)) = two_operands(alloc, operands)? else {
        return Ok(None);
    };
    let Some(number) = read_number(number) else {
        return Ok(None);
    };
    let Some(ticks) = read_ticks(ticks) else {
        return Ok(None);
    };
    Ok(Some((number, ticks)))
}

/// Reads the operands of `make`.
fn read_make<'a>(alloc: Global, operands: &'a [String]) -> Result<Option<Request<'a>>, NoMemory>
    requires { list_all is_plain_word (map string_bytes operands.now) ≡ true }
    ensures asked { IfOk result (λ r. option_map asked r ≡ make_form (map string_bytes operands.now)) }
    ensures in_range { IfOk result (λ r. IfSome r IsRequestInRange) }
{
    let Some((number, ticks)) = read_sample(alloc, operands)? else {
        return Ok(None);
    };
    Ok(Some(Request::Make { number, ticks }))
}

/// Reads the operands of `drill`.
fn read_drill<'a>(alloc: Global, operands: &'a [String]) -> Result<Option<Request<'a>>, NoMemory>
    requires { list_all is_plain_word (map string_bytes operands.now) ≡ true }
    ensures asked { IfOk result (λ r. option_map asked r ≡ drill_form (map string_bytes operands.now)) }
    ensures in_range { IfOk result (λ r. IfSome r IsRequestInRange) }
{
    let Some((number, ticks)) = read_sample(alloc, operands)? else {
        return Ok(None);
    };
    Ok(Some(Request::Drill { number, ticks }))
}

/// Reads the operands that the command of a name has.
fn read_operands<'a>(
    alloc: Global,
    name: &str,
    operands: &'a [String],
) -> Result<Option<Request<'a>>, NoMemory>
    requires { list_all is_plain_word (map string_bytes operands.now) ≡ true }
    ensures asked { IfOk result (λ r. option_map asked r ≡ named_form name.now (map string_bytes operands.now)) }
    ensures in_range { IfOk result (λ r. IfSome r IsRequestInRange) }
{
    if name == "replay" {
        read_replay(alloc, operands)
    } else if name == "check" {
        read_check(alloc, operands)
    } else if name == "settle" {
        read_settle(alloc, operands)
    } else if name == "make" {
        read_make(alloc, operands)
    } else if name == "drill" {
        read_drill(alloc, operands)
    } else {
        Ok(None)
    }
}

/// Reads the words, those after the program's name. `None` says that they are no command form.
pub(crate) fn read_request<'a>(
    alloc: Global,
    words: &'a [String],
) -> Result<Option<Request<'a>>, NoMemory>
    ensures asked { IfOk result (λ r. option_map asked r ≡ command_of (map string_bytes words.now)) }
    ensures in_range { IfOk result (λ r. IfSome r IsRequestInRange) }
{
    if !are_plain(words) {
        return Ok(None);
    }
    let Some((name, operands)) = words.split_first() else {
        return Ok(None);
    };
    read_operands(alloc, name.as_str(), operands)
}
