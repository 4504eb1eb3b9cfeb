//! Which command lines have just two operands.

ghost use Rattle.std.specs.Prelude.{◌≡◌, true, IfOk, map, option_map, string_bytes};
ghost use Rattle.std.specs.List.{list_all};
ghost use Rattle.clap.specs.Words.{app_of};
ghost use Rattle.vx_cli.specs.Operands as spec;
ghost use Rattle.vx_cli.specs.Operands.{three_operand_app, two_operand_app};
ghost use Rattle.vx_cli.specs.Words.{is_plain_word, three_of, two_of};

use clap::error::ErrorKind;
use clap::{Arg, Command};
use std::alloc::{AllocError, Global};
use vx_num::NoMemory;

/// A command line of two words that `clap` reads in order.
fn two_operand_line<'a>(alloc: Global) -> Result<Command<'a>, AllocError>
    ensures { IfOk result (λ line. app_of line ≡ two_operand_app) }
{
    let first = Arg::new(alloc, "first").required(true);
    let second = Arg::new(alloc, "second").required(true);
    Command::new(alloc, "operands")
        .no_binary_name(true)
        .disable_help_flag(true)
        .arg(first)?
        .arg(second)
}

/// A command line of three words that `clap` reads in order.
fn three_operand_line<'a>(alloc: Global) -> Result<Command<'a>, AllocError>
    ensures { IfOk result (λ line. app_of line ≡ three_operand_app) }
{
    let third = Arg::new(alloc, "third").required(true);
    two_operand_line(alloc)?.arg(third)
}

/// The two words, where there are just two.
pub(crate) fn two_operands<'a>(
    alloc: Global,
    words: &'a [String],
) -> Result<Option<(&'a str, &'a str)>, NoMemory>
    requires { list_all is_plain_word (map string_bytes words.now) ≡ true }
    ensures { IfOk result (λ r.
        option_map (λ p. (p.0.now, p.1.now)) r ≡ two_of (map string_bytes words.now)) }
{
    let line = match two_operand_line(alloc) {
        Ok(line) => line,
        Err(_) => return Err(NoMemory),
    };
    match line.try_get_matches_from(words) {
        Ok(matches) => Ok(matches.get_str("first").zip(matches.get_str("second"))),
        Err(error) if error.kind() == ErrorKind::OutOfMemory => Err(NoMemory),
        Err(_) => Ok(None),
    }
}

/// Three values, where there are all of them.
fn all_three<'a>(
    first: Option<&'a str>,
    second: Option<&'a str>,
    third: Option<&'a str>,
) -> Option<(&'a str, &'a str, &'a str)>
    ensures { option_map (λ p. (p.0.now, p.1.now, p.2.now)) result ≡ spec.all_three
        (option_map (λ s. s.now) first.entry) (option_map (λ s. s.now) second.entry) (option_map (λ s. s.now) third.entry) }
{
    Some((first?, second?, third?))
}

/// The three words, where there are just three.
pub(crate) fn three_operands<'a>(
    alloc: Global,
    words: &'a [String],
) -> Result<Option<(&'a str, &'a str, &'a str)>, NoMemory>
    requires { list_all is_plain_word (map string_bytes words.now) ≡ true }
    ensures { IfOk result (λ r.
        option_map (λ p. (p.0.now, p.1.now, p.2.now)) r ≡ three_of (map string_bytes words.now)) }
{
    let line = match three_operand_line(alloc) {
        Ok(line) => line,
        Err(_) => return Err(NoMemory),
    };
    match line.try_get_matches_from(words) {
        Ok(matches) => Ok(all_three(
            matches.get_str("first"),
            matches.get_str("second"),
            matches.get_str("third"),
        )),
        Err(error) if error.kind() == ErrorKind::OutOfMemory => Err(NoMemory),
        Err(_) => Ok(None),
    }
}
