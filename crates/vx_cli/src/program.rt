//! The top call: the command that the words ask for.

ghost use Rattle.std.specs.Prelude.{◌≡◌, ◌⊎◌, IfSome, IsNone, map, string_bytes};
ghost use Rattle.vx_desk.specs.Told.{OnlyOutIsOpen};
ghost use Rattle.vx_desk.specs.Calls.{Failures};
ghost use Rattle.vx_drivers.specs.Exits.{IsWithoutNoMemory, exit_calls};
ghost use Rattle.vx_cli.specs.Headline.{Headline};
ghost use Rattle.vx_cli.specs.LawfulExits.{CountsNoFailure, EndsLawfully};
ghost use Rattle.vx_cli.specs.Runs.{IsExitOf, OpensFor, SendsFor};
ghost use Rattle.vx_cli.specs.Words.{command_of};

use crate::check::check_files;
use crate::drill::drill_sample;
use crate::make::send_sample;
use crate::replay::replay_files;
use crate::request::{Request, read_request};
use crate::settle::settle_files;
use std::alloc::Global;
use vx_desk::Desk;
use vx_drivers::Exit;
use vx_num::NoMemory;

/// Runs the command that the words ask for, those after the program's name.
///
/// The commands are `replay FEED CERTS`, `check FEED CERTS`, `settle FEED POSITIONS CERTS`, `make NUMBER TICKS` and
/// `drill NUMBER TICKS`; words of no such form are answered with `Usage`.
pub fn run<D: Desk>(alloc: Global, words: &[String], desk: &mut D) -> Exit
    requires closed { OnlyOutIsOpen (D.told desk.old) }
    // Usage comes exactly by the words, save that want of memory may come in its place.
    ensures usage { result ≡ Exit.Usage → IsNone (command_of (map string_bytes words.now)) }
    ensures no_form { IsNone (command_of (map string_bytes words.now))
        → (result ≡ Exit.Usage) ⊎ (result ≡ Exit.NoMemory) }
    ensures untouched { result ≡ Exit.Usage → desk.new ≡ desk.old }
    // No exit of another command comes.
    ensures exits { IfSome (command_of (map string_bytes words.now)) (IsExitOf result) }
    ensures causes { IsWithoutNoMemory result }
    // A device fault is answered just where the desk counted a failure of that slot and kind.
    ensures failures { Failures (exit_calls result) (D.told desk.old) (D.told desk.new) }
    ensures opens { OpensFor (command_of (map string_bytes words.now)) (D.told desk.new) result }
    // What each command sends, and that `replay`, `check` and `settle` end so, is exact; words that are no command form
    // send nothing.
    ensures sends { SendsFor (command_of (map string_bytes words.now))
        (D.holds desk.old) (D.told desk.old) (D.told desk.new) result }
    // What was sent is true: each yes, each line of `replay` and the opening's line of `settle`.
    ensures headline { Headline (command_of (map string_bytes words.now))
        (D.holds desk.old) (D.told desk.old) (D.told desk.new) result }
    // Over lawful input and with no failed call, a run ends for no reason but the certificates of `check` and memory.
    ensures exits_of_lawful { CountsNoFailure (D.told desk.old) (D.told desk.new)
        → IfSome (command_of (map string_bytes words.now)) (λ command. EndsLawfully command (D.holds desk.old) result) }
{
    match read_request(alloc, words) {
        Ok(Some(Request::Replay { feed, certs })) => replay_files(alloc, desk, feed, certs),
        Ok(Some(Request::Check { feed, certs })) => check_files(alloc, desk, feed, certs),
        Ok(
            Some(
                Request::Settle {
                    feed,
                    positions,
                    certs,
                },
            ),
        ) => settle_files(alloc, desk, feed, positions, certs),
        Ok(Some(Request::Make { number, ticks })) => send_sample(alloc, desk, number, ticks),
        Ok(Some(Request::Drill { number, ticks })) => drill_sample(alloc, desk, number, ticks),
        Ok(None) => Exit::Usage,
        Err(NoMemory) => Exit::NoMemory,
    }
}
