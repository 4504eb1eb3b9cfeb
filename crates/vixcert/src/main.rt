//! Checks certificates of the volatility index over a feed of option quotes.
#![tactic(auto)]

ghost use Rattle.std.specs.Prelude.{IfErr};
ghost use Rattle.vx_drivers.specs.Exits.{IsWithoutNoMemory};

use std::alloc::Global;
use std::io::ErrorKind;
use std::process::ExitCode;
use std::rt::{Env, Files};
use std::{env, fs, io, str};
use vx_cli::{Exit, exit_line, run};
use vx_desk::RealDesk;

/// The words after the program's name. A word that is not UTF-8 makes them no command form.
fn read_words(rt: &(impl Env + AllocGlobal), alloc: Global) -> Result<Vec<String>, Exit>
    ensures { IfErr result IsWithoutNoMemory }
{
    match env::args(rt) {
        Ok(words) => words.skip(1).collect(alloc).map_err(|_| Exit::NoMemory),
        Err(error) if error.kind() == ErrorKind::OutOfMemory => Err(Exit::NoMemory),
        Err(_) => Err(Exit::Usage),
    }
}

/// Says on standard error why the run ended, where something is wrong, and gives its status.
fn report(rt: &impl Eprint, alloc: Global, exit: &Exit) -> ExitCode
    requires { IsWithoutNoMemory exit.now }
{
    if let Ok(line) = exit_line(alloc, exit) {
        if let Ok(text) = str::from_utf8(line.as_slice()) {
            let _ = rt.eprint(text);
        }
    }
    ExitCode::from(exit.status())
}

/// What holds nothing and can always be opened.
const NULL_DEVICE: &str = "/dev/null";

/// Opens the null device once for each standard stream. Where the caller closed a stream, the next file that is
/// opened takes its place; so these do, and no file of the run gets what goes to a stream.
fn hold_standard_places<R: Files>(rt: &R) -> [io::Result<R::File>; 3] {
    [
        fs::open(rt, NULL_DEVICE),
        fs::open(rt, NULL_DEVICE),
        fs::open(rt, NULL_DEVICE),
    ]
}

fn main(rt: HostRuntime) -> ExitCode {
    let alloc = rt.alloc();
    let _held = hold_standard_places(&rt);
    match read_words(&rt, alloc) {
        Ok(words) => {
            let mut desk = RealDesk::new(rt);
            let exit = run(alloc, words.as_slice(), &mut desk);
            report(&desk.finish(), alloc, &exit)
        }
        Err(exit) => report(&rt, alloc, &exit),
    }
}
