//! Counts the lines of the file that it is given and does nothing else: what `bench/lines.sh` times.
#![tactic(auto)]

ghost use Rattle.std.specs.Prelude.{◌≡◌, false};

use std::alloc::Global;
use std::env;
use std::process::ExitCode;
use vx_desk::{Desk, LineReader, RealDesk, Slot};

/// The most bytes of a line, as for a feed.
const LONGEST: usize = 256;

/// How many lines the file of this name has, or `None` where it cannot be opened or read to its end.
fn count_lines<D: Desk>(alloc: Global, desk: &mut D, name: &str) -> Option<u64>
    requires { (D.told desk.old Slot.Feed).is_open ≡ false }
{
    desk.open(Slot::Feed, name).ok()?;
    let mut reader = LineReader::new(alloc, Slot::Feed, LONGEST).ok()?;
    let mut lines = 0;
    for _ in 0..u64::MAX {
        match reader.next(desk) {
            Ok(Some(line)) => lines = line.number,
            Ok(None) => return Some(lines),
            Err(_) => return None,
        }
    }
    None
}

fn main(rt: HostRuntime) -> ExitCode {
    let alloc = rt.alloc();
    let Some(name) = env::args(&rt).ok().and_then(|mut words| words.nth(1)) else {
        return ExitCode::FAILURE;
    };
    let mut desk = RealDesk::new(rt);
    let lines = count_lines(alloc, &mut desk, name.as_str());
    let rt = desk.finish();
    match lines {
        Some(lines) if println!(rt; "{lines}").is_ok() => ExitCode::SUCCESS,
        _ => ExitCode::FAILURE,
    }
}
