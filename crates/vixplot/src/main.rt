//! Draws a day: reads the lines that `vixcert replay` prints, and writes a picture of them as SVG.
#![tactic(auto)]

ghost use Rattle.std.specs.Prelude.{◌≡◌, IfOk, IsTrue, OnErr};

mod answer;
mod axis;
mod day;
mod fault;
mod limits;
mod line;
mod picture;

use day::Day;
use fault::Fault;
use std::alloc::Global;
use std::io;
use std::process::ExitCode;

/// Why there is no picture, and the line at which that shows.
#[derive(Drop)]
struct Stop {
    line: u64,
    fault: Fault,
}

/// Reads all lines of the standard input.
fn read_day(rt: &impl Input, alloc: Global) -> Result<Day, Stop>
    ensures ended { IfOk result (λ day. IsTrue day.has_end) }
{
    let mut day = Day::new(alloc);
    let mut line = 0u64;
    for text in rt.lines(alloc) {
        line = line.saturating_add(1);
        if let Err(fault) = take_line(alloc, &mut day, text) {
            return Err(Stop { line, fault });
        }
    }
    if day.has_end {
        Ok(day)
    } else {
        Err(Stop {
            line: line.saturating_add(1),
            fault: Fault::MissingEnd,
        })
    }
}

/// Takes one line of the input.
fn take_line(alloc: Global, day: &mut Day, text: io::Result<String>) -> Result<(), Fault>
    ensures refused { OnErr result (day.new.ticks.items ≡ day.old.ticks.items) }
{
    let line = line::read_line(alloc, text?.as_str())?;
    day.take(line.ok_or(Fault::Form)?)
}

fn main(rt: HostRuntime) -> ExitCode {
    match read_day(&rt, rt.alloc()) {
        Ok(day) => {
            if picture::draw(&rt, rt.alloc(), &day.ticks).is_ok() {
                return ExitCode::SUCCESS;
            }
            let _ = eprintln!(rt; "vixplot: cannot write");
        }
        Err(stop) => {
            let _ = eprintln!(rt; "vixplot: line {}: {}", stop.line, stop.fault);
        }
    }
    ExitCode::FAILURE
}
