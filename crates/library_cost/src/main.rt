//! Hands the file that it is given to one library, and counts what that finds: what `bench/libraries.sh` times.
#![tactic(auto)]

use csv::{ByteRecord, ReaderBuilder};
use serde_json::Value;
use std::alloc::Global;
use std::process::ExitCode;
use std::{env, fs};

/// How many records `csv` finds in a text, or `None` where it refuses one.
fn count_records(alloc: Global, text: &[u8]) -> Option<u64> {
    let mut reader = ReaderBuilder::new()
        .has_headers(false)
        .flexible(true)
        .from_reader(alloc, text);
    let mut record = ByteRecord::new(alloc);
    for count in 0..u64::MAX {
        if !reader.read_byte_record(&mut record).ok()? {
            return Some(count);
        }
    }
    None
}

/// How many lines of a text `serde_json` reads as values, or `None` where it refuses one.
fn count_values(alloc: Global, text: &str) -> Option<u64> {
    let mut count: u64 = 0;
    for line in text.lines() {
        Value::from_str(alloc, line).ok()?;
        count = count.checked_add(1)?;
    }
    Some(count)
}

/// What a library finds in a text, by its name.
fn count_by(alloc: Global, library: &str, text: &str) -> Option<u64> {
    match library {
        "csv" => count_records(alloc, text.as_bytes()),
        "serde_json" => count_values(alloc, text),
        _ => None,
    }
}

/// What the library of the first word finds in the file of the second.
fn count_in_file(rt: &HostRuntime) -> Option<u64> {
    let mut words = env::args(rt).ok()?.skip(1);
    let library = words.next()?;
    let name = words.next()?;
    let text = fs::read_to_string(rt, name.as_str()).ok()?;
    count_by(rt.alloc(), library.as_str(), text.as_str())
}

fn main(rt: HostRuntime) -> ExitCode {
    match count_in_file(&rt) {
        Some(count) if println!(rt; "{count}").is_ok() => ExitCode::SUCCESS,
        _ => ExitCode::FAILURE,
    }
}
