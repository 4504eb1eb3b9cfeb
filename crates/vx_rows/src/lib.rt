//! Tests that cross crates: whole runs of the commands over devices in memory, with their inputs and
//! what each must send, answer and say. `levels` and `figures` hold what the formats say of certificates of
//! each kind and of their refusals, `reading` what they say of certificate lines, `feeds` of feed lines and
//! cut feeds, `blocks` of bad lines that are read ahead, `replays` the answers to ticks, `settles` openings and
//! positions, `drills` sample feeds, `devices` what comes of words of no form and of missing room, and `faults` what
//! comes of each call that fails.
#![tactic(auto)]

#[cfg(test)]
mod blocks;
#[cfg(test)]
mod certificates;
#[cfg(test)]
mod devices;
#[cfg(test)]
mod drills;
#[cfg(test)]
mod faults;
#[cfg(test)]
mod feeds;
#[cfg(test)]
mod figures;
#[cfg(test)]
mod fixtures;
#[cfg(test)]
mod levels;
#[cfg(test)]
mod reading;
#[cfg(test)]
mod replays;
#[cfg(test)]
mod settles;
#[cfg(test)]
mod watched;
