//! A sample feed that is made piece by piece.

ghost use Rattle.std.specs.Prelude.{◌≡◌, ℕ, ◌+◌, ◌<◌, ◌≤◌, IfOk};
ghost use Rattle.vx_feed.specs.Written.{event_text, text_of_events};
ghost use Rattle.vx_make.specs.Feed.{closing_event, head_events};
ghost use Rattle.vx_make.specs.Pieces.{HasMade, HoldsTick, IsReady};

use crate::feed::{TICK_ROOM, put_end, put_head, put_tick};
use crate::limits::{FIRST_MINUTE, STATES, TICKS_MAX};
use std::alloc::Global;
use vx_num::NoMemory;

/// A sample feed that is made piece by piece: its head, the lines of one tick after another, and its last line.
///
/// It holds the lines of one tick at a time, in room that is taken once, so that nothing but its making can
/// want memory.
#[derive(Drop)]
pub struct SampleFeed {
    head: Vec<u8>,
    tick_lines: Vec<u8>,
    last_line: Vec<u8>,
    /// How many ticks were made.
    made: u32,
    /// The state of the generator after them.
    state: u32,
}

impl SampleFeed {
    /// The sample feed of a number below 2^31, with so many ticks, 1 to 390, before its first tick.
    ///
    /// # Errors
    ///
    /// `NoMemory`.
    pub fn new(alloc: Global, number: u32, ticks: u32) -> Result<SampleFeed, NoMemory>
        requires states { number < STATES }
        requires some { 1 ≤ ticks }
        requires most { ticks ≤ TICKS_MAX }
        ensures { IfOk result (HasMade number ticks 0) }
    {
        let mut head = Vec::new(alloc);
        put_head(alloc, &mut head)?;
        let mut last_line = Vec::new(alloc);
        put_end(alloc, &mut last_line, ticks)?;
        let tick_lines = Vec::with_capacity(alloc, TICK_ROOM)?;
        Ok(SampleFeed {
            head,
            tick_lines,
            last_line,
            made: 0,
            state: number,
        })
    }

    /// All that stands before the first tick.
    pub fn head(&self) -> &[u8]
        ensures { (number ticks made : ℕ) → HasMade number ticks made self.now
            → result.now ≡ text_of_events head_events }
    {
        self.head.as_slice()
    }

    /// Makes the next tick's lines in place of the last one's: its quotes, and the tick. There are at most 390.
    pub fn make_tick(&mut self)
        requires ready { IsReady self.old }
        requires most { self.old.made < TICKS_MAX }
        ensures made { (number ticks made : ℕ) → HasMade number ticks made self.old
            → HasMade number ticks (made + 1) self.new }
        ensures lines { (number ticks made : ℕ) → HasMade number ticks made self.old
            → HoldsTick number made self.new }
    {
        self.tick_lines.clear();
        let minute = FIRST_MINUTE + self.made as u16;
        put_tick(&mut self.tick_lines, minute, &mut self.state);
        self.made += 1;
    }

    /// The lines of the tick that was made last.
    pub fn tick_lines(&self) -> &[u8]
        ensures { result.now ≡ self.now.tick_lines.items }
    {
        self.tick_lines.as_slice()
    }

    /// The last line, which counts those between the first and it.
    pub fn last_line(&self) -> &[u8]
        ensures { (number ticks made : ℕ) → HasMade number ticks made self.now
            → result.now ≡ event_text (closing_event number ticks) }
    {
        self.last_line.as_slice()
    }
}
