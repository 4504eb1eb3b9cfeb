//! Laws of sample feeds, and of the text of lawful events, on which they rest. Each is the contract of a
//! function that does nothing.

ghost use Rattle.std.specs.Prelude.{◌≡◌, ℕ, ◌+◌, ◌*◌, length};
ghost use Rattle.vx_make.specs.Feed.{make_events};
ghost use Rattle.vx_make.specs.Lawful.{SamplesAreLawful, SamplesEnd, SampleLinesAreOfEvents, SamplesAreReadBack, SampleTextsAreLawful, SamplesTickByMinute, SamplesHaveTheirTicks};
ghost use Rattle.vx_make.specs.ReadBack.{LinesAreOfEvents, TextsAreReadBack};

/// A sample feed has 801 lines for each tick, and 806 others.
pub fn feeds_have_their_lines()
    ensures { (number ticks : ℕ) → length (make_events number ticks) ≡ 806 + 801 * ticks }
{}

/// A sample feed has as many ticks as are asked for, one a minute from 08:30 on.
pub fn feeds_have_their_ticks()
    ensures by_minute { SamplesTickByMinute }
    ensures count { SamplesHaveTheirTicks }
{}

/// The text of any lawful events is cut into their lines, and where one of them is an END it is read as
/// these events, with no bad line.
pub fn written_events_are_read_back()
    ensures lines { LinesAreOfEvents }
    ensures events { TextsAreReadBack }
{}

/// Each sample feed of at most 390 ticks is lawful: its events in their order, of which the last is END with
/// the right count, and its text, which is read as these events.
pub fn feeds_are_lawful()
    ensures events { SamplesAreLawful }
    ensures end { SamplesEnd }
    ensures lines { SampleLinesAreOfEvents }
    ensures read_back { SamplesAreReadBack }
    ensures text { SampleTextsAreLawful }
{}
