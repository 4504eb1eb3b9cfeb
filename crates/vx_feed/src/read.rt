//! Reading the lines of a feed.

ghost use Rattle.std.specs.Prelude.{◌≡◌, ◌⊎◌, IfOk, List};
ghost use Rattle.vx_feed.specs.declared.events.Event.{Event};
ghost use Rattle.vx_feed.specs.Feed.{event_of_line, next_event};
ghost use Rattle.vx_feed.specs.Noted.{StandsFor};
ghost use Rattle.vx_feed.specs.Order.{IsLawfulNext};
ghost use Rattle.vx_feed.specs.Ranges.{IsEventInRange};

use crate::events::Event;
use crate::faults::FeedFault;
use crate::form::read_form;
use crate::known::KnownSymbols;
use crate::order::Order;
use std::alloc::Global;
use vx_fields::{FieldTable, Fields, LineBlock, why_unsplit};

/// The event of a line that was split into its fields, after the events noted, or the first fault.
///
/// An event that is answered is lawful next after the events noted. Takes no memory. For a line that
/// can't be split the fault is that of [`why_unsplit`]. The symbols that are known change no answer.
pub fn event_of_fields(
    fields: &Fields<'_>,
    seen: &Order,
    known: &mut KnownSymbols,
) -> Result<Event, FeedFault>
    ensures value { (events : List Event) → StandsFor seen.now events → result ≡ next_event events fields.now }
    ensures lawful { (events : List Event) → StandsFor seen.now events → IfOk result (IsLawfulNext events) }
    ensures in_range { IfOk result IsEventInRange }
{
    let read = read_form(fields, known);
    if let Ok(event) = &read {
        if let Some(fault) = seen.fault(event) {
            return Err(fault);
        }
    }
    read
}

/// The event of a line, given without its LF, after the events noted, or the first fault. An event that
/// is answered is lawful next after the events noted. `NoMemory` has no cause in the line.
pub fn read_event(alloc: Global, line: &[u8], seen: &Order) -> Result<Event, FeedFault>
    ensures value { (events : List Event) → StandsFor seen.now events
        → (result ≡ Err FeedFault.NoMemory) ⊎ (result ≡ event_of_line events line.now) }
    ensures lawful { (events : List Event) → StandsFor seen.now events → IfOk result (IsLawfulNext events) }
    ensures in_range { IfOk result IsEventInRange }
{
    if let Some(why) = why_unsplit(line) {
        return Err(FeedFault::from(why));
    }
    let mut block = LineBlock::new(alloc);
    block.push(line)?;
    let mut table = FieldTable::new(alloc);
    table.fill(&block)?;
    event_of_fields(&table.line(0), seen, &mut KnownSymbols::new(alloc))
}
