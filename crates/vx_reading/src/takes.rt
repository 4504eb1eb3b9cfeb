//! What takes up the events of a feed.

ghost use Rattle.std.specs.Prelude.{List};
ghost use Rattle.vx_feed.specs.declared.events.Event.{Event};
ghost use Rattle.vx_reading.specs.Takes.{MayTakeUp, KeepsStanding, TakesUp};

use vx_feed::Event;
use vx_num::NoMemory;

/// What takes up the events of a feed, one after another, and stands for their list: a book, or a
/// replay.
pub trait TakesEvents: Drop {
    /// The lists of events that a value stands for. The list itself is not kept.
    ghost StandsFor: { Self → List Event → Type 0 };

    /// Takes up the next event. For want of memory the value stands for what it stood for before.
    fn take(&mut self, event: Event) -> Result<(), NoMemory>
        requires lawful { MayTakeUp StandsFor self.old event }
        ensures taken { TakesUp StandsFor self.old event self.new result }
        ensures kept { KeepsStanding StandsFor self.old self.new result };
}
