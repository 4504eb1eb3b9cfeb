//! The laws. Each function does nothing.

ghost use Rattle.vx_facts.specs.Shown.{StandingIsLawful, OpeningIsLawful};

/// After a lawful list of events the rows of every expiry are lawful, and so is its rate.
pub fn standing_is_lawful()
    ensures { StandingIsLawful }
{}

/// The rows and the rate of every expiry at the opening of a lawful list of events are lawful.
pub fn opening_is_lawful()
    ensures { OpeningIsLawful }
{}
