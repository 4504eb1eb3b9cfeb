//! The laws. Each function does nothing.

ghost use Rattle.vx_accepted.specs.Certified.{CertifiedTermIsTrue};
ghost use Rattle.vx_accepted.specs.Facts.{DeclaredExpiriesAreInRange, OpeningFactsAreLawful, TickFactsAreLawful, TickHasLawfulFacts};
ghost use Rattle.vx_accepted.specs.Picked.{NearIsPickedOrNone, NextIsPickedOrNone, PickedMinutesAreInRange};
ghost use Rattle.vx_accepted.specs.Statable.{FigureIsStatable, RunIsStatable};

/// What a certificate states of a term's run meets every test of one term.
pub fn certified_term_is_true()
    ensures { CertifiedTermIsTrue }
{}

/// What a certificate states of a run and of a figure is in the range of each of its fields, so that it
/// can be written.
pub fn certified_is_statable()
    ensures run { RunIsStatable }
    ensures figure { FigureIsStatable }
{}

/// Of any expiries one is picked as a term, or none is in the term's window.
pub fn terms_are_picked_or_none()
    ensures near { NearIsPickedOrNone }
    ensures next { NextIsPickedOrNone }
{}

/// The minutes of two picked terms are in range, and their weights are small enough to interpolate.
pub fn picked_minutes_are_in_range()
    ensures { PickedMinutesAreInRange }
{}

/// Every tick of a lawful feed has facts, and they are lawful; and so are those of the opening.
pub fn facts_are_lawful()
    ensures there { TickHasLawfulFacts }
    ensures tick { TickFactsAreLawful }
    ensures opening { OpeningFactsAreLawful }
{}

/// Each declared expiry of a lawful feed is a day of the years 2000 to 2099, as a certificate states it.
pub fn declared_expiries_are_in_range()
    ensures { DeclaredExpiriesAreInRange }
{}
