//! Laws of the definitions: what may come next, and what a list of events means after one more event.
//! Each is the contract of a function that does nothing.

ghost use Rattle.vx_feed.specs.Next.{NextQuote, NextRate, NextTrade, UnlistedHasNone, NextBeforeOpening, NextListed, NextDeclared, NextTradeDate, NextStrikes};
ghost use Rattle.vx_feed.specs.NextEvents.{FaultIsOfFirstCause, InOrderHasNoCause, FaultsByCause, LeadingPartsAreLawful, OneMoreIsLawful, EndIsLast};
ghost use Rattle.vx_feed.specs.LawfulPrefixes.{BadLineFollowsPrefix, LawfulFeedEnds, PrefixIsLawful};
ghost use Rattle.vx_feed.specs.NextRows.{NextStrikesListed, NextRows, NextRowsListed};

/// What stands for a series and for an expiry after one more event.
pub fn next_standing()
    ensures quote { NextQuote }
    ensures rate { NextRate }
{}

/// What is listed, declared and dated after one more event.
pub fn next_listing()
    ensures listed { NextListed }
    ensures declared { NextDeclared }
    ensures trade_date { NextTradeDate }
    ensures strikes { NextStrikes }
{}

/// What the opening shows after one more event.
pub fn next_opening()
    ensures before { NextBeforeOpening }
    ensures trade { NextTrade }
    ensures unlisted { UnlistedHasNone }
{}

/// The fault of an event is that of the first cause that holds, and an event is in order where none does.
pub fn first_cause_is_answered()
    ensures fault { FaultIsOfFirstCause }
    ensures none { InOrderHasNoCause }
{}

/// When each of the ten faults of the order is answered.
pub fn faults_by_cause()
    ensures { FaultsByCause }
{}

/// Lawful lists of events, by their leading parts and event by event; an END among them is the last.
pub fn lawful_lists()
    ensures leading { LeadingPartsAreLawful }
    ensures one_more { OneMoreIsLawful }
    ensures end { EndIsLast }
{}

/// The listed strikes of an expiry, and their rows, after one more event: a quote changes at most one
/// price of one row, and a series that is listed now adds at most one row.
pub fn next_rows()
    ensures strikes { NextStrikesListed }
    ensures rows { NextRows }
    ensures listed { NextRowsListed }
{}

/// The lawful prefix of a text, and its bad line, which is the line after it.
pub fn lawful_prefixes()
    ensures lawful { PrefixIsLawful }
    ensures follows { BadLineFollowsPrefix }
    ensures ends { LawfulFeedEnds }
{}
