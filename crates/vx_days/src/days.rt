//! Worked days. Each function does nothing: its clauses are the example.

ghost use Rattle.vx_days.specs.TermExamples.{DaysAreNumbered, NearOfSeptember23, NextOfSeptember23, NearOfSeptember24};
ghost use Rattle.vx_days.specs.TermExamples.{NextOfSeptember24, NoNearOfNone, NoNextOfNone};
ghost use Rattle.vx_days.specs.TextExamples.{SampleTextIsRead, SampleTextIsLawful};
ghost use Rattle.vx_days.specs.FeedExamples.{SampleIsLawful, SampleShowsRows, UncrossedStands, CrossedIsLawful};
ghost use Rattle.vx_days.specs.FeedExamples.{CrossedStandsNot, CrossedShowsNoCall, CrossedHasNoPair, CrossedPairIsBeside};
ghost use Rattle.vx_days.specs.FeedExamples.{CrossedForward, CrossedLevel, CrossedLacksMoney};

/// The two terms of the index on 2014-09-23 and on the day after.
pub fn two_terms()
    ensures numbered { DaysAreNumbered }
    ensures near_of_23 { NearOfSeptember23 }
    ensures next_of_23 { NextOfSeptember23 }
    ensures near_of_24 { NearOfSeptember24 }
    ensures next_of_24 { NextOfSeptember24 }
{}

/// With no expiry there is no term.
pub fn terms_of_none()
    ensures near { NoNearOfNone }
    ensures next { NoNextOfNone }
{}

/// The first sample feed is lawful line by line, and shows the rows of the sample figure.
pub fn sample_feed()
    ensures lawful { SampleIsLawful }
    ensures rows { SampleShowsRows }
{}

/// The text of that feed is read as its events, and is a lawful feed.
pub fn sample_text()
    ensures read { SampleTextIsRead }
    ensures lawful { SampleTextIsLawful }
{}

/// A crossed quote takes the standing quote away, and what the rows then show.
pub fn crossed_quote()
    ensures lawful { CrossedIsLawful }
    ensures stands_before { UncrossedStands }
    ensures stands_not { CrossedStandsNot }
    ensures no_call { CrossedShowsNoCall }
    ensures no_pair { CrossedHasNoPair }
    ensures pair_beside { CrossedPairIsBeside }
    ensures forward { CrossedForward }
    ensures level { CrossedLevel }
    ensures no_money { CrossedLacksMoney }
{}
