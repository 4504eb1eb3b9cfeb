//! Laws of the formula. Each function does nothing: its clause is the law.

ghost use Rattle.vx_formula.specs.Laws.{ClosestPairIsOne, ClosestPairIsThere, ExponentIsSmall, LevelRises, LevelIsOne, LevelIsNotBelowAll, SelectedRowsAreListed, SelectedRowsRise, LevelIsSelected, SelectionGoesByRows, UpperEndIsCeiling, FigureIsOne, RoundingIsHalfOpen, FigureLiesInEnds, FigureIsNotNegative, ClearIndexIsDecided, FarForwardIsDecided, FirstTermRefusalIsOne, FirstRefusalIsOne, FirstOpeningRefusalIsOne};

/// Rows in rising order of strike have at most one closest pair.
pub fn closest_pair_is_one()
    ensures { ClosestPairIsOne }
{}

/// Rows have a closest pair unless no row has both sides live.
pub fn closest_pair_is_there()
    ensures { ClosestPairIsThere }
{}

/// Every rate and number of minutes in range give an exponent of at most an eighth, of either sign.
pub fn exponent_is_small()
    ensures { ExponentIsSmall }
{}

/// The level does not fall where the forward rises.
pub fn level_rises()
    ensures { LevelRises }
{}

/// A term has at most one level.
pub fn level_is_one()
    ensures { LevelIsOne }
{}

/// A term with a level has a listed strike at or below its forward.
pub fn level_is_not_below_all()
    ensures { LevelIsNotBelowAll }
{}

/// The selected rows are listed rows.
pub fn selected_rows_are_listed()
    ensures { SelectedRowsAreListed }
{}

/// The selected rows are in rising order of strike, as the listed rows are.
pub fn selected_rows_rise()
    ensures { SelectedRowsRise }
{}

/// The level's row is always among the selected rows.
pub fn level_is_selected()
    ensures { LevelIsSelected }
{}

/// What is selected, said of each row by itself and its neighbours.
pub fn selection_goes_by_rows()
    ensures { SelectionGoesByRows }
{}

/// The end of a row that counts against the greatest sum is its contribution rounded up.
pub fn upper_end_is_ceiling()
    ensures { UpperEndIsCeiling }
{}

/// Two different figures cannot both be the exact value rounded.
pub fn figure_is_one()
    ensures { FigureIsOne }
{}

/// A figure rounds the exact value just where this lies from half a cent below it, included, to half a
/// cent above it, not included.
pub fn rounding_is_half_open()
    ensures { RoundingIsHalfOpen }
{}

/// Any two ends around the exact value reach into the half cents of the figure that rounds it.
pub fn figure_lies_in_ends()
    ensures { FigureLiesInEnds }
{}

/// Where a figure rounds, the square of the index is not negative.
pub fn figure_is_not_negative()
    ensures { FigureIsNotNegative }
{}

/// An index that is clear of every boundary has no undecided cents.
pub fn clear_index_is_decided()
    ensures { ClearIndexIsDecided }
{}

/// A forward that is far from every listed strike is not undecided.
pub fn far_forward_is_decided()
    ensures { FarForwardIsDecided }
{}

/// A term has at most one first refusal.
pub fn first_term_refusal_is_one()
    ensures { FirstTermRefusalIsOne }
{}

/// A tick has at most one first refusal.
pub fn first_refusal_is_one()
    ensures { FirstRefusalIsOne }
{}

/// An opening has at most one first refusal.
pub fn first_opening_refusal_is_one()
    ensures { FirstOpeningRefusalIsOne }
{}
