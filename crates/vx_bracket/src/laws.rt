//! Laws of the bracket. Each function does nothing: its clause is the law.

ghost use Rattle.vx_bracket.specs.Laws.{BracketHasMember, BracketsMeet, BracketsNest, FormsAgreeAtZero, MembersArePositive, ZeroGivesOne};

/// No bracket is empty.
pub fn bracket_has_member()
    ensures { BracketHasMember }
{}

/// A bracket lies inside every bracket of the same exponent at a lesser `n`.
pub fn brackets_nest()
    ensures { BracketsNest }
{}

/// Any two brackets of one exponent have a common member.
pub fn brackets_meet()
    ensures { BracketsMeet }
{}

/// The members of a bracket are positive, for an exponent of either sign.
pub fn members_are_positive()
    ensures { MembersArePositive }
{}

/// At exponent 0 a bracket holds the value 1 alone.
pub fn zero_gives_one()
    ensures { ZeroGivesOne }
{}

/// At exponent 0 the bracket by reciprocals is the bracket by sums.
pub fn forms_agree_at_zero()
    ensures { FormsAgreeAtZero }
{}
