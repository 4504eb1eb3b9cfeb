//! Laws of intervals of which one lies inside the other. Each function does nothing: its clauses are
//! the laws.

ghost use Rattle.vx_interval.specs.Laws.{DifferencesLieInside, EqualValuesAreMembers, MembersStayInWider, MultiplesLieInside, ProductsLieInside, QuotientsLieInside, RescaledLieInside, SquaresLieInside, SumsLieInside};

/// A member of an interval is a member of every wider one, and so is what equals it in value.
pub fn members_stay_in_wider()
    ensures wider { MembersStayInWider }
    ensures equal_value { EqualValuesAreMembers }
{}

/// Each operation on smaller intervals lies inside the same operation on larger ones.
pub fn smaller_operations_lie_inside()
    ensures sum { SumsLieInside }
    ensures difference { DifferencesLieInside }
    ensures multiple { MultiplesLieInside }
    ensures quotient { QuotientsLieInside }
    ensures rescaled { RescaledLieInside }
    ensures product { ProductsLieInside }
    ensures square { SquaresLieInside }
{}
