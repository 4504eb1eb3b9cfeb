//! The laws of fractions that are compared by cross multiplication.
//!
//! Each call does nothing, and its contract is the law: a caller that needs the law makes the call.
//! Proofs cite the same laws, and more, from `Rattle.vx_num.proofs.Fractions`.

ghost use Rattle.std.specs.Prelude.{◌↔◌, ◌⊎◌, ℕ, pos, ◌≤◌, ◌≤ℤ◌, ◌<ℤ◌};
ghost use Rattle.vx_num.specs.Fraction.{◌*ᶠ◌, ◌+ᶠ◌, ◌-ᶠ◌, ◌/ᶠ◌, ◌≃ᶠ◌, ◌≤ᶠ◌, Fraction, IsProper};

/// A fraction is at most itself.
pub fn order_is_reflexive()
    ensures { (f : Fraction) → f ≤ᶠ f }
{}

/// What is at most something in the middle is at most what that is at most.
pub fn order_is_transitive()
    ensures { (f g h : Fraction) → IsProper g → f ≤ᶠ g → g ≤ᶠ h → f ≤ᶠ h }
{}

/// Of two fractions one is at most the other.
pub fn order_is_total()
    ensures { (f g : Fraction) → (f ≤ᶠ g) ⊎ (g ≤ᶠ f) }
{}

/// Fractions of which each is at most the other are equal in value, and only those.
pub fn order_is_antisymmetric()
    ensures { (f g : Fraction) → ((f ≤ᶠ g) × (g ≤ᶠ f)) ↔ (f ≃ᶠ g) }
{}

/// To be equal in value is reflexive, symmetric and transitive.
pub fn equality_is_an_equivalence()
    ensures reflexive { (f : Fraction) → f ≃ᶠ f }
    ensures symmetric { (f g : Fraction) → f ≃ᶠ g → g ≃ᶠ f }
    ensures transitive { (f g h : Fraction) → IsProper g → f ≃ᶠ g → g ≃ᶠ h → f ≃ᶠ h }
{}

/// Sums grow with both summands. A difference grows with what it is taken from, and falls with what
/// is taken away.
pub fn sums_are_monotone()
    ensures sum { (f f' g g' : Fraction) → f ≤ᶠ f' → g ≤ᶠ g' → (f +ᶠ g) ≤ᶠ (f' +ᶠ g') }
    ensures difference { (f f' g g' : Fraction) → f ≤ᶠ f' → g' ≤ᶠ g → (f -ᶠ g) ≤ᶠ (f' -ᶠ g') }
{}

/// A product grows with a factor where the other is not negative, and falls where the other is not
/// positive. It grows with both where the lesser two are not negative.
pub fn products_are_monotone()
    ensures growing { (f g h : Fraction) → pos 0 ≤ℤ h.top → f ≤ᶠ g → (f *ᶠ h) ≤ᶠ (g *ᶠ h) }
    ensures falling { (f g h : Fraction) → h.top ≤ℤ pos 0 → f ≤ᶠ g → (g *ᶠ h) ≤ᶠ (f *ᶠ h) }
    ensures both { (f f' g g' : Fraction) → pos 0 ≤ℤ f.top → pos 0 ≤ℤ g.top
        → f ≤ᶠ f' → g ≤ᶠ g' → (f *ᶠ g) ≤ᶠ (f' *ᶠ g') }
{}

/// A factor above zero, and a divisor above zero, changes no order, and can be taken away again.
pub fn scaling_keeps_order()
    ensures factor { (f g h : Fraction) → IsProper h → pos 0 <ℤ h.top → (f ≤ᶠ g) ↔ ((f *ᶠ h) ≤ᶠ (g *ᶠ h)) }
    ensures divisor { (f g : Fraction) (n : ℕ) → 1 ≤ n → (f ≤ᶠ g) ↔ ((f /ᶠ n) ≤ᶠ (g /ᶠ n)) }
{}
