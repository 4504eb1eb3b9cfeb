//! Division that rounds down or up.

ghost use Rattle.std.specs.Prelude.{◌<ℤ◌, pos};
ghost use Rattle.vx_num.specs.Quotient.{IsCeiling, IsFloor};

/// The greatest whole number at most `a / b`.
pub fn div_floor(a: i128, b: i128) -> i128
    requires { pos 0 <ℤ b }
    ensures { IsFloor a b result }
{
    a.div_euclid(b)
}

/// The least whole number at least `a / b`.
pub fn div_ceil(a: i128, b: i128) -> i128
    requires { pos 0 <ℤ b }
    ensures { IsCeiling a b result }
{
    // No dividend is negated, since the least number of this width has no opposite.
    if a > 0 {
        (a - 1).div_euclid(b) + 1
    } else {
        a / b
    }
}
