//! A position in volatility futures, and the dollars that a point of it is worth.

ghost use Rattle.std.specs.Prelude.{◌≡◌};
ghost use Rattle.vx_settle.specs.Position.{multiplier_of};

use crate::limits::{MINI_MULTIPLIER, STANDARD_MULTIPLIER};

/// A contract in volatility futures.
#[derive(Clone, Copy, Debug, PartialEq, Eq)]
pub enum Contract {
    /// The standard contract.
    Vx,
    /// The mini contract.
    Vxm,
}

impl Contract {
    /// Dollars a point: 1,000 of the standard contract, 100 of the mini.
    pub fn multiplier(self) -> u32
        ensures { result ≡ multiplier_of self }
    {
        match self {
            Contract::Vx => STANDARD_MULTIPLIER,
            Contract::Vxm => MINI_MULTIPLIER,
        }
    }
}

/// A position in one contract.
#[derive(Clone, Copy, Debug, PartialEq, Eq)]
pub struct Position {
    pub contract: Contract,
    /// How many contracts, below zero where they were sold.
    pub quantity: i32,
    /// The price at which it was last settled, in ten-thousandths of a point.
    pub last: u32,
}
