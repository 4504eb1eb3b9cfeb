//! The prices of quotes and of trades.

ghost use Rattle.std.specs.Prelude.{◌≡◌};
ghost use Rattle.vx_feed.specs.Ranges.{IsPrice};
ghost use Rattle.vx_feed.specs.Listed.{price_of};
ghost use Rattle.vx_check.specs.Trades.{price_of_trade};

use vx_symbol::Price;

pub const NO_PRICE: Price = Price {
    there: false,
    live: false,
    half: 0,
};

/// The price that a quote shows: there where it stands, live where its bid is at least a cent.
pub fn quoted(bid: u32, ask: u32) -> Price
    ensures { IsPrice bid → IsPrice ask → result ≡ price_of bid ask }
{
    if ask < 1 || bid > ask {
        return NO_PRICE;
    }
    Price {
        there: true,
        live: bid >= 1,
        half: bid.saturating_add(ask),
    }
}

/// The price of a trade at so many cents.
pub fn traded(cents: u32) -> Price
    ensures { IsPrice cents → result ≡ price_of_trade cents }
{
    Price {
        there: true,
        live: true,
        half: cents.saturating_mul(2),
    }
}
