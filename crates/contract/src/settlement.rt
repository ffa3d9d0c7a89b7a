// The settlement price of a day.
ghost use Rattle.std.specs.Prelude.{◌≡◌, ◌*◌, ◌<◌, ◌≤◌, unsigned_abs};
ghost use Rattle.prices.specs.Prices.{bearing as bearing_of};
ghost use Rattle.contract.specs.Formulas.{close_price};

use crate::figures::{Figures, IndexRecord};
use crate::quotes::Quotes;
use prices::price::{AccumulatedReturn, Price, mark};
use prices::variance::Returns;
use quantities::Within;

// F, from the mark of bid and offer, with the day's return counted in `index`.
#[tactic(auto, unfolding(crate::specs::Formulas::close_price, crate::specs::Formulas::price_of))]
pub(crate) fn settlement_price(figures: Figures, index: IndexRecord, quotes: Quotes) -> Price
    requires contract { (3 ≤ figures.expected) × (figures.expected ≤ 1024) × (1 ≤ figures.strike) × (figures.strike ≤ 250000000) × (1 ≤ figures.discount) × (figures.discount ≤ 100000000) }
    requires accumulated { unsigned_abs figures.accumulated ≤ 12000000000000 }
    requires returns { (index.returns < figures.expected) × (index.sum_of_squares ≤ 83000000000 * index.returns) }
    ensures value { result.value ≡ close_price figures.expected figures.strike figures.discount index figures.accumulated quotes.bid.value quotes.offer.value }
    ensures bearing { unsigned_abs (bearing_of result.value figures.accumulated) ≤ 21000000005000 }
{
    let returns = Returns {
        expected: Within {
            value: figures.expected,
        },
        count: u64::from(index.returns),
        sum: index.sum_of_squares,
    };
    Price::converted(
        Within {
            value: figures.discount,
        },
        returns.variance_at(mark(quotes.bid, quotes.offer)),
        Within {
            value: figures.strike,
        },
        AccumulatedReturn {
            value: figures.accumulated,
        },
    )
}
