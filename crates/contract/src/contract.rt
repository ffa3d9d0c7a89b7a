// A contract: its figures, and what always holds of them, so that no admitted call can overflow.
ghost use Rattle.std.specs.Prelude.{◌≡◌, ◌+◌, ◌-◌, ◌*◌, ◌≤◌, unsigned_abs};
ghost use Rattle.prices.specs.Prices.{bearing};
ghost use Rattle.contract.specs.Sound.{least_expected, least_strike, least_discount, pending, least_closes, accruals, most_bearing, unpaired, value_or_one};

use crate::figures::Figures;

#[derive(Drop)]
pub struct Contract {
    pub(crate) figures: Figures,
    ghost values: { (least_expected figures.phase ≤ figures.expected) × (figures.expected ≤ 1024) },
    ghost struck: { (least_strike figures.phase ≤ figures.strike) × (figures.strike ≤ 250000000) },
    ghost discounted: { (least_discount figures.phase ≤ figures.discount) × (figures.discount ≤ 100000000) },
    ghost closed: { (least_closes figures.phase ≤ figures.closes) × (figures.closes + pending figures.phase ≤ figures.expected - 1) },
    ghost returned: { figures.index.returns + unpaired figures.index.last ≤ figures.closes },
    ghost summed: { figures.index.sum_of_squares ≤ 83000000000 * figures.index.returns },
    ghost valued: { (1 ≤ value_or_one figures.index.last) × (value_or_one figures.index.last ≤ 9999999) },
    ghost priced: { unsigned_abs figures.price ≤ 3400000000 },
    ghost accrued: { unsigned_abs figures.accumulated ≤ 11666666670 * accruals figures.phase figures.closes },
    ghost bears: { unsigned_abs (bearing figures.price figures.accumulated) ≤ most_bearing figures.phase },
}

impl Contract {
    pub fn figures(&self) -> Figures
        ensures { result ≡ self.now.figures }
    {
        self.figures
    }
}
