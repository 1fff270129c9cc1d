// The line of a quantity at a price, and a sum of lines in two parts of 64 bits.
ghost use Rattle.std.specs.Prelude.{◌≡◌, ◌+◌, ◌≤◌, ◌<◌, ◌^◌};
ghost use Rattle.model.specs.Pricing.{line_of};
ghost use Rattle.laws.proofs.Prices.{most_line};
ghost use Rattle.pricing.specs.Prices.{price_in, InRange};
ghost use Rattle.pricing.specs.Sums.{sum_of};

use crate::layout::MOST_PERCENT;
use crate::prices::Price;

// A half of a cent, in hundredths.
const HALF: u64 = 50;

const WHOLE: u64 = 100;

// From the break quantity on the line is lowered by the percent, and rounded.
pub fn line(q: u32, p: Price) -> u64
    requires { InRange p }
    ensures { (result ≡ line_of q (price_in p)) × (result ≤ most_line) }
{
    let full = (q as u64) * (p.cents as u64);
    if q < p.from {
        return full;
    }
    let left = (MOST_PERCENT - p.percent) as u64;
    (full * left + HALF) / WHOLE
}

#[derive(Clone, Copy)]
pub struct Sum {
    pub high: u64,
    pub low: u64,
}

// With a line more; what does not fit the low part is carried.
pub fn add(sum: Sum, line: u64) -> Sum
    requires { sum.high + 1 < 2 ^ 64 }
    ensures { (sum_of result ≡ sum_of sum + line) × (result.high ≤ sum.high + 1) }
{
    match sum.low.checked_add(line) {
        Some(low) => Sum {
            high: sum.high,
            low,
        },
        None => Sum {
            high: sum.high + 1,
            low: sum.low.wrapping_add(line),
        },
    }
}
