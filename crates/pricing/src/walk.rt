// The rows of a map walked beside the prices.
ghost use Rattle.std.specs.Prelude.{◌≡◌};
ghost use Rattle.model.specs.Answers.{refuse_at, answer};
ghost use Rattle.model.specs.Pricing.{prices_in};
ghost use Rattle.table.specs.Rows.{cell_in};
ghost use Rattle.table.specs.Order.{rows_of};
ghost use Rattle.pricing.specs.Rows.{is_summed, lack_in, sum_in};
ghost use Rattle.pricing.specs.Walks.{priced_in, StepGiven, Stepped, WalkGiven};

use crate::lines::Sum;
use answers::Refusal;
use table::rows::Row;

// The place among the prices, and the sum so far.
#[derive(Clone, Copy)]
pub struct Tally {
    pub place: usize,
    pub sum: Sum,
}

// The row is a cell of the map, present, with a quantity over 0.
fn is_summed(r: Row, highest: u32) -> bool
    ensures { result ≡ is_summed highest (cell_in r) }
{
    r.key <= highest && r.present == 1 && 0 < r.value
}

// One row more.
fn step(r: Row, highest: u32, prices: &[u8], w: Tally) -> Result<Tally, Refusal>
    requires { StepGiven prices.now w (cell_in r) }
    ensures { Stepped prices.now highest w (cell_in r) result }
{
    if !is_summed(r, highest) {
        return Ok(w);
    }
    let k = crate::prices::seek(prices, w.place, r.key);
    if !crate::prices::is_at(prices, k, r.key) {
        return Err(Refusal::NoPrice(r.key));
    }
    let line = crate::lines::line(r.value, crate::prices::price_at(prices, k));
    Ok(Tally {
        place: k,
        sum: crate::lines::add(w.sum, line),
    })
}

// The n rows of a map from the first on, with its highest key.
pub fn walk(
    table: &[u8],
    first: usize,
    n: usize,
    highest: u32,
    prices: &[u8],
) -> Result<Sum, Refusal>
    requires { WalkGiven table.now first n prices.now }
    ensures { priced_in result ≡ answer (refuse_at 19 (lack_in highest (prices_in prices.now) (rows_of table.now first n))) (sum_in highest (prices_in prices.now) (rows_of table.now first n)) }
{
    let mut w = Tally {
        place: 0,
        sum: Sum { high: 0, low: 0 },
    };
    for i in 0..n {
        let r = table::rows::row_at(table, first + i);
        w = step(r, highest, prices, w)?;
    }
    Ok(w.sum)
}
