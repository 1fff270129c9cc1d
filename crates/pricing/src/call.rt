// The call: what a map of a replica costs.
ghost use Rattle.std.specs.Prelude.{◌≡◌};
ghost use Rattle.model.specs.Directory.{shape_of};
ghost use Rattle.model.specs.Table.{cells_of};
ghost use Rattle.model.specs.Answers.{refuse_at, answer};
ghost use Rattle.model.specs.Pricing as model;
ghost use Rattle.laws.specs.Ruled.{Ruled};
ghost use Rattle.records.specs.Record.{replica_in};
ghost use Rattle.pricing.specs.Walks.{priced_in};
ghost use Rattle.pricing.specs.Calls.{OrderGiven};

use crate::lines::Sum;
use answers::Refusal;
use codec::names::ObjectId;
use records::Record;

// The rows of a map in order, by a good list of prices.
fn sum_up(
    dir: &[u8],
    table: &[u8],
    count: usize,
    id: ObjectId,
    prices: &[u8],
) -> Result<Sum, Refusal>
    requires { OrderGiven dir.now table.now count id.0 prices.now }
    ensures { priced_in result ≡ answer (refuse_at 19 (model.unpriced (shape_of dir.now) id.0 (model.prices_in prices.now) (cells_of table.now count))) (model.total (shape_of dir.now) id.0 (model.prices_in prices.now) (cells_of table.now count)) }
{
    let highest = directory::maps::highest_of(dir, id);
    let s = table::order::stretch_of(table, count, id);
    crate::walk::walk(table, s.first, s.count, highest, prices)
}

// The price, in a directory within its rules.
fn price_ruled(
    dir: &[u8],
    r: Record,
    table: &[u8],
    id: ObjectId,
    prices: &[u8],
) -> Result<Sum, Refusal>
    requires { Ruled dir.now }
    ensures { priced_in result ≡ model.price (shape_of dir.now) (replica_in r) table.now id.0 prices.now }
{
    if !records::fits(dir, r, table) {
        return Err(Refusal::BadReplica);
    }
    if !directory::sets::hosts(dir, r.hosted, id) {
        return Err(Refusal::Request);
    }
    if !directory::maps::is_map(dir, id) {
        return Err(Refusal::Request);
    }
    if crate::prices::are_bad(prices) {
        return Err(Refusal::Request);
    }
    sum_up(dir, table, r.count as usize, id, prices)
}

// What the cells of a hosted map cost; where a line has no price, the lowest key of such a line.
pub fn price(
    dir: &[u8],
    r: Record,
    table: &[u8],
    id: ObjectId,
    prices: &[u8],
) -> Result<Sum, Refusal>
    ensures { priced_in result ≡ model.price (shape_of dir.now) (replica_in r) table.now id.0 prices.now }
{
    answers::directed(dir)?;
    price_ruled(dir, r, table, id, prices)
}
