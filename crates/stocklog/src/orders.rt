// What the order of a map costs, in two parts of 64 bits.
ghost use Rattle.std.specs.Prelude.{◌≡◌};
ghost use Rattle.model.specs.Directory.{shape_of};
ghost use Rattle.model.specs.Pricing.{price};
ghost use Rattle.pricing.specs.Walks.{priced_in};
ghost use Rattle.stocklog.specs.Replies.{price_reply};
ghost use Rattle.stocklog.specs.Numbers.{numbers_in};

use crate::numbers::{self, NONE, Numbers, Values};
use answers::Refusal;
use codec::names::ObjectId;
use pricing::lines::Sum;
use records::Record;

fn of_priced(a: Result<Sum, Refusal>) -> Numbers
    ensures { numbers_in result ≡ price_reply (priced_in a) }
{
    numbers::answered(a, NONE, |total| Values(total.high, total.low, 0))
}

// The total of a hosted map by a list of prices.
#[unsafe(no_mangle)]
pub extern "C" fn stocklog_price(
    dir: &[u8],
    hosted: u64,
    position: u64,
    count: u64,
    table: &[u8],
    object: u32,
    prices: &[u8],
    out: &mut [u64; 4],
) -> u32
    ensures { record { number = result; out = out.new } ≡ price_reply (price (shape_of dir.now) (record { hosting = hosted; position = position; count = count }) table.now object prices.now) }
{
    let r = Record {
        hosted,
        position,
        count,
    };
    let a = pricing::call::price(dir, r, table, ObjectId(object), prices);
    numbers::put(out, of_priced(a))
}
