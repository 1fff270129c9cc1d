// A list of price records: what stands at a place, and whether the list is good.
ghost use Rattle.std.specs.Prelude.{◌≡◌, ◌&&◌, ◌+◌, ◌*◌, ◌≤◌, eqb, ltb, length};
ghost use Rattle.lists.specs.Rows.{values};
ghost use Rattle.lists.specs.Sets.{all, ascending};
ghost use Rattle.model.specs.Pricing.{price_size, price_at, ok_price, price_before, price_count, prices_in, bad_prices};
ghost use Rattle.pricing.specs.Prices.{price_in, key_of, Under, Sought};

use crate::layout::{
    CENTS_BEGIN, FROM_BEGINS, KEY_BEGINS, MARK_PRICE, MOST_CENTS, MOST_PERCENT, PERCENT_BEGINS,
    PRICE_SIZE, ZEROS_BEGIN,
};

#[derive(Clone, Copy)]
pub struct Price {
    pub key: u32,
    pub cents: u32,
    pub from: u32,
    pub percent: u32,
}

// How many records the list has.
pub fn count(prices: &[u8]) -> usize
    ensures { result ≡ price_count prices.now }
{
    prices.len() / PRICE_SIZE
}

pub fn key_at(prices: &[u8], k: usize) -> u32
    requires { price_size * k + price_size ≤ length prices.now }
    ensures { result ≡ key_of prices.now k }
{
    codec::bytes::be32(prices, PRICE_SIZE * k + KEY_BEGINS)
}

#[tactic(auto, unfolding(model::specs::Pricing::price_at))]
pub fn price_at(prices: &[u8], k: usize) -> Price
    requires { price_size * k + price_size ≤ length prices.now }
    ensures { price_in result ≡ price_at prices.now (price_size * k) }
{
    let at = PRICE_SIZE * k;
    Price {
        key: codec::bytes::be32(prices, at + KEY_BEGINS),
        cents: codec::bytes::be32(prices, at + CENTS_BEGIN),
        from: codec::bytes::be32(prices, at + FROM_BEGINS),
        percent: codec::bytes::be32(prices, at + PERCENT_BEGINS),
    }
}

// The record at byte i has its mark and its zero bytes, and its fields are in range.
#[tactic(auto, unfolding(model::specs::Pricing::ok_price))]
fn is_record(prices: &[u8], i: usize) -> bool
    requires { i + price_size ≤ length prices.now }
    ensures { result ≡ ok_price prices.now i }
{
    codec::bytes::be16(prices, i) == MARK_PRICE
        && codec::bytes::be16(prices, i + ZEROS_BEGIN) == 0
        && codec::bytes::be32(prices, i + CENTS_BEGIN) <= MOST_CENTS
        && codec::bytes::be32(prices, i + PERCENT_BEGINS) <= MOST_PERCENT
}

// Each record is within its rules.
fn are_records(prices: &[u8]) -> bool
    ensures { result ≡ all (ok_price prices.now) (values (λ k. price_size * k) 0 (price_count prices.now)) }
{
    (0..count(prices)).all(|k| is_record(prices, PRICE_SIZE * k))
}

// The key at place k is below the next.
#[tactic(auto, unfolding(model::specs::Pricing::price_at))]
fn is_before_next(prices: &[u8], k: usize) -> bool
    requires { price_size * (k + 1) + price_size ≤ length prices.now }
    ensures { result ≡ price_before (price_at prices.now (price_size * k)) (price_at prices.now (price_size * (k + 1))) }
{
    key_at(prices, k) < key_at(prices, k + 1)
}

// Keys ascend strictly.
fn are_ascending(prices: &[u8]) -> bool
    ensures { result ≡ ascending price_before (prices_in prices.now) }
{
    (1..count(prices)).all(|k| is_before_next(prices, k - 1))
}

#[tactic(auto, unfolding(model::specs::Pricing::bad_prices))]
pub fn are_bad(prices: &[u8]) -> bool
    ensures { result ≡ bad_prices prices.now }
{
    prices.len() % PRICE_SIZE != 0 || !are_records(prices) || !are_ascending(prices)
}

// The first place from another on whose key is not below this one; the number of records where there is none.
pub fn seek(prices: &[u8], from: usize, key: u32) -> usize
    requires { Under prices.now from key }
    ensures { Sought prices.now key result }
{
    let n = count(prices);
    for k in from..n {
        if key <= key_at(prices, k) {
            return k;
        }
    }
    n
}

// Place k has the record of this key.
pub fn is_at(prices: &[u8], k: usize, key: u32) -> bool
    ensures { result ≡ (ltb k (price_count prices.now) && eqb (key_of prices.now k) key) }
{
    k < count(prices) && key_at(prices, k) == key
}
