// The bytes of a price record and the bounds of its fields, as the model has them.
pub const PRICE_SIZE: usize = 20;

pub const MARK_PRICE: u32 = 0x5052;

pub const ZEROS_BEGIN: usize = 2;

pub const KEY_BEGINS: usize = 4;

pub const CENTS_BEGIN: usize = 8;

pub const FROM_BEGINS: usize = 12;

pub const PERCENT_BEGINS: usize = 16;

pub const MOST_CENTS: u32 = 9999999;

pub const MOST_PERCENT: u32 = 100;
