// A cell's place among all cells; and what a written cell holds: a version, and a value unless it is removed.
ghost use Rattle.std.specs.Prelude.{◌≡◌};
ghost use Rattle.model.specs.Slot.{value_field};
ghost use Rattle.codec.specs.Cells.{content_in, rank_of};

use crate::names::{ObjectId, Version};

// How many keys there are: a key has four bytes.
const KEYS: u64 = 4294967296;

#[derive(Clone, Copy, Debug, PartialEq, Eq)]
pub enum Content {
    Removed,
    Value(u32),
}

#[derive(Clone, Copy, Debug, PartialEq, Eq)]
pub struct Written {
    pub version: Version,
    pub content: Content,
}

// The value as it is stored: 0 for a removed cell.
pub fn value_field(c: Content) -> u32
    ensures { result ≡ value_field (content_in c) }
{
    match c {
        Content::Removed => 0,
        Content::Value(v) => v,
    }
}

// The place of a cell among all cells.
pub fn rank(id: ObjectId, key: u32) -> u64
    ensures { result ≡ rank_of id.0 key }
{
    id.0 as u64 * KEYS + key as u64
}
