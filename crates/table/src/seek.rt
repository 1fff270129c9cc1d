// The row of a cell among rows in any order: they are the nodes of a tree in a lent array (crate tree), with the row at place main + i as
// the node i. A new row is put in by `tree::put`.
ghost use Rattle.std.specs.Prelude.{◌≡◌, ◌≤◌};
ghost use Rattle.codec.specs.Cells.{rank_of};
ghost use Rattle.table.specs.Seek.{hash_of, head_of, Seeks, Sought};

use codec::layout::CELL_SIZE;
use codec::names::ObjectId;

// Odd factors below 2^31, so that the sum of both products is below 2^64. The first is 2^32 divided by the square of the golden
// ratio: multiples of it lie far apart, so keys that follow each other get places of their own.
const KEY_FACTOR: u64 = 1640531527;

const OBJECT_FACTOR: u64 = 1481765933;

// How many low bits are left out: they depend on few bits of the key.
const LOW_BITS: u32 = 16;

// A hash of a cell.
fn hash(id: ObjectId, key: u32) -> u64
    ensures { result ≡ hash_of id.0 key }
{
    (key as u64 * KEY_FACTOR + id.0 as u64 * OBJECT_FACTOR) >> LOW_BITS
}

// The head of a cell among so many. All of them are used where their number is a power of two.
pub fn head_of(id: ObjectId, key: u32, heads: usize) -> usize
    requires { 1 ≤ heads }
    ensures { result ≡ head_of heads (rank_of id.0 key) }
{
    hash(id, key) as usize & (heads - 1)
}

// The slot where the way of a cell ends: it holds the cell's row, counted from `main` on, plus 1, or 0. At most 65 rows are looked at,
// whatever the cells.
pub fn place(
    table: &[u8],
    main: usize,
    index: &[u32],
    heads: usize,
    id: ObjectId,
    key: u32,
) -> usize
    requires { Seeks table.now main index.now heads }
    ensures { Sought table.now main index.now heads id.0 key result }
{
    let cell = codec::cells::rank(id, key);
    let mut slot = head_of(id, key, heads);
    let mut rest = cell;
    for _ in 0..=u64::BITS {
        let node = index[slot] as usize;
        if node == 0 {
            return slot;
        }
        if codec::bytes::be64(table, CELL_SIZE * (main + (node - 1))) == cell {
            return slot;
        }
        slot = heads + 2 * (node - 1) + (rest % 2) as usize;
        rest = rest / 2;
    }
    slot
}
