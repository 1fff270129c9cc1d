// Sets of objects as 64 bits, by shift and mask: bit k is the object at place k of a directory. A promise that needs no bytes is
// made for every directory within its rules.
ghost use Rattle.std.specs.Prelude.{◌≡◌, List, ℕ, ◌≤◌, ltb, length};
ghost use Rattle.lists.specs.Sets.{mem, meets, within};
ghost use Rattle.model.specs.Objects.{hosted, everything, bad_set};
ghost use Rattle.model.specs.Terms.{Listed};
ghost use Rattle.model.specs.Directory.{shape_of};
ghost use Rattle.laws.specs.Ruled.{Ruled, PlaceOf};
ghost use Rattle.directory.specs.Sets.{ListedObject, Only, United, SetWith, Lowest, others_of, after_first};

use crate::layout::MOST_RECORDS;
use codec::names::ObjectId;

// The set has the object that stands at place k, or for which k is the number of records.
pub fn hosts_at(dir: &[u8], set: u64, k: usize) -> bool
    requires { Ruled dir.now }
    ensures { (o : ℕ) → PlaceOf dir.now o k → result ≡ mem o (hosted (shape_of dir.now) set) }
{
    if crate::places::count(dir) <= k {
        return false;
    }
    let bit = (set >> k) & 1;
    bit == 1
}

// The set has the object.
pub fn hosts(dir: &[u8], set: u64, id: ObjectId) -> bool
    requires { Ruled dir.now }
    ensures { result ≡ mem id.0 (hosted (shape_of dir.now) set) }
{
    let k = crate::places::place_of(dir, id);
    hosts_at(dir, set, k)
}

// The set of one object.
pub fn only(dir: &[u8], id: ObjectId) -> u64
    requires { ListedObject dir.now id.0 }
    ensures { Only dir.now id.0 result }
{
    1u64 << crate::places::place_of(dir, id)
}

pub fn union(a: u64, b: u64) -> u64
    ensures { (d : List ℕ) → Ruled d → United d a b result }
{
    a | b
}

// The set with one object more.
pub fn with(dir: &[u8], set: u64, id: ObjectId) -> u64
    requires { ListedObject dir.now id.0 }
    ensures { SetWith dir.now set id.0 result }
{
    union(set, only(dir, id))
}

// Two sets have an object in common, in every directory that has a record for each bit of the second.
pub fn share(a: u64, b: u64) -> bool
    ensures { (d : List ℕ) → Ruled d → Listed (shape_of d) b → result ≡ meets (hosted (shape_of d) a) (hosted (shape_of d) b) }
{
    (a & b) != 0
}

// The first set has all objects of the second, in every such directory.
pub fn has_all(a: u64, b: u64) -> bool
    ensures { (d : List ℕ) → Ruled d → Listed (shape_of d) b → result ≡ within (hosted (shape_of d) a) (hosted (shape_of d) b) }
{
    (a & b) == b
}

// How many objects the set has.
pub fn size(set: u64) -> usize
    ensures { (d : List ℕ) → Ruled d → Listed (shape_of d) set → result ≡ length (hosted (shape_of d) set) }
{
    u64::count_ones(set) as usize
}

// The place in the directory of the first object of a set. The others are the set `others(set)`.
pub fn lowest(set: u64) -> usize
    requires { 1 ≤ set }
    ensures { (d : List ℕ) → Ruled d → Listed (shape_of d) set → Lowest d set result }
{
    u64::trailing_zeros(set) as usize
}

// The set without its first object; none is left of none.
pub fn others(set: u64) -> u64
    ensures { (result ≡ others_of set) × ((d : List ℕ) → Ruled d → Listed (shape_of d) set → hosted (shape_of d) result ≡ after_first (hosted (shape_of d) set)) }
{
    if set == 0 {
        return 0;
    }
    set & (set - 1)
}

// The set has over four objects. Quicker than a count of its bits, which takes many steps where the processor has no instruction for it.
pub fn is_over_four(set: u64) -> bool
    ensures { (d : List ℕ) → Ruled d → Listed (shape_of d) set → result ≡ ltb 4 (length (hosted (shape_of d) set)) }
{
    let a = others(set);
    let b = others(a);
    let c = others(b);
    others(c) != 0
}

// The set has no object, or a bit past the last record's.
pub fn is_bad(dir: &[u8], set: u64) -> bool
    requires { Ruled dir.now }
    ensures { result ≡ bad_set (shape_of dir.now) set }
{
    if set == 0 {
        return true;
    }
    let n = crate::places::count(dir);
    if MOST_RECORDS <= n {
        return false;
    }
    (set >> n) != 0
}

// The set of all objects of the directory.
pub fn all(dir: &[u8]) -> u64
    requires { Ruled dir.now }
    ensures { result ≡ everything (shape_of dir.now) }
{
    let n = crate::places::count(dir);
    if MOST_RECORDS <= n {
        return u64::MAX;
    }
    (1u64 << n) - 1
}
