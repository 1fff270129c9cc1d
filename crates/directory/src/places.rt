// What stands at a place of a directory, and the place of an object.
ghost use Rattle.std.specs.Prelude.{◌≡◌, ◌&&◌, ◌+◌, ◌*◌, ◌≤◌, ◌<◌, eqb, ltb, length};
ghost use Rattle.model.specs.Objects.{is_map_kind};
ghost use Rattle.model.specs.Directory.{record_size, id_at, record_at};
ghost use Rattle.laws.specs.Ruled.{Ruled, records, PlaceOf};
ghost use Rattle.directory.specs.Places.{Searched};

use crate::layout::{HIGHEST_BEGINS, ID_BEGINS, KIND_BEGINS, RECORD_SIZE, REGISTER};
use codec::names::ObjectId;

// How many records the directory has.
pub fn count(dir: &[u8]) -> usize
    ensures { result ≡ records dir.now }
{
    dir.len() / RECORD_SIZE
}

// The id in the record at place k.
pub fn id_at(dir: &[u8], k: usize) -> u32
    requires { record_size * k + record_size ≤ length dir.now }
    ensures { result ≡ id_at dir.now (record_size * k) }
{
    codec::bytes::be32(dir, RECORD_SIZE * k + ID_BEGINS)
}

pub fn highest_at(dir: &[u8], k: usize) -> u32
    requires { k < records dir.now }
    ensures { result ≡ (record_at dir.now (record_size * k)).highest }
{
    codec::bytes::be32(dir, RECORD_SIZE * k + HIGHEST_BEGINS)
}

// The object at place k is a map, not a register.
pub fn is_map_at(dir: &[u8], k: usize) -> bool
    requires { k < records dir.now }
    ensures { result ≡ is_map_kind (record_at dir.now (record_size * k)).kind }
{
    codec::bytes::be8(dir, RECORD_SIZE * k + KIND_BEGINS) != REGISTER
}

// The object stands at place k.
fn stands_at(dir: &[u8], k: usize, id: ObjectId) -> bool
    ensures { result ≡ (ltb k (records dir.now) && eqb (id_at dir.now (record_size * k)) id.0) }
{
    if count(dir) <= k {
        return false;
    }
    id_at(dir, k) == id.0
}

// Where the object belongs by its id: after those with lower ids.
fn search(dir: &[u8], id: ObjectId) -> usize
    requires { Ruled dir.now }
    ensures { Searched dir.now id.0 result }
{
    let mut low = 0;
    let mut high = count(dir);
    while low < high {
        let mid = low + (high - low) / 2;
        if id_at(dir, mid) < id.0 {
            low = mid + 1;
        } else {
            high = mid;
        }
    }
    low
}

// The place of the object among all, or the number of records.
fn find(dir: &[u8], id: ObjectId) -> usize
    requires { Ruled dir.now }
    ensures { PlaceOf dir.now id.0 result }
{
    let k = search(dir, id);
    if stands_at(dir, k, id) {
        return k;
    }
    count(dir)
}

// The place of the object where ids are 1, 2, 3 and so on. Whoever asks tests it.
fn guess(id: ObjectId) -> usize {
    if id.0 == 0 {
        return 0;
    }
    (id.0 - 1) as usize
}

// The place of the object, or the number of records where the directory does not list it.
pub fn place_of(dir: &[u8], id: ObjectId) -> usize
    requires { Ruled dir.now }
    ensures { PlaceOf dir.now id.0 result }
{
    let k = guess(id);
    if stands_at(dir, k, id) {
        return k;
    }
    find(dir, id)
}
