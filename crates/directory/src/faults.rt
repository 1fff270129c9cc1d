// The first place at fault in a directory (1.11, 1.12): each place is judged by itself and by the id before it.
ghost use Rattle.std.specs.Prelude.{◌≡◌, ◌+◌, ◌*◌, ◌≤◌, length};
ghost use Rattle.model.specs.Directory.{record_size, ok_kind_and_key, ok_record, follows, at_fault, places, shape_of};
ghost use Rattle.codec.specs.Options.{option_in};
ghost use Rattle.directory.specs.Faults.{ok_frame, ok_id};

use crate::layout::{
    HIGHEST_BEGINS, ID_BEGINS, IDS_END, KEYS_END, KIND_BEGINS, LAST_BEGINS, MAP, MARK_OBJECT,
    MARKED, MARKED_BEGINS, MOST_RECORDS, RECORD_SIZE, REGISTER, ZEROS_BEGIN,
};

// The record at byte i has its mark and its zero bytes.
fn is_framed(dir: &[u8], i: usize) -> bool
    requires { i + record_size ≤ length dir.now }
    ensures { result ≡ ok_frame dir.now i }
{
    if codec::bytes::be16(dir, i) != MARK_OBJECT {
        return false;
    }
    if codec::bytes::be16(dir, i + ZEROS_BEGIN) != 0 {
        return false;
    }
    codec::bytes::be16(dir, i + LAST_BEGINS) == 0
}

// An object may have this number.
fn is_id(id: u32) -> bool
    ensures { result ≡ ok_id id }
{
    if id < 1 {
        return false;
    }
    id < IDS_END
}

// An object of this kind may have this highest key.
fn is_kind_and_key(kind: u32, highest: u32) -> bool
    ensures { result ≡ ok_kind_and_key kind highest }
{
    if kind == MAP {
        return highest < KEYS_END;
    }
    if kind == REGISTER {
        return highest == 0;
    }
    false
}

// The record at byte i is good by itself.
fn is_record(dir: &[u8], i: usize) -> bool
    requires { i + record_size ≤ length dir.now }
    ensures { result ≡ ok_record dir.now i }
{
    if !is_framed(dir, i) {
        return false;
    }
    if !is_id(codec::bytes::be32(dir, i + ID_BEGINS)) {
        return false;
    }
    if !is_kind_and_key(
        codec::bytes::be8(dir, i + KIND_BEGINS),
        codec::bytes::be32(dir, i + HIGHEST_BEGINS),
    ) {
        return false;
    }
    codec::bytes::be8(dir, i + MARKED_BEGINS) <= MARKED
}

// The id at place k is above that of the place before.
fn is_above(dir: &[u8], k: usize) -> bool
    requires { record_size * k + record_size ≤ length dir.now }
    ensures { result ≡ follows dir.now k }
{
    if k == 0 {
        return true;
    }
    crate::places::id_at(dir, k - 1) < crate::places::id_at(dir, k)
}

// Place k is at fault.
fn is_at_fault(dir: &[u8], k: usize) -> bool
    ensures { result ≡ at_fault dir.now k }
{
    if MOST_RECORDS <= k {
        return true;
    }
    if dir.len() < RECORD_SIZE * k + RECORD_SIZE {
        return true;
    }
    if !is_record(dir, RECORD_SIZE * k) {
        return true;
    }
    !is_above(dir, k)
}

// How many places are judged: every record begun, and at least one.
fn judged(dir: &[u8]) -> usize
    ensures { result ≡ places dir.now }
{
    if dir.len() == 0 {
        return 1;
    }
    (dir.len() - 1) / RECORD_SIZE + 1
}

// The first place at fault, if there is one. Place 64 is always one, so that no more than 65 are looked at.
pub fn fault(dir: &[u8]) -> Option<u64>
    ensures { option_in result ≡ (shape_of dir.now).fault }
{
    let n = judged(dir);
    for k in 0..n {
        if is_at_fault(dir, k) {
            return Some(k as u64);
        }
    }
    None
}
