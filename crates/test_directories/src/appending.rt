// The four appends, each on a copy of the log.
ghost use Rattle.std.specs.Prelude.{◌≡◌, ◌≤◌, length};
ghost use Rattle.model.specs.Slot.{item_size};

use crate::told::{TABLE_SIZE, Told};
use answers::Refusal;
use codec::layout::{ITEM_SIZE, SLOT_SIZE};
use codec::names::{Names, ObjectId, Offset, TxNumber};
use records::Record;

// The most bytes of a log.
const LOG_SIZE: usize = 4096;
// The transaction that is committed, and the commit record that is decided, with its outcome.
const NUMBER: u32 = 9;

const DECIDED: u64 = 3;

const OUTCOME: u32 = 1;

// The item of a cell with two numbers, of 4 bytes each.
fn put_item(item: &mut [u8], t: Told, third: u32, fourth: u32)
    requires { length item.old ≡ item_size }
{
    codec::bytes::put32(item, 0, t.object);
    codec::bytes::put32(item, 4, t.key);
    codec::bytes::put32(item, 8, third);
    codec::bytes::put32(item, 12, fourth);
}

// A plain put of 1 to the cell.
fn update(dir: &[u8], log: &mut [u8], t: Told) -> Result<usize, Refusal> {
    io::write_all(1, b"update");
    let mut item = [0u8; ITEM_SIZE];
    put_item(&mut item, t, 1, 1);
    append::update::update(dir, log, t.tail as usize, TxNumber(0), &item)
}

// A commit record that reads the cell with version 0, and names no number.
fn commit(dir: &[u8], log: &mut [u8], t: Told) -> Result<usize, Refusal> {
    io::write_all(1, b"commit");
    let mut item = [0u8; ITEM_SIZE];
    put_item(&mut item, t, 0, 0);
    append::commit::commit(
        dir,
        log,
        t.tail as usize,
        TxNumber(NUMBER),
        &item,
        Names(0, 0),
    )
}

fn decision(dir: &[u8], log: &mut [u8], t: Told) -> Result<usize, Refusal> {
    io::write_all(1, b"decision");
    append::decision::decision(dir, log, t.tail as usize, Offset(DECIDED), OUTCOME)
}

// A checkpoint of the object, from a replica without cells that was played to the tail.
fn checkpoint(dir: &[u8], log: &mut [u8], t: Told) -> Result<usize, Refusal> {
    io::write_all(1, b"checkpoint");
    let r = Record {
        hosted: t.hosted,
        position: u64::from(t.tail),
        count: 0,
    };
    let table = [0u8; TABLE_SIZE];
    append::checkpoint::checkpoint(dir, log, t.tail as usize, r, &table, ObjectId(t.object))
}

// One of the four by its number.
fn append(dir: &[u8], log: &mut [u8], t: Told, which: u32) -> Result<usize, Refusal> {
    match which {
        1 => update(dir, log, t),
        2 => commit(dir, log, t),
        3 => decision(dir, log, t),
        _ => checkpoint(dir, log, t),
    }
}

// Where the last slot's bytes begin; at 0 where there are fewer.
fn last_slot(log: &[u8]) -> usize
    ensures { result ≤ length log.now }
{
    log.len().saturating_sub(SLOT_SIZE)
}

// The answer, and the last slot afterwards.
fn line(dir: &[u8], log: &mut [u8], t: Told, which: u32) {
    match append(dir, log, t, which) {
        Ok(n) => {
            io::write_all(1, b" done");
            printing::next(n as u64);
        }
        Err(r) => printing::next_refusal(r),
    }
    let i = last_slot(log);
    printing::words(&log[i..]);
}

// On a copy of the log.
fn on_copy(dir: &[u8], log: &[u8], t: Told, which: u32) {
    let mut room = [0u8; LOG_SIZE];
    if LOG_SIZE < log.len() {
        return;
    }
    let copy = &mut room[..log.len()];
    copy.copy_from_slice(log);
    line(dir, copy, t, which);
}

pub fn all(dir: &[u8], log: &[u8], t: Told) {
    for which in 1..=4 {
        on_copy(dir, log, t, which);
    }
}
