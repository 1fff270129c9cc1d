// The calls on a replica, and the audit. A record comes as three numbers and goes out as three numbers.
ghost use Rattle.std.specs.Prelude.{◌≡◌};
ghost use Rattle.model.specs.Directory.{shape_of};
ghost use Rattle.model.specs.Replica.{open_fresh, open_at, play_call, read_cell, audit};
ghost use Rattle.codec.specs.Eight.{log_of};
ghost use Rattle.answers.specs.Refusals.{checked_in};
ghost use Rattle.records.specs.Record.{replica_in};
ghost use Rattle.replica.specs.Answers.{opened_in, read_in};
ghost use Rattle.table.specs.Rows.{held_case};
ghost use Rattle.stocklog.specs.Replies.{open_reply, replica_values, stand_reply, left_reply, cell_values, cell_reply};
ghost use Rattle.stocklog.specs.Numbers.{values_in, numbers_in};

use crate::numbers::{self, NONE, Numbers, Values};
use answers::Refusal;
use codec::cells::{Content, Written};
use codec::names::ObjectId;
use records::Record;
use replica::playing::Left;

fn of_record(r: Record) -> Values
    ensures { values_in result ≡ replica_values (replica_in r) }
{
    Values(r.hosted, r.position, r.count)
}

fn of_opened(o: Result<Record, Refusal>) -> Numbers
    ensures { numbers_in result ≡ open_reply (opened_in o) }
{
    numbers::answered(o, NONE, of_record)
}

// A replica of a set at offset 0.
#[unsafe(no_mangle)]
pub extern "C" fn stocklog_open_fresh(dir: &[u8], hosted: u64, out: &mut [u64; 4]) -> u32
    ensures { record { number = result; out = out.new } ≡ open_reply (open_fresh (shape_of dir.now) hosted) }
{
    numbers::put(out, of_opened(replica::opening::open_fresh(dir, hosted)))
}

// The record is said with every answer.
fn of_left(l: Left) -> Numbers
    ensures { numbers_in result ≡ stand_reply (replica_in l.record) (checked_in l.answer) }
{
    let record = of_record(l.record);
    numbers::answered(l.answer, record, |()| record)
}

// A replica opened at the checkpoint at an offset.
#[unsafe(no_mangle)]
pub extern "C" fn stocklog_open_checkpoint(
    dir: &[u8],
    log: &[u8],
    tail: usize,
    offset: u64,
    table: &mut [u8],
    out: &mut [u64; 4],
) -> u32
    ensures { record { reply = record { number = result; out = out.new }; lent = table.new } ≡ left_reply (open_at (shape_of dir.now) (log_of log.now tail) offset table.old) }
{
    let l = replica::restoring::open_at(dir, log, tail, offset, table);
    numbers::put(out, of_left(l))
}

// A replica played from its position to a stop.
#[unsafe(no_mangle)]
pub extern "C" fn stocklog_play(
    dir: &[u8],
    log: &[u8],
    tail: usize,
    hosted: u64,
    position: u64,
    count: u64,
    table: &mut [u8],
    stop: u64,
    out: &mut [u64; 4],
) -> u32
    ensures { record { reply = record { number = result; out = out.new }; lent = table.new } ≡ left_reply (play_call (shape_of dir.now) (log_of log.now tail) (record { hosting = hosted; position = position; count = count }) table.old stop) }
{
    let r = Record {
        hosted,
        position,
        count,
    };
    let l = replica::playing::play(dir, log, tail, r, table, stop);
    numbers::put(out, of_left(l))
}

// What a cell holds: 0 never written, 1 holds a value, 2 removed; the value; the version.
fn of_held(h: Option<Written>) -> Values
    ensures { values_in result ≡ cell_values (held_case h) }
{
    let Some(w) = h else {
        return NONE;
    };
    match w.content {
        Content::Removed => Values(2, 0, w.version.0),
        Content::Value(v) => Values(1, u64::from(v), w.version.0),
    }
}

fn of_reading(a: Result<Option<Written>, Refusal>) -> Numbers
    ensures { numbers_in result ≡ cell_reply (read_in a) }
{
    numbers::answered(a, NONE, of_held)
}

// What a replica shows for a cell.
#[unsafe(no_mangle)]
pub extern "C" fn stocklog_read_cell(
    dir: &[u8],
    hosted: u64,
    position: u64,
    count: u64,
    table: &[u8],
    object: u32,
    key: u32,
    out: &mut [u64; 4],
) -> u32
    ensures { record { number = result; out = out.new } ≡ cell_reply (read_cell (shape_of dir.now) (record { hosting = hosted; position = position; count = count }) table.now object key) }
{
    let r = Record {
        hosted,
        position,
        count,
    };
    let a = replica::cells::read_cell(dir, r, table, ObjectId(object), key);
    numbers::put(out, of_reading(a))
}

// The audit's play as a record, with 11 and 13 too.
#[unsafe(no_mangle)]
pub extern "C" fn stocklog_audit(
    dir: &[u8],
    log: &[u8],
    tail: usize,
    scratch: &mut [u8],
    out: &mut [u64; 4],
) -> u32
    ensures { record { reply = record { number = result; out = out.new }; lent = scratch.new } ≡ left_reply (audit (shape_of dir.now) (log_of log.now tail) scratch.old) }
{
    let l = audit::audit(dir, log, tail, scratch);
    numbers::put(out, of_left(l))
}
