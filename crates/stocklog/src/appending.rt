// The appends. Done, the first value is the new tail; refused, the log is as it was.
ghost use Rattle.std.specs.Prelude.{◌≡◌};
ghost use Rattle.model.specs.Directory.{shape_of};
ghost use Rattle.model.specs.Append as model;
ghost use Rattle.stocklog.specs.Replies.{append_reply};

use crate::numbers;
use codec::names::{Names, ObjectId, Offset, TxNumber};
use records::Record;

// An update, plain or of a transaction.
#[unsafe(no_mangle)]
pub extern "C" fn stocklog_append_update(
    dir: &[u8],
    log: &mut [u8],
    tail: usize,
    number: u32,
    items: &[u8],
    out: &mut [u64; 4],
) -> u32
    ensures { record { reply = record { number = result; out = out.new }; lent = log.new } ≡ append_reply (model.append (shape_of dir.now) log.old tail (model.update number items.now)) }
{
    let a = append::update::update(dir, log, tail, TxNumber(number), items);
    numbers::put(out, numbers::of_number(a))
}

// A transaction's commit record, which names two numbers, 0 for none.
#[unsafe(no_mangle)]
pub extern "C" fn stocklog_append_commit(
    dir: &[u8],
    log: &mut [u8],
    tail: usize,
    number: u32,
    reads: &[u8],
    first: u32,
    second: u32,
    out: &mut [u64; 4],
) -> u32
    ensures { record { reply = record { number = result; out = out.new }; lent = log.new } ≡ append_reply (model.append (shape_of dir.now) log.old tail (model.commits number reads.now first second)) }
{
    let a = append::commit::commit(
        dir,
        log,
        tail,
        TxNumber(number),
        reads,
        Names(first, second),
    );
    numbers::put(out, numbers::of_number(a))
}

// The outcome of a commit record.
#[unsafe(no_mangle)]
pub extern "C" fn stocklog_append_decision(
    dir: &[u8],
    log: &mut [u8],
    tail: usize,
    offset: u64,
    outcome: u32,
    out: &mut [u64; 4],
) -> u32
    ensures { record { reply = record { number = result; out = out.new }; lent = log.new } ≡ append_reply (model.append (shape_of dir.now) log.old tail (model.decides offset outcome)) }
{
    let a = append::decision::decision(dir, log, tail, Offset(offset), outcome);
    numbers::put(out, numbers::of_number(a))
}

// The cells of one object of a replica.
#[unsafe(no_mangle)]
pub extern "C" fn stocklog_append_checkpoint(
    dir: &[u8],
    log: &mut [u8],
    tail: usize,
    hosted: u64,
    position: u64,
    count: u64,
    table: &[u8],
    object: u32,
    out: &mut [u64; 4],
) -> u32
    ensures { record { reply = record { number = result; out = out.new }; lent = log.new } ≡ append_reply (model.append (shape_of dir.now) log.old tail (model.saves (record { hosting = hosted; position = position; count = count }) table.now object)) }
{
    let r = Record {
        hosted,
        position,
        count,
    };
    let a = append::checkpoint::checkpoint(dir, log, tail, r, table, ObjectId(object));
    numbers::put(out, numbers::of_number(a))
}
