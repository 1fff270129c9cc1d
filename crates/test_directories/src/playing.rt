// The calls on a replica, and the audit.
use crate::told::{TABLE_SIZE, Told};
use answers::Refusal;
use codec::names::ObjectId;
use records::Record;
use replica::playing::Left;

// A record that was opened, or why not.
fn opened(o: Result<Record, Refusal>) {
    match o {
        Ok(r) => {
            io::write_all(1, b" done");
            printing::next_record(r);
        }
        Err(x) => printing::next_refusal(x),
    }
    printing::line_end();
}

fn open(dir: &[u8], hosted: u64) {
    io::write_all(1, b"open");
    opened(replica::opening::open_fresh(dir, hosted));
}

// Opens at the checkpoint at 0.
fn restore(dir: &[u8], log: &[u8], tail: usize, table: &mut [u8]) {
    io::write_all(1, b"restore");
    let l = replica::restoring::open_at(dir, log, tail, 0, table);
    opened(l.answer.map(|()| l.record));
}

// The answer, the record as it was left, and the table.
fn left(l: Left, table: &[u8]) {
    printing::next_checked(l.answer);
    printing::next_record(l.record);
    printing::line_end();
    io::write_all(1, b"table");
    printing::words(table);
}

// Plays to the tail; answers the record as it was left.
fn play(dir: &[u8], log: &[u8], t: Told, table: &mut [u8]) -> Record {
    io::write_all(1, b"play");
    let r = Record {
        hosted: t.hosted,
        position: 0,
        count: 0,
    };
    let l = replica::playing::play(dir, log, t.tail as usize, r, table, u64::from(t.tail));
    left(l, table);
    l.record
}

fn cell(dir: &[u8], r: Record, table: &[u8], t: Told) {
    io::write_all(1, b"cell");
    match replica::cells::read_cell(dir, r, table, ObjectId(t.object), t.key) {
        Ok(h) => printing::next_held(h),
        Err(x) => printing::next_refusal(x),
    }
    printing::line_end();
}

fn audit(dir: &[u8], log: &[u8], tail: usize) {
    io::write_all(1, b"audit");
    let mut scratch = [0u8; TABLE_SIZE];
    let l = audit::audit(dir, log, tail, &mut scratch);
    left(l, &scratch);
}

pub fn all(dir: &[u8], log: &[u8], t: Told) {
    let tail = t.tail as usize;
    open(dir, t.hosted);
    let mut table = [0u8; TABLE_SIZE];
    restore(dir, log, tail, &mut table);
    let r = play(dir, log, t, &mut table);
    cell(dir, r, &table, t);
    audit(dir, log, tail);
}
