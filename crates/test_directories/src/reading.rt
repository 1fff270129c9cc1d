// The calls that read a log.
use crate::told::Told;
use codec::names::{ObjectId, Offset};

// The offset whose entry and item list are asked for.
const ASKED: u64 = 3;
// Where the stream is read from.
const FROM: u64 = 1;

fn check(dir: &[u8], log: &[u8], tail: usize) {
    io::write_all(1, b"check");
    printing::next_checked(entries::calls::check(dir, log, tail));
    printing::line_end();
}

// What is owed to a replica of one object, by its place.
fn owed(dir: &[u8], log: &[u8], tail: usize, place: u64, set: u64) {
    io::write_all(1, b"owed");
    printing::next(place);
    match entries::owing::lowest_owing(dir, log, tail, &[set]) {
        Ok(Some(o)) => printing::next(o.0),
        Ok(None) => {
            io::write_all(1, b" none");
        }
        Err(r) => printing::next_refusal(r),
    }
    printing::line_end();
}

fn entry(dir: &[u8], log: &[u8], tail: usize) {
    io::write_all(1, b"entry");
    match entries::calls::entry(dir, log, tail, Offset(ASKED)) {
        Ok(i) => {
            printing::next(i.kind.number());
            printing::next(u64::from(i.number.0));
            printing::next(u64::from(i.headers));
            printing::next(u64::from(i.items));
            printing::next(u64::from(i.names.0));
            printing::next(u64::from(i.names.1));
        }
        Err(r) => printing::next_refusal(r),
    }
    printing::line_end();
}

fn items(dir: &[u8], log: &[u8], tail: usize) {
    io::write_all(1, b"items");
    printing::words(entries::calls::items(dir, log, tail, Offset(ASKED)));
}

fn next(dir: &[u8], log: &[u8], tail: usize, object: u32) {
    io::write_all(1, b"next");
    let n = entries::reader::stream_next(dir, log, tail, ObjectId(object), Offset(FROM));
    match n.found {
        Ok(Some(o)) => printing::next(o.0),
        Ok(None) => {
            io::write_all(1, b" end");
        }
        Err(r) => printing::next_refusal(r),
    }
    printing::next(n.reader.0);
    printing::line_end();
}

// With a lent list of three numbers.
fn list(dir: &[u8], log: &[u8], tail: usize, object: u32) {
    io::write_all(1, b"list");
    let mut lent = [77777u32; 3];
    match entries::listing::stream_list(dir, log, tail, ObjectId(object), &mut lent) {
        Ok(n) => printing::next(n as u64),
        Err(r) => printing::next_refusal(r),
    }
    for n in lent {
        printing::next(u64::from(n));
    }
    printing::line_end();
}

pub fn all(dir: &[u8], log: &[u8], t: Told) {
    let tail = t.tail as usize;
    check(dir, log, tail);
    owed(dir, log, tail, 0, 1);
    owed(dir, log, tail, 1, 2);
    entry(dir, log, tail);
    items(dir, log, tail);
    next(dir, log, tail, t.object);
    list(dir, log, tail, t.object);
}
