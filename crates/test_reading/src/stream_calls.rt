// The stream reader's next, and the stream list.
use codec::names::{ObjectId, Offset};

fn next(dir: &[u8], log: &[u8], tail: usize, x: u32, from: u64) {
    io::write_all(1, b"next");
    printing::next(u64::from(x));
    printing::next(from);
    let n = entries::reader::stream_next(dir, log, tail, ObjectId(x), Offset(from));
    match n.found {
        Ok(Some(o)) => printing::next(o.0),
        Ok(None) => {
            io::write_all(1, b" end");
        }
        Err(r) => printing::next_refusal(r),
    }
    printing::next(n.reader.0);
    printing::line_end();
}

// From 0, the middle, the tail and the offset after it.
pub fn nexts(dir: &[u8], log: &[u8], tail: usize, x: u32) {
    next(dir, log, tail, x, 0);
    if 2 <= tail {
        next(dir, log, tail, x, tail as u64 / 2);
    }
    if 1 <= tail {
        next(dir, log, tail, x, tail as u64);
    }
    if tail < 4294967296 {
        next(dir, log, tail, x, tail as u64 + 1);
    }
}

fn numbers(list: &[u32]) {
    for n in list {
        printing::next(u64::from(*n));
    }
    printing::line_end();
}

fn list(dir: &[u8], log: &[u8], tail: usize, x: u32, lent: &mut [u32]) {
    io::write_all(1, b"list");
    printing::next(u64::from(x));
    printing::next(lent.len() as u64);
    match entries::listing::stream_list(dir, log, tail, ObjectId(x), lent) {
        Ok(n) => printing::next(n as u64),
        Err(r) => printing::next_refusal(r),
    }
    numbers(lent);
}

// With too little room, perhaps, and with enough.
pub fn lists(dir: &[u8], log: &[u8], tail: usize, x: u32) {
    let mut few = [77777u32; 5];
    list(dir, log, tail, x, &mut few);
    let mut many = [77777u32; 40];
    list(dir, log, tail, x, &mut many);
}
