// A stream, as a reader gives it call by call.
use answers::Refusal;
use codec::names::{ObjectId, Offset};

// The most calls of a reader.
const MOST_CALLS: u32 = 64;

// Prints an answer; whether the reader is to be asked again.
fn shown(a: Result<Option<Offset>, Refusal>) -> bool {
    match a {
        Ok(Some(o)) => {
            printing::next(o.0);
            true
        }
        Ok(None) => {
            io::write_all(1, b" end");
            false
        }
        Err(r) => {
            printing::next_refusal(r);
            false
        }
    }
}

// A reader from an offset to its end or a refusal, or so many calls, and its next offset.
fn stream(dir: &[u8], log: &[u8], tail: usize, x: u32, from: u64) {
    io::write_all(1, b"stream");
    printing::next(u64::from(x));
    printing::next(from);
    let mut at = from;
    for _ in 0..MOST_CALLS {
        let n = reader::next_from(dir, log, tail, ObjectId(x), at);
        at = n.reader.0;
        if !shown(n.found) {
            break;
        }
    }
    printing::next(at);
    printing::line_end();
}

// From 0, the middle, the tail and the offset after it.
fn streams(dir: &[u8], log: &[u8], tail: u32, x: u32) {
    let last = u64::from(tail);
    let t = tail as usize;
    stream(dir, log, t, x, 0);
    stream(dir, log, t, x, last / 2);
    stream(dir, log, t, x, last);
    stream(dir, log, t, x, last + 1);
}

// All objects, and two numbers that are none.
pub fn all(dir: &[u8], log: &[u8], tail: u32) {
    for x in 0..10 {
        streams(dir, log, tail, x);
    }
}
