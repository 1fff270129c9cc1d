// Words and numbers on standard output, as the programs print them.
#![tactic(auto)]

use answers::Refusal;
use codec::cells::{Content, Written};
use records::Record;

pub fn number(n: u64) {
    io::print_decimal(1, n);
}

// A space and a number.
pub fn next(n: u64) {
    io::write_all(1, b" ");
    number(n);
}

pub fn line_end() {
    io::write_all(1, b"\n");
}

// The line of a refusal: its number, and what is told or "-" (15.3).
pub fn refusal(r: Refusal) {
    io::write_all(1, b"refused ");
    number(u64::from(answers::number_of(r)));
    io::write_all(1, b" at ");
    match answers::told_of(r) {
        Some(k) => number(k),
        None => {
            io::write_all(1, b"-");
        }
    }
}

// The same after a space.
pub fn next_refusal(r: Refusal) {
    io::write_all(1, b" ");
    refusal(r);
}

// The three numbers of a record, each after a space.
pub fn next_record(r: Record) {
    next(r.hosted);
    next(r.position);
    next(r.count);
}

// An answer that tells nothing more, after a space.
pub fn next_checked(c: Result<(), Refusal>) {
    match c {
        Ok(()) => {
            io::write_all(1, b" done");
        }
        Err(r) => next_refusal(r),
    }
}

fn next_written(w: Written) {
    match w.content {
        Content::Removed => {
            io::write_all(1, b" removed");
        }
        Content::Value(x) => {
            io::write_all(1, b" value");
            next(u64::from(x));
        }
    }
    next(w.version.0);
}

// What a cell holds, after a space.
pub fn next_held(h: Option<Written>) {
    match h {
        None => {
            io::write_all(1, b" never");
        }
        Some(w) => next_written(w),
    }
}

// The bytes as numbers of 4 bytes, each after a space, to the end of the line; a last part of fewer than 4 bytes is left out.
pub fn words(s: &[u8]) {
    for word in s.chunks_exact(4) {
        next(u64::from(codec::bytes::be32(word, 0)));
    }
    line_end();
}
