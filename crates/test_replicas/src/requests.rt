// One call on a replica or an audit, and its answer printed.
use answers::Refusal;
use codec::names::ObjectId;
use records::Record;
use replica::playing::Left;

// The place after a request, and the record that it left.
#[derive(Clone, Copy)]
pub struct Stand {
    pub at: usize,
    pub record: Record,
}

// An opening; refused, the record stays.
fn opened(o: Result<Record, Refusal>, r: Record) -> Record {
    match o {
        Ok(x) => {
            io::write_all(1, b" done");
            printing::next_record(x);
        }
        Err(x) => printing::next_refusal(x),
    }
    printing::line_end();
    o.unwrap_or(r)
}

fn open(dir: &[u8], r: Record, hosted: u64) -> Record {
    io::write_all(1, b"open");
    opened(replica::opening::open_fresh(dir, hosted), r)
}

// An answer, and the record as it was left.
fn left(l: Left) -> Record {
    printing::next_checked(l.answer);
    printing::next_record(l.record);
    printing::line_end();
    l.record
}

fn play(dir: &[u8], log: &[u8], tail: usize, r: Record, table: &mut [u8], stop: u64) -> Record {
    io::write_all(1, b"play");
    left(replica::playing::play(dir, log, tail, r, table, stop))
}

fn audit(dir: &[u8], log: &[u8], tail: usize, table: &mut [u8]) -> Record {
    io::write_all(1, b"audit");
    left(audit::audit(dir, log, tail, table))
}

// An opening at a checkpoint.
fn restore(dir: &[u8], log: &[u8], tail: usize, o: u64, r: Record, table: &mut [u8]) -> Record {
    io::write_all(1, b"restore");
    let l = replica::restoring::open_at(dir, log, tail, o, table);
    opened(l.answer.map(|()| l.record), r)
}

fn cell(dir: &[u8], r: Record, table: &[u8], id: u32, key: u32) {
    io::write_all(1, b"cell");
    printing::next(u64::from(id));
    printing::next(u64::from(key));
    match replica::cells::read_cell(dir, r, table, ObjectId(id), key) {
        Ok(h) => printing::next_held(h),
        Err(x) => printing::next_refusal(x),
    }
    printing::line_end();
}

// A request with a tail and a number of 8 bytes at a place: a play, or an opening at a checkpoint.
fn long_request(
    dir: &[u8],
    input: &[u8],
    at: usize,
    kind: u32,
    tail: usize,
    log: &[u8],
    table: &mut [u8],
    r: Record,
) -> Stand {
    let n = cases::long(input, at);
    let next = cases::after(input, at, 8);
    let record = if kind == 2 {
        play(dir, log, tail, r, table, n)
    } else {
        restore(dir, log, tail, n, r, table)
    };
    Stand { at: next, record }
}

// The request at a place of the input.
pub fn request(
    dir: &[u8],
    input: &[u8],
    at: usize,
    log: &[u8],
    table: &mut [u8],
    r: Record,
) -> Stand {
    let kind = cases::word(input, at);
    let first = cases::after(input, at, 4);
    let a = cases::word(input, first);
    let second = cases::after(input, first, 4);
    match kind {
        1 => Stand {
            at: second,
            record: open(dir, r, cases::low(a)),
        },
        3 => {
            cell(dir, r, table, a, cases::word(input, second));
            Stand {
                at: cases::after(input, second, 4),
                record: r,
            }
        }
        5 => Stand {
            at: second,
            record: audit(dir, log, a as usize, table),
        },
        _ => long_request(dir, input, second, kind, a as usize, log, table, r),
    }
}
