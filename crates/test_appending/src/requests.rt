// One append made, and its answer printed.
use answers::Refusal;
use codec::names::{Names, ObjectId, Offset, TxNumber};
use records::Record;

// The place after a request, and the tail that it left.
#[derive(Clone, Copy)]
pub struct Left {
    pub at: usize,
    pub tail: usize,
}

// The rest of the line; answers the tail.
fn answer(a: Result<usize, Refusal>, tail: usize) -> usize {
    match a {
        Ok(t) => {
            io::write_all(1, b" done");
            printing::next(t as u64);
            printing::line_end();
            t
        }
        Err(r) => {
            printing::next_refusal(r);
            printing::line_end();
            tail
        }
    }
}

fn update(dir: &[u8], log: &mut [u8], tail: usize, number: u32, items: &[u8]) -> usize {
    io::write_all(1, b"update");
    answer(
        append::update::update(dir, log, tail, TxNumber(number), items),
        tail,
    )
}

fn commit(
    dir: &[u8],
    log: &mut [u8],
    tail: usize,
    number: u32,
    items: &[u8],
    names: Names,
) -> usize {
    io::write_all(1, b"commit");
    answer(
        append::commit::commit(dir, log, tail, TxNumber(number), items, names),
        tail,
    )
}

fn decision(dir: &[u8], log: &mut [u8], tail: usize, o: u64, outcome: u32) -> usize {
    io::write_all(1, b"decision");
    answer(
        append::decision::decision(dir, log, tail, Offset(o), outcome),
        tail,
    )
}

fn checkpoint(
    dir: &[u8],
    log: &mut [u8],
    tail: usize,
    r: Record,
    table: &[u8],
    object: u32,
) -> usize {
    io::write_all(1, b"checkpoint");
    answer(
        append::checkpoint::checkpoint(dir, log, tail, r, table, ObjectId(object)),
        tail,
    )
}

// The two numbers at a place.
fn names_at(input: &[u8], at: usize) -> Names {
    let second = cases::after(input, at, 4);
    Names(cases::word(input, at), cases::word(input, second))
}

// The decision at a place.
fn decision_at(dir: &[u8], input: &[u8], at: usize, log: &mut [u8], tail: usize) -> Left {
    let second = cases::after(input, at, 8);
    let t = decision(
        dir,
        log,
        tail,
        cases::long(input, at),
        cases::word(input, second),
    );
    Left {
        at: cases::after(input, second, 4),
        tail: t,
    }
}

// The checkpoint at a place.
fn checkpoint_at(dir: &[u8], input: &[u8], at: usize, log: &mut [u8], tail: usize) -> Left {
    let second = cases::after(input, at, 4);
    let third = cases::after(input, second, 8);
    let r = Record {
        hosted: cases::low(cases::word(input, at)),
        position: cases::long(input, second),
        count: cases::long(input, third),
    };
    let fourth = cases::after(input, third, 8);
    let object = cases::word(input, fourth);
    let fifth = cases::after(input, fourth, 4);
    let n = cases::word(input, fifth) as usize;
    let sixth = cases::after(input, fifth, 4);
    let table = cases::part(input, sixth, n);
    let t = checkpoint(dir, log, tail, r, table, object);
    Left {
        at: cases::after(input, sixth, n),
        tail: t,
    }
}

// The entry with items at a place, an update or a commit record.
fn items_at(
    dir: &[u8],
    input: &[u8],
    at: usize,
    log: &mut [u8],
    tail: usize,
    is_update: bool,
) -> Left {
    let number = cases::word(input, at);
    let second = cases::after(input, at, 4);
    let n = cases::word(input, second) as usize;
    let third = cases::after(input, second, 4);
    let items = cases::part(input, third, n);
    let end = cases::after(input, third, n);
    if is_update {
        return Left {
            at: end,
            tail: update(dir, log, tail, number, items),
        };
    }
    Left {
        at: cases::after(input, end, 8),
        tail: commit(dir, log, tail, number, items, names_at(input, end)),
    }
}

// The request at a place of the input, made on a log.
pub fn request(dir: &[u8], input: &[u8], at: usize, log: &mut [u8], tail: usize) -> Left {
    let kind = cases::word(input, at);
    let first = cases::after(input, at, 4);
    match kind {
        3 => decision_at(dir, input, first, log, tail),
        4 => checkpoint_at(dir, input, first, log, tail),
        _ => items_at(dir, input, first, log, tail, kind == 1),
    }
}
