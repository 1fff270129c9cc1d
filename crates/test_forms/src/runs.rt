// A record moved on in place by instalments.
use records::Record;

// The most bytes of a table.
const TABLE_SIZE: usize = 4096;

// One instalment: its answer and the record that it left.
fn play(dir: &[u8], log: &[u8], tail: u32, r: Record, table: &mut [u8], stop: u64) -> Record {
    io::write_all(1, b"play");
    let l = inplace::play_on(dir, log, tail as usize, r, table, stop);
    printing::next_checked(l.answer);
    printing::next_record(l.record);
    printing::line_end();
    l.record
}

// The instalments from a place on, one after the other.
fn plays(
    dir: &[u8],
    input: &[u8],
    at: usize,
    n: usize,
    log: &[u8],
    table: &mut [u8],
    r: Record,
) -> Record {
    let mut a = at;
    let mut x = r;
    for _ in 0..n {
        let second = cases::after(input, a, 4);
        let tail = cases::word(input, a);
        let stop = cases::long(input, second);
        x = play(dir, log, tail, x, table, stop);
        a = cases::after(input, second, 8);
    }
    x
}

// The bytes of the table as numbers of 4 bytes.
fn dump(table: &[u8]) {
    io::write_all(1, b"table");
    printing::words(table);
}

// The record at a place.
fn record_at(input: &[u8], at: usize) -> Record {
    let second = cases::after(input, at, 4);
    let third = cases::after(input, second, 8);
    Record {
        hosted: cases::low(cases::word(input, at)),
        position: cases::long(input, second),
        count: cases::long(input, third),
    }
}

// The record and the instalments at a place, on a log and a table; answers the place after them.
fn instalments(dir: &[u8], input: &[u8], at: usize, log: &[u8], table: &mut [u8]) -> usize {
    let r = record_at(input, at);
    let second = cases::after(input, at, 20);
    let n = cases::word(input, second) as usize;
    let third = cases::after(input, second, 4);
    let left = plays(dir, input, third, n, log, table, r);
    io::write_all(1, b"left");
    printing::next_record(left);
    printing::line_end();
    dump(table);
    if input.len() / 12 < n {
        return input.len();
    }
    cases::after(input, third, 12 * n)
}

// The run at a place, on a table of its own; answers the place after it.
fn run(dir: &[u8], input: &[u8], at: usize, log: &[u8]) -> usize {
    let length = cases::word(input, at) as usize;
    let second = cases::after(input, at, 4);
    let bytes = cases::part(input, second, length);
    let third = cases::after(input, second, length);
    let mut room = [0u8; TABLE_SIZE];
    if TABLE_SIZE < bytes.len() {
        return input.len();
    }
    let table = &mut room[..bytes.len()];
    table.copy_from_slice(bytes);
    instalments(dir, input, third, log, table)
}

// So many runs from a place on; answers the place after them.
pub fn all(dir: &[u8], input: &[u8], at: usize, n: usize, log: &[u8]) -> usize {
    let mut a = at;
    for _ in 0..n {
        a = run(dir, input, a, log);
    }
    a
}
