// Opens replicas fresh and at checkpoints, plays and reads them, and audits, on the logs of standard input, and prints the answers,
// and the tables that they left. The input is a list of cases: log, table, record, requests. It and the expected output come
// from the second implementation.
#![tactic(auto)]

mod requests;

use records::Record;

// The directory of the eight objects has so many bytes.
const EIGHT_SIZE: usize = 128;
// The most bytes of a table.
const TABLE_SIZE: usize = 4096;

// The requests from a place on, one after the other; answers the place after them.
fn all_requests(
    dir: &[u8],
    input: &[u8],
    at: usize,
    n: usize,
    log: &[u8],
    table: &mut [u8],
    r: Record,
) -> usize {
    let mut a = at;
    let mut x = r;
    for _ in 0..n {
        let s = requests::request(dir, input, a, log, table, x);
        a = s.at;
        x = s.record;
    }
    a
}

// The bytes of the table as numbers of 4 bytes.
fn dump(table: &[u8]) {
    io::write_all(1, b"table");
    printing::words(table);
}

// The record at a place.
fn record_at(input: &[u8], at: usize) -> Record {
    let second = cases::after(input, at, 4);
    let third = cases::after(input, second, 8);
    Record {
        hosted: cases::low(cases::word(input, at)),
        position: cases::long(input, second),
        count: cases::long(input, third),
    }
}

// The record and the requests at a place, on a log and a table.
fn run(dir: &[u8], input: &[u8], at: usize, log: &[u8], table: &mut [u8]) -> usize {
    let r = record_at(input, at);
    let second = cases::after(input, at, 20);
    let n = cases::word(input, second) as usize;
    let next = all_requests(dir, input, cases::after(input, second, 4), n, log, table, r);
    dump(table);
    next
}

// The case at a place, on a table of its own; answers the place after it.
fn case(dir: &[u8], input: &[u8], at: usize) -> usize {
    let size = cases::word(input, at) as usize;
    let second = cases::after(input, at, 4);
    let log = cases::part(input, second, size);
    let third = cases::after(input, second, size);
    let length = cases::word(input, third) as usize;
    let fourth = cases::after(input, third, 4);
    let bytes = cases::part(input, fourth, length);
    let fifth = cases::after(input, fourth, length);
    let mut room = [0u8; TABLE_SIZE];
    if TABLE_SIZE < bytes.len() {
        return input.len();
    }
    let table = &mut room[..bytes.len()];
    table.copy_from_slice(bytes);
    run(dir, input, fifth, log, table)
}

fn main() {
    let mut buffer = cases::zeros::<524288>();
    let n = io::read_full(0, &mut buffer);
    let mut dir = [0u8; EIGHT_SIZE];
    directory::eight::write_eight(&mut dir);
    let input = &buffer[..n];
    cases::each(input, |at| case(&dir, input, at));
}
