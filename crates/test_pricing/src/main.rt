// Prices the orders of standard input, and prints each total or refusal. The input is a list of cases: directory, record, table, object,
// prices. It and the expected output come from the second implementation.
#![tactic(auto)]

use codec::names::ObjectId;
use records::Record;

// The record at a place: hosted set, position, count.
fn record_at(input: &[u8], at: usize) -> Record {
    let second = cases::after(input, at, 8);
    let third = cases::after(input, second, 8);
    Record {
        hosted: cases::long(input, at),
        position: cases::long(input, second),
        count: cases::long(input, third),
    }
}

// It has so many bytes.
const RECORD_SIZE: usize = 24;

// The part at a place, behind its length.
fn part_at(input: &[u8], at: usize) -> &[u8] {
    let size = cases::word(input, at) as usize;
    let begin = cases::after(input, at, 4);
    cases::part(input, begin, size)
}

// The place after it.
fn after_part(input: &[u8], at: usize) -> usize {
    let size = cases::word(input, at) as usize;
    let begin = cases::after(input, at, 4);
    cases::after(input, begin, size)
}

fn line(dir: &[u8], r: Record, table: &[u8], object: u32, prices: &[u8]) {
    io::write_all(1, b"price");
    match pricing::call::price(dir, r, table, ObjectId(object), prices) {
        Ok(total) => {
            printing::next(total.high);
            printing::next(total.low);
        }
        Err(x) => printing::next_refusal(x),
    }
    printing::line_end();
}

// The case at a place; answers the place after it.
fn case(input: &[u8], at: usize) -> usize {
    let second = after_part(input, at);
    let third = cases::after(input, second, RECORD_SIZE);
    let fourth = after_part(input, third);
    let fifth = cases::after(input, fourth, 4);
    let dir = part_at(input, at);
    let r = record_at(input, second);
    let table = part_at(input, third);
    let prices = part_at(input, fifth);
    line(dir, r, table, cases::word(input, fourth), prices);
    after_part(input, fifth)
}

fn main() {
    let mut buffer = cases::zeros::<524288>();
    let n = io::read_full(0, &mut buffer);
    let input = &buffer[..n];
    cases::each(input, |at| case(input, at));
}
