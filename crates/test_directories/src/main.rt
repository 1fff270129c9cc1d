// Hands directories of standard input, good and faulty, to every call, and prints the answers, and what the calls left. The input
// is a list of cases: directory, log, tail, hosted set, object, key. It and the expected output come from the second implementation.
#![tactic(auto)]

mod appending;
mod playing;
mod reading;
mod told;

use told::Told;

// The tail, set, object and key at a place.
fn told_at(input: &[u8], at: usize) -> Told {
    let second = cases::after(input, at, 4);
    let third = cases::after(input, second, 8);
    let fourth = cases::after(input, third, 4);
    Told {
        tail: cases::word(input, at),
        hosted: cases::long(input, second),
        object: cases::word(input, third),
        key: cases::word(input, fourth),
    }
}

// All calls.
fn run(dir: &[u8], log: &[u8], t: Told) {
    reading::all(dir, log, t);
    appending::all(dir, log, t);
    playing::all(dir, log, t);
}

// The case at a place; answers the place after it.
fn case(input: &[u8], at: usize) -> usize {
    let size = cases::word(input, at) as usize;
    let second = cases::after(input, at, 4);
    let dir = cases::part(input, second, size);
    let third = cases::after(input, second, size);
    let length = cases::word(input, third) as usize;
    let fourth = cases::after(input, third, 4);
    let log = cases::part(input, fourth, length);
    let fifth = cases::after(input, fourth, length);
    run(dir, log, told_at(input, fifth));
    cases::after(input, fifth, told::SIZE)
}

fn main() {
    let mut buffer = cases::zeros::<524288>();
    let n = io::read_full(0, &mut buffer);
    let input = &buffer[..n];
    cases::each(input, |at| case(input, at));
}
