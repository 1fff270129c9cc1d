// Makes appends on the logs of standard input and prints their answers, and the log that they left. The input is a list of
// cases: tail, length of the log, the log, number of requests, the requests. It and the expected output come from the second
// implementation.
#![tactic(auto)]

mod requests;

// The directory of the eight objects has so many bytes.
const EIGHT_SIZE: usize = 128;
// The most bytes of a log.
const LOG_SIZE: usize = 4096;

// The requests from a place on, one after the other; answers the place after them.
fn all_requests(
    dir: &[u8],
    input: &[u8],
    at: usize,
    n: usize,
    log: &mut [u8],
    tail: usize,
) -> usize {
    let mut a = at;
    let mut t = tail;
    for _ in 0..n {
        let l = requests::request(dir, input, a, log, t);
        a = l.at;
        t = l.tail;
    }
    a
}

// The bytes of the log as numbers of 4 bytes.
fn dump(log: &[u8]) {
    io::write_all(1, b"log");
    printing::words(log);
}

// The requests, and the log that they left.
fn run(dir: &[u8], input: &[u8], at: usize, n: usize, log: &mut [u8], tail: usize) -> usize {
    let next = all_requests(dir, input, at, n, log, tail);
    dump(log);
    next
}

// The case at a place, on a log of its own; answers the place after it.
fn case(dir: &[u8], input: &[u8], at: usize) -> usize {
    let tail = cases::word(input, at) as usize;
    let second = cases::after(input, at, 4);
    let size = cases::word(input, second) as usize;
    let third = cases::after(input, second, 4);
    let bytes = cases::part(input, third, size);
    let fourth = cases::after(input, third, size);
    let n = cases::word(input, fourth) as usize;
    let fifth = cases::after(input, fourth, 4);
    let mut room = [0u8; LOG_SIZE];
    if LOG_SIZE < bytes.len() {
        return input.len();
    }
    let log = &mut room[..bytes.len()];
    log.copy_from_slice(bytes);
    run(dir, input, fifth, n, log, tail)
}

fn main() {
    let mut buffer = cases::zeros::<524288>();
    let n = io::read_full(0, &mut buffer);
    let mut dir = [0u8; EIGHT_SIZE];
    directory::eight::write_eight(&mut dir);
    let input = &buffer[..n];
    cases::each(input, |at| case(&dir, input, at));
}
