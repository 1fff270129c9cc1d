// Runs the forms that carry their state, a stream reader and a record moved on in place, on the logs of standard input and prints
// what they answer. The input comes from the second implementation, and so does the expected output, by its stream list and its
// play by value.
#![tactic(auto)]

mod runs;
mod stream_calls;

// The directory of the eight objects has so many bytes.
const EIGHT_SIZE: usize = 128;

// The case at a place; answers the place after it.
fn case(dir: &[u8], input: &[u8], at: usize) -> usize {
    let kind = cases::word(input, at);
    let second = cases::after(input, at, 4);
    let size = cases::word(input, second) as usize;
    let third = cases::after(input, second, 4);
    let log = cases::part(input, third, size);
    let fourth = cases::after(input, third, size);
    let n = cases::word(input, fourth);
    let fifth = cases::after(input, fourth, 4);
    if kind == 1 {
        stream_calls::all(dir, log, n);
        return fifth;
    }
    runs::all(dir, input, fifth, n as usize, log)
}

fn main() {
    let mut buffer = cases::zeros::<262144>();
    let n = io::read_full(0, &mut buffer);
    let mut dir = [0u8; EIGHT_SIZE];
    directory::eight::write_eight(&mut dir);
    let input = &buffer[..n];
    cases::each(input, |at| case(&dir, input, at));
}
