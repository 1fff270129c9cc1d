// Runs the reading calls on the logs of standard input and prints their answers. The input is a list of cases: tail and
// length of the log, 4 bytes each, then the log. It and the expected output come from the second implementation.
#![tactic(auto)]

mod calls;
mod stream_calls;

// The directory of the eight objects has so many bytes.
const EIGHT_SIZE: usize = 128;
// Tail and length of a log have so many bytes.
const HEAD_SIZE: usize = 8;

// All calls on one log.
fn case(dir: &[u8], log: &[u8], tail: usize) {
    calls::check(dir, log, tail);
    calls::owed(dir, log, tail);
    calls::entries(dir, log, tail);
    for x in 0..10 {
        stream_calls::nexts(dir, log, tail, x);
    }
    for x in 0..10 {
        stream_calls::lists(dir, log, tail, x);
    }
}

fn cases(dir: &[u8], input: &[u8]) {
    let mut rest = input;
    while let Some((head, more)) = rest.split_at_checked(HEAD_SIZE) {
        let tail = codec::bytes::be32(head, 0) as usize;
        let size = codec::bytes::be32(head, 4) as usize;
        let Some((log, next)) = more.split_at_checked(size) else {
            return;
        };
        case(dir, log, tail);
        rest = next;
    }
}

fn main() {
    let mut buffer = cases::zeros::<262144>();
    let n = io::read_full(0, &mut buffer);
    let mut dir = [0u8; EIGHT_SIZE];
    directory::eight::write_eight(&mut dir);
    cases(&dir, &buffer[..n]);
}
