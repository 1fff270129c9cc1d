// A program's input as numbers and parts; past its end numbers are 0 and parts empty.
#![tactic(auto)]

ghost use Rattle.std.specs.Prelude.{◌≡◌, ◌%◌, length};
ghost use Rattle.cases.specs.Input.{inside, number_at, part_at, place_after};
ghost use Rattle.cases.specs.Runs.{RunsAll};

// So many bytes from a place on lie in the input.
fn has(input: &[u8], at: usize, n: usize) -> bool
    ensures { result ≡ inside input.now at n }
{
    at < input.len() && n <= input.len() - at
}

// The place n after another, or the end.
pub fn after(input: &[u8], at: usize, n: usize) -> usize
    ensures { result ≡ place_after input.now at n }
{
    if has(input, at, n) {
        at + n
    } else {
        input.len()
    }
}

pub fn word(input: &[u8], at: usize) -> u32
    ensures { result ≡ number_at 4 input.now at }
{
    if has(input, at, 4) {
        codec::bytes::be32(input, at)
    } else {
        0
    }
}

pub fn long(input: &[u8], at: usize) -> u64
    ensures { result ≡ number_at 8 input.now at }
{
    if has(input, at, 8) {
        codec::bytes::be64(input, at)
    } else {
        0
    }
}

pub fn part(input: &[u8], at: usize, n: usize) -> &[u8]
    ensures { result.now ≡ part_at input.now at n }
{
    if has(input, at, n) {
        &input[at..at + n]
    } else {
        &[]
    }
}

// The lowest byte of a number.
pub fn low(n: u32) -> u64
    ensures { result ≡ n % 256 }
{
    u64::from(n % 256)
}

// Runs each case of an input: `case` is given its place and answers the place after it. An answer that is not further on ends the run.
pub fn each<F: FnMut(usize) -> usize>(input: &[u8], mut case: F)
    requires { F.IsAlwaysCallable case }
    ensures { RunsAll F.FnMut (length input.now) case }
{
    let mut at = 0;
    while at < input.len() {
        let next = case(at);
        if next <= at {
            return;
        }
        at = next;
    }
}

// So many zeros, as room for an input. Only their number is told: a proof that saw them would write out each.
pub fn zeros<const N: usize>() -> [u8; N]
    ensures { N ≡ length result }
{
    [0; N]
}
