// Reads a log from standard input, audits and plays it, and prints the outcomes and the cells, or the refusal (specification §15).
#![tactic(auto)]

mod cells;
mod outcomes;

ghost use Rattle.playlog.specs.Outcomes.{Reportable};

use answers::Refusal;
use codec::layout::SLOT_SIZE;

// The directory of the eight objects has so many bytes.
const EIGHT_SIZE: usize = 128;

// The log is at most 256 slots, all of them used; the table has room for 2,730 cells.
fn report(dir: &[u8], log: &[u8])
    requires { Reportable dir.now log.now }
{
    let tail = log.len() / SLOT_SIZE;
    let mut scratch = [0u8; 65520];
    let l = audit::audit(dir, log, tail, &mut scratch);
    match l.answer {
        Err(r) => {
            printing::refusal(r);
            printing::line_end();
        }
        Ok(()) => {
            outcomes::print(dir, log, tail);
            cells::print(dir, l.record, &scratch);
        }
    }
}

#[tactic(auto, using(crate::specs::Eight::same_ruled))]
fn main() {
    let mut buffer = [0u8; 65537];
    let n = io::read_full(0, &mut buffer);
    if 65536 < n {
        printing::refusal(Refusal::Frame);
        printing::line_end();
        return;
    }
    let mut dir = [0u8; EIGHT_SIZE];
    directory::eight::write_eight(&mut dir);
    report(&dir, &buffer[..n]);
}
