// The number of an object's first cell, kept by the object's place in the directory: a cell's number is that and its key.
ghost use Rattle.std.specs.Prelude.{◌≡◌};
ghost use Rattle.model.specs.Directory.{listed_in};
ghost use Rattle.numbering.specs.Names.{number_in};
ghost use Rattle.numbering.specs.Bases.{ToFill, Based, CellGiven};

use codec::names::ObjectId;

// Fills in the numbers, and counts all cells.
pub fn fill(dir: &[u8], bases: &mut [u64]) -> usize
    requires { ToFill dir.now bases.old }
    ensures { Based dir.now bases.new result }
{
    let n = directory::places::count(dir);
    let mut sum: u64 = 0;
    for k in 0..n {
        bases[k] = sum;
        sum = sum + directory::places::highest_at(dir, k) as u64 + 1;
    }
    sum as usize
}

// The number of a cell of the directory.
pub fn number_of(dir: &[u8], bases: &[u64], id: ObjectId, key: u32) -> usize
    requires { CellGiven dir.now bases.now id.0 key }
    ensures { result ≡ number_in (listed_in dir.now) id.0 key }
{
    let place = directory::places::place_of(dir, id);
    bases[place] as usize + key as usize
}
