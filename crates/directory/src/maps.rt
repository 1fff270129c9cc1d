// Whether an object is a map, and its highest key.
ghost use Rattle.std.specs.Prelude.{◌≡◌, ℕ, leb};
ghost use Rattle.model.specs.Objects.{is_map, is_cell};
ghost use Rattle.model.specs.Directory.{shape_of};
ghost use Rattle.laws.specs.Ruled.{Ruled};
ghost use Rattle.directory.specs.Maps.{MapGiven};

use codec::names::ObjectId;

pub fn is_map(dir: &[u8], id: ObjectId) -> bool
    requires { Ruled dir.now }
    ensures { result ≡ is_map (shape_of dir.now) id.0 }
{
    let k = crate::places::place_of(dir, id);
    if crate::places::count(dir) <= k {
        return false;
    }
    crate::places::is_map_at(dir, k)
}

// The highest key of a map.
pub fn highest_of(dir: &[u8], id: ObjectId) -> u32
    requires { MapGiven dir.now id.0 }
    ensures { (key : ℕ) → is_cell (shape_of dir.now) id.0 key ≡ leb key result }
{
    let k = crate::places::place_of(dir, id);
    crate::places::highest_at(dir, k)
}
