// What is asked of an object, answered by what stands at its place.
ghost use Rattle.std.specs.Prelude.{◌≡◌};
ghost use Rattle.model.specs.Objects.{is_object, is_cell};
ghost use Rattle.model.specs.Directory.{shape_of};
ghost use Rattle.laws.specs.Ruled.{Ruled};

use codec::names::ObjectId;

pub fn is_object(dir: &[u8], id: ObjectId) -> bool
    requires { Ruled dir.now }
    ensures { result ≡ is_object (shape_of dir.now) id.0 }
{
    crate::places::place_of(dir, id) < crate::places::count(dir)
}

pub fn is_cell(dir: &[u8], id: ObjectId, key: u32) -> bool
    requires { Ruled dir.now }
    ensures { result ≡ is_cell (shape_of dir.now) id.0 key }
{
    let k = crate::places::place_of(dir, id);
    if crate::places::count(dir) <= k {
        return false;
    }
    key <= crate::places::highest_at(dir, k)
}
