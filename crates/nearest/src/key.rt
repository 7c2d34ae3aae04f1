// A bay of a map as one number, its key: how far it is and its slot, and the order of two of them.
ghost use Rattle.std.specs.Prelude.{◌≡◌, true, ◌*◌, ◌<◌};
ghost use Rattle.floor.specs.Seen.{seen};
ghost use Rattle.floor.specs.View.{filled};
ghost use Rattle.nearest.specs.Best.{key_of, slot_in, far_in, sooner};
ghost use Rattle.nearest.specs.Sought.{away};

use crate::Seek;
use floor::FloorMap;
use measure::HowFar;

#[derive(Clone, Copy, PartialEq, Eq)]
pub struct Key(pub u64);

impl Key {
    pub fn slot(self) -> usize
        ensures { result ≡ slot_in self.0 }
    {
        (self.0 % 2048) as usize
    }

    pub fn far(self) -> HowFar
        ensures { result.0 ≡ far_in self.0 }
    {
        HowFar(self.0 / 2048)
    }
}

impl<'a> Seek<'a> {
    // The key of the bay in a filled slot.
    #[tactic(auto, using(crate::proofs::Sought::count_few, crate::proofs::Sought::small_there))]
    pub fn key_at(&self, j: usize) -> Key
        requires inside { j < 8 * (seen self.now.map).count }
        requires there { filled (seen self.now.map) j ≡ true }
        ensures { result.0 ≡ key_of (away self.now) j }
    {
        let number = 2048 * self.how_far(j).0 + j as u64;
        Key(number)
    }
}

// Whether the bay of one key comes strictly before that of another; the map is read only where they are as near.
#[tactic(auto, using(crate::proofs::Keys::lower_is), unfolding(question::specs::Mark::before))]
pub fn is_sooner(map: &FloorMap, a: Key, b: Key) -> bool
    requires first { slot_in a.0 < 8 * (seen map.now).count }
    requires second { slot_in b.0 < 8 * (seen map.now).count }
    ensures { result ≡ sooner (seen map.now) a.0 b.0 }
{
    // Kept (4): `cmp` with `then_with` took 51,551 instructions for a page of 100 where this took 46,147, and pairs would always
    // read the map.
    let far = a.far();
    let other = b.far();
    if far == other {
        return map.reference(a.slot()) < map.reference(b.slot());
    }
    far < other
}
