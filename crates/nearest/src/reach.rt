// How far each slot of a node is, and which is nearest.
ghost use Rattle.std.specs.Prelude.{◌≡◌, ℕ, ◌*◌, ◌<◌, ◌≤◌, get_or};
ghost use Rattle.floor.specs.Seen.{seen};
ghost use Rattle.nearest.specs.Reach.{none, gap_of, Reach, opened};
ghost use Rattle.nearest.specs.Sought.{away};

use crate::Seek;
use measure::HowFar;
use std::array;

// Farther than any slot: how far no box is.
// Kept (1): `Option<HowFar>` takes 103,950 instructions for a page of 100 of one zone in 32 of the full map, and this 81,628.
pub const BEYOND: HowFar = HowFar(u64::MAX);

impl<'a> Seek<'a> {
    // How far a slot is, if it is filled.
    #[tactic(auto, unfolding(crate::specs::Reach::gap_of))]
    fn gap(&self, j: usize) -> HowFar
        requires { j < 8 * (seen self.now.map).count }
        ensures { result.0 ≡ gap_of (seen self.now.map) (away self.now) j }
    {
        if self.map.is_filled(j) {
            return self.how_far(j);
        }
        BEYOND
    }

    // How far each slot of a node is.
    pub fn gaps(&self, node: usize) -> [HowFar; 8]
        requires { node < (seen self.now.map).count }
        ensures { Reach (seen self.now.map) (away self.now) node result }
    {
        array::from_fn(|i| self.gap(8 * node + i))
    }
}

// The slot that is nearest.
pub fn least(ds: [HowFar; 8]) -> usize
    ensures { (result < 8) × ((i : ℕ) → i < 8 → (get_or ds result none).0 ≤ (get_or ds i none).0) }
{
    // Kept (3): of `min_by_key` over a range no proof was found that what it gives is the least.
    let mut at: usize = 0;
    for i in 1..8 {
        if ds[i] < ds[at] {
            at = i;
        }
    }
    at
}

// Whether to go into a slot at the distance d, with the kth bay at the distance worst: a slot as far as the kth may hold
// a bay that is as near, with a smaller number.
pub fn opens(d: HowFar, worst: HowFar) -> bool
    ensures { result ≡ opened d.0 worst.0 }
{
    (d < BEYOND) & (d <= worst)
}
