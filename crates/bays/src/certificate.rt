// Checks that every bay is found again from its number, whatever it is looked for in: `specs/Certificate.antt`.
ghost use Rattle.std.specs.Prelude.{◌≡◌, ℕ, ◌+◌, ◌*◌, ◌<◌, ◌≤◌};
ghost use Rattle.numbers.specs.Below.{all_below};
ghost use Rattle.floor.specs.Seen.{seen};
ghost use Rattle.floor.specs.View.{View};
ghost use Rattle.bays.specs.Certificate.{entry_ref, found_at, found_all};

use crate::is_bay;
use floor::FloorMap;

// Where a slot is looked for from a bay number alone.
// Kept (1): an entry of 0 is none, as `walk_of` and `found_at` have it, on which `found_no_twins` rests.
pub trait Index {
    // The entry found for a bay number.
    ghost find_of: { Self → View → ℕ → ℕ };

    // `own` is an entry that refers to b: where it is met first, as it nearly always is, the map need not be read.
    fn find(&self, map: &FloorMap, b: u32, own: u16) -> u16
        requires { (1 ≤ own) × (entry_ref (seen map.now) own ≡ b) }
        ensures { result ≡ find_of self.now (seen map.now) b };
}

// The entry of slot j: one more than its number, since 0 is none.
pub fn entry(j: usize) -> u16
    requires { j < 2048 }
    ensures { result ≡ j + 1 }
{
    (j + 1) as u16
}

#[tactic(auto, using(crate::proofs::Search::own_entry), unfolding(crate::specs::Certificate::found_at))]
fn is_found<I: Index>(map: &FloorMap, index: &I, j: usize) -> bool
    requires { j < 8 * (seen map.now).count }
    ensures { result ≡ found_at (I.find_of index.now (seen map.now)) (seen map.now) j }
{
    if !is_bay(map, j) {
        return true;
    }
    let own = entry(j);
    index.find(map, map.reference(j), own) == own
}

fn node_found<I: Index>(map: &FloorMap, index: &I, node: usize) -> bool
    requires { node < (seen map.now).count }
    ensures { result ≡ all_below (λ i. found_at (I.find_of index.now (seen map.now)) (seen map.now) (8 * node + i)) 8 }
{
    // Kept (3): a fold sees all eight, which are then laid out flat: rule 16 of a full map takes 118,187 instructions,
    // and 126,708 with `all`.
    (0..8).fold(true, |ok, i| ok & is_found(map, index, 8 * node + i))
}

pub fn all_found<I: Index>(map: &FloorMap, index: &I) -> bool
    ensures { result ≡ found_all (I.find_of index.now (seen map.now)) (seen map.now) }
{
    (0..map.count()).all(|node| node_found(map, index, node))
}
