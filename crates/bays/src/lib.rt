// Rule 16, fast and exact: an index of the bays' slots is made, and it is checked that every bay is found in it from its
// number alone, which shows that no number stands twice. Nothing rests on which slots it has: first a table by hashing,
// and where numbers crowd, a sorted list. Where both fail, the caller falls back to `is_lone`, the definition itself.
// The map check calls this; it knows maps through `floor` alone. Its functions have a `requires`: slots and
// nodes are the map's, and an entry is that of a bay.

#![tactic(auto)]

mod certificate;
mod hashed;
mod sorted;

ghost use Rattle.std.specs.Prelude.{◌≡◌, true, not, ◌+◌, ◌*◌, ◌<◌};
ghost use Rattle.numbers.specs.Below.{all_below};
ghost use Rattle.floor.specs.Seen.{seen};
ghost use Rattle.floor.specs.View.{bay};
ghost use Rattle.bays.specs.Bays.{twin, lone, NoTwins};

use certificate::all_found;
use floor::FloorMap;
use hashed::Hashed;
use sorted::{Key, Sorted, list};

pub fn is_bay(map: &FloorMap, j: usize) -> bool
    requires { j < 8 * (seen map.now).count }
    ensures { result ≡ bay (seen map.now) j }
{
    (map.level(j / 8) == 0) & map.is_filled(j)
}

#[tactic(auto, unfolding(crate::specs::Bays::twin))]
fn is_twin(map: &FloorMap, j: usize, k: usize) -> bool
    requires { (j < 8 * (seen map.now).count) × (k < 8 * (seen map.now).count) }
    ensures { result ≡ twin (seen map.now) j k }
{
    is_bay(map, j) & is_bay(map, k) & ((j != k) & (map.reference(j) == map.reference(k)))
}

// No slot of node n is a twin of slot j.
fn has_no_twin(map: &FloorMap, j: usize, n: usize) -> bool
    requires { (j < 8 * (seen map.now).count) × (n < (seen map.now).count) }
    ensures { result ≡ all_below (λ i. not (twin (seen map.now) j (8 * n + i))) 8 }
{
    // Kept (3): a fold sees all, here and in `is_lone`, so that four nodes are looked at in one go. `is_lone` of each slot of a
    // full map takes 23.3 million instructions so, and 77.6 with `all`.
    (0..8).fold(true, |ok, i| ok & !is_twin(map, j, 8 * n + i))
}

pub fn is_lone(map: &FloorMap, j: usize) -> bool
    requires { j < 8 * (seen map.now).count }
    ensures { result ≡ lone (seen map.now) j }
{
    (0..map.count()).fold(true, |ok, n| ok & has_no_twin(map, j, n))
}

// Bays found again in a table by hashing. Not inlined, nor is the next one: each has its index on the stack only while it runs.
#[inline(never)]
#[tactic(auto, using(crate::proofs::Found::found_no_twins))]
fn distinct_hashed(map: &FloorMap) -> bool
    ensures { result ≡ true → NoTwins (seen map.now) }
{
    let mut hashed = Hashed { table: [0; 4096] };
    hashed.fill(map);
    all_found(map, &hashed)
}

// Bays found again in the order of their numbers.
#[inline(never)]
#[tactic(auto, using(crate::proofs::Found::found_no_twins))]
fn distinct_sorted(map: &FloorMap) -> bool
    ensures { result ≡ true → NoTwins (seen map.now) }
{
    let mut keys = [Key::default(); 2048];
    let n = list(map, &mut keys);
    all_found(map, &Sorted::of(&mut keys[..n]))
}

// Whether a certificate was found that no bay number stands twice. Yes shows that it is so; no shows nothing, and the
// caller then goes by the definition.
pub fn distinct(map: &FloorMap) -> bool
    ensures { result ≡ true → NoTwins (seen map.now) }
{
    distinct_hashed(map) || distinct_sorted(map)
}
