// A table of the bays' slots by a spread of their numbers. It is safe and it ends; that it is right is nowhere needed,
// since what comes of it is checked.
ghost use Rattle.std.specs.Prelude.{◌≡◌, ◌*◌, ◌<◌, ◌≤◌};
ghost use Rattle.floor.specs.Seen.{seen};
ghost use Rattle.bays.specs.Certificate.{entry_ref, home_of, walk_of};

use crate::certificate::{Index, entry};
use floor::FloorMap;

#[derive(Drop)]
pub struct Hashed {
    // Kept (1): 0 is a free place, as `walk_of` has it.
    // Kept (6): no heap, so no `HashMap`; what is believed of a table is what `found_all` checks.
    pub table: [u16; 4096],
}

// What the slot of an entry refers to.
#[tactic(auto, unfolding(crate::specs::Certificate::entry_ref))]
fn entry_ref(map: &FloorMap, entry: u16) -> u32
    ensures { result ≡ entry_ref (seen map.now) entry }
{
    let e = usize::from(entry);
    if e == 0 || 8 * map.count() < e {
        return 0;
    }
    map.reference(e - 1)
}

#[tactic(auto, unfolding(crate::specs::Certificate::home_of))]
fn home(b: u32) -> usize
    ensures { (result ≡ home_of b) × (result < 4096) }
{
    (b.wrapping_mul(2654435769) >> 20) as usize
}

impl Hashed {
    // Puts an entry at the first free place from the home of b on; nowhere where 64 places are taken.
    fn put(&mut self, b: u32, entry: u16) {
        let from = home(b);
        for i in 0..64 {
            let at = (from + i) % 4096;
            if self.table[at] == 0 {
                self.table[at] = entry;
                return;
            }
        }
    }

    // Puts in the filled slots of node n.
    fn enter(&mut self, map: &FloorMap, n: usize)
        requires { n < (seen map.now).count }
    {
        for i in 0..8 {
            let j = 8 * n + i;
            if map.is_filled(j) {
                self.put(map.reference(j), entry(j));
            }
        }
    }

    // Puts in every bay's slot.
    pub fn fill(&mut self, map: &FloorMap) {
        for n in 0..map.count() {
            if map.level(n) == 0 {
                self.enter(map, n);
            }
        }
    }
}

impl Index for Hashed {
    ghost find_of = { λ it v b. walk_of v it.table b 64 (home_of b) };

    fn find(&self, map: &FloorMap, b: u32, own: u16) -> u16
        requires { (1 ≤ own) × (entry_ref (seen map.now) own ≡ b) }
        ensures { result ≡ walk_of (seen map.now) self.now.table b 64 (home_of b) }
    {
        // Kept (3): the place is stepped. Worked out from i each time, it costs rule 16 of a full map 9% more.
        let mut at = home(b);
        for i in 0..64usize {
            let entry = self.table[at];
            if entry == own {
                return own;
            }
            if entry == 0 {
                return 0;
            }
            if entry_ref(map, entry) == b {
                return entry;
            }
            at = (at + 1) % 4096;
        }
        0
    }
}
