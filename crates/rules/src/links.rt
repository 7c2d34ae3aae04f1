// Rule 14: how often each node is named, and that levels fall by one along every link.
ghost use Rattle.std.specs.Prelude.{◌≡◌, true, false, ◌*◌, ◌/◌, ◌<◌, MatchOption};
ghost use Rattle.floor.specs.Seen.{seen};
ghost use Rattle.floor.specs.View.{view_of, filled, leaf};
ghost use Rattle.rules.specs.Links.{Linked, named, named_ok, step_ok, links_ok};
ghost use Rattle.rules.specs.Leaning.{Counted};

use floor::FloorMap;

// A map of which the form rule has been tried: along every link there is a node.
#[derive(Clone, Copy)]
pub struct LinkedMap<'a> {
    pub floor: FloorMap<'a>,
    ghost linked: { Linked (view_of floor.bytes.now) },
}

// A node named as often as it should be, and the root at the top level.
#[tactic(auto, unfolding(crate::specs::Links::named_ok))]
fn named_ok(map: &FloorMap, times: u16, n: usize) -> bool
    requires { (n < (seen map.now).count) × (times ≡ named (seen map.now) n) }
    ensures { result ≡ named_ok (seen map.now) n }
{
    let level = u32::from(map.level(n));
    let height = u32::from(map.height());
    if n == map.root() {
        return (times == 0) & (level + 1 == height);
    }
    times == 1
}

// Kept (5): that slot j lies above the leaves is asked three times; a type for such a node would be made anew by each of the
// three that test the level and then go over the slots, and say no more than the test does.
impl<'a> LinkedMap<'a> {
    // The node that slot j, above the leaves, names where it is filled.
    pub fn child(&self, j: usize) -> Option<usize>
        requires { (j < 8 * (seen self.now.floor).count)
            × (leaf (seen self.now.floor) (j / 8) ≡ false) }
        ensures { MatchOption result
            (filled (seen self.now.floor) j ≡ false)
            (λ n. (filled (seen self.now.floor) j ≡ true)
            × (n ≡ (seen self.now.floor).ref j) × (n < (seen self.now.floor).count)) }
    {
        if !self.floor.is_filled(j) {
            return None;
        }
        Some(self.floor.reference(j) as usize)
    }

    // How many slots name each node; a leaf is passed over whole.
    pub fn naming_counts(&self) -> [u16; 256]
        ensures { Counted (seen self.now.floor) result }
    {
        let mut counts = [0u16; 256];
        for n in 0..self.floor.count() {
            if self.floor.level(n) != 0 {
                for i in 0..8 {
                    if let Some(child) = self.child(8 * n + i) {
                        counts[child] += 1;
                    }
                }
            }
        }
        counts
    }

    // A filled slot of a node above the leaves names a node one level lower.
    #[tactic(auto, unfolding(crate::specs::Links::step_ok))]
    fn step_ok(&self, j: usize) -> bool
        requires { (j < 8 * (seen self.now.floor).count)
            × (leaf (seen self.now.floor) (j / 8) ≡ false) }
        ensures { result ≡ step_ok (seen self.now.floor) j }
    {
        let Some(child) = self.child(j) else {
            return true;
        };
        let below = u32::from(self.floor.level(child));
        let level = u32::from(self.floor.level(j / 8));
        below + 1 == level
    }

    // The rule, of node n, which is named so many times.
    #[tactic(auto, unfolding(crate::specs::Links::links_ok))]
    pub fn links_ok(&self, times: u16, n: usize) -> bool
        requires { (n < (seen self.now.floor).count)
            × (times ≡ named (seen self.now.floor) n) }
        ensures { result ≡ links_ok (seen self.now.floor) n }
    {
        named_ok(&self.floor, times, n)
            && (self.floor.level(n) == 0 || (0..8).all(|i| self.step_ok(8 * n + i)))
    }
}
