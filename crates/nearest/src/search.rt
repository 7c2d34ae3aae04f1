// The search down an accepted map: children nearest first, up to the first that is strictly farther than the kth bay.
ghost use Rattle.std.specs.Prelude.{◌≡◌, ◌<◌};
ghost use Rattle.floor.specs.Seen.{seen};
ghost use Rattle.tree.specs.Under.{node_bays};
ghost use Rattle.nearest.specs.Shown.{distance_to};
ghost use Rattle.nearest.specs.Best.{Carried};
ghost use Rattle.nearest.specs.Needed.{Searchable};
ghost use Rattle.nearest.specs.Searched.{Searched, Found};
ghost use Rattle.nearest.specs.Sought.{away};

use crate::Seek;
use crate::best::Best;
use crate::reach::{BEYOND, least, opens};
use floor::FloorMap;
use measure::HowFar;
use question::Question;

impl<'a> Seek<'a> {
    // The best list after all that is below a node above the leaves.
    fn search(&self, node: usize, level: u8, best: Best) -> Best
        requires inside { node < (seen self.now.map).count }
        requires is_level { (seen self.now.map).level node ≡ level }
        requires above { 0 < level }
        requires carried { Carried (seen self.now.map) self.now.q.k best }
        ensures { Searched (seen self.now.map) (away self.now) self.now.q (node_bays (seen self.now.map) level node) best result }
    {
        let mut b = best;
        let mut ds = self.gaps(node);
        let mut j = least(ds);
        while opens(ds[j], b.worst) {
            let child = self.map.reference(8 * node + j) as usize;
            if level == 1 {
                self.leaf(child, &mut b);
            } else {
                b = self.search(child, level - 1, b);
            }
            ds[j] = BEYOND;
            j = least(ds);
        }
        b
    }
}

// The page that a question asks for.
#[tactic(auto, using(crate::proofs::Checked::checked))]
pub fn nearest(map: &FloorMap, q: Question) -> Best
    requires { Searchable (seen map.now) q }
    ensures { Found (seen map.now) (distance_to (seen map.now) q.from) q result }
{
    let seek = Seek { map: *map, q };
    let root = map.root();
    let top = map.level(root);
    if top == 0 {
        let mut best = Best::new();
        seek.leaf(root, &mut best);
        return best;
    }
    seek.search(root, top, Best::new())
}
