// The bays of a leaf, offered to the best list one by one, where it lies.
ghost use Rattle.std.specs.Prelude.{◌≡◌, true, ◌*◌, ◌-◌, ◌<◌, ◌≤◌, get_or};
ghost use Rattle.floor.specs.Seen.{seen};
ghost use Rattle.floor.specs.View.{filled};
ghost use Rattle.tree.specs.Under.{node_bays};
ghost use Rattle.nearest.specs.Best.{Slots, Carried};
ghost use Rattle.nearest.specs.Asked.{wanted_by};
ghost use Rattle.nearest.specs.Searched.{Searched, taken_of};
ghost use Rattle.nearest.specs.Sought.{away};

use crate::Seek;
use crate::best::{Best, sink, worst_of};
use crate::key::is_sooner;
use crate::slots::far_to;
use question::Mark;

impl<'a> Seek<'a> {
    // Whether the question wants the bay in a filled slot. A bay that is hidden from the badge is not measured.
    #[tactic(auto, unfolding(crate::specs::Shown::shown_at))]
    fn wants(&self, j: usize) -> bool
        requires inside { j < 8 * (seen self.now.map).count }
        requires there { filled (seen self.now.map) j ≡ true }
        ensures { result ≡ wanted_by (seen self.now.map) (away self.now) self.now.q j }
    {
        let slot = self.map.slot(j);
        if self.q.badge.contains(slot.zone) {
            let far = far_to(self.q.from, slot.bounds);
            let here = Mark {
                far,
                bay: slot.reference,
            };
            return self.q.mark.is_before(here);
        }
        false
    }

    // Whether the bay in a slot goes into a list.
    fn takes(&self, j: usize, best: &Best) -> bool
        requires inside { j < 8 * (seen self.now.map).count }
        requires slots { Slots (seen self.now.map) best.now.keys }
        requires low { 1 ≤ self.now.q.k }
        requires high { self.now.q.k ≤ 100 }
        ensures { result ≡ taken_of (seen self.now.map) (away self.now) self.now.q j best.now.len
            (get_or best.now.keys (self.now.q.k - 1) 0) }
    {
        let k = self.q.k;
        self.map.is_filled(j)
            && self.wants(j)
            && (best.len < k || is_sooner(&self.map, self.key_at(j), best.last(k)))
    }

    // Takes the bays of a leaf into the list.
    pub fn leaf(&self, node: usize, best: &mut Best)
        requires inside { node < (seen self.now.map).count }
        requires carried { Carried (seen self.now.map) self.now.q.k best.old }
        ensures { Searched (seen self.now.map) (away self.now) self.now.q
            (node_bays (seen self.now.map) 0 node) best.old best.new }
    {
        // A copy, which the list's changes leave alone: what it holds is read once.
        let seek = *self;
        let k = seek.q.k;
        for i in 0..8 {
            let j = 8 * node + i;
            if seek.takes(j, best) {
                let new = seek.key_at(j);
                if best.len < k {
                    best.len += 1;
                }
                sink(&seek.map, &mut best.keys, best.len - 1, new);
            }
        }
        best.worst = worst_of(k, best.len, best.last(k));
    }
}
