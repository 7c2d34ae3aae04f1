// Rule 13: how many slots of a node are filled.
ghost use Rattle.std.specs.Prelude.{◌≡◌, ◌<◌};
ghost use Rattle.floor.specs.Seen.{seen};
ghost use Rattle.rules.specs.Fill.{fill_ok};

use floor::FloorMap;

#[tactic(auto, unfolding(crate::specs::Fill::fill_ok))]
pub fn fill_ok(map: &FloorMap, n: usize) -> bool
    requires { n < (seen map.now).count }
    ensures { result ≡ fill_ok (seen map.now) n }
{
    let node = map.node(n);
    let filled = node.occupied.count_ones();
    if n == map.root() {
        return (node.level == 0) | (2 <= filled);
    }
    3 <= filled
}
