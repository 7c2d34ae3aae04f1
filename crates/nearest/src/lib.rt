// The nearest bays that a badge may see: the list of the best so far, and the search down an accepted map.
// A question's reply calls this; it knows maps through `floor`, distances through `measure`, and no record.
// `nearest` has a `requires`: the reply has checked the map and the question, once, before it searches. Below it the type
// `Seek` says that they have been checked, and clauses say only which node or slot is looked at.

#![tactic(auto)]

mod best;
mod key;
mod leaf;
mod reach;
mod search;
mod slots;

ghost use Rattle.nearest.specs.Needed.{Checked};

pub use best::Best;
use floor::FloorMap;
pub use key::Key;
use question::Question;
pub use search::nearest;

// A question on a map, both checked: what the search reads.
#[derive(Clone, Copy)]
pub(crate) struct Seek<'a> {
    pub map: FloorMap<'a>,
    pub q: Question,
    ghost checked: { Checked map.bytes.now q },
}
