// A question: from where, how many, for whom, and after which bay. It has the badge, which says who may see what, and the
// mark, which says where in the order of bays a page begins. Whoever reads, answers or replays questions uses it; it
// knows nothing of maps, and every function is for anyone.

#![tactic(auto)]

mod badge;
mod mark;

pub use badge::Badge;
pub use mark::Mark;
use measure::Point;

#[derive(Clone, Copy, PartialEq, Eq)]
pub struct Question {
    pub from: Point,
    pub k: usize,
    pub badge: Badge,
    pub mark: Mark,
}
