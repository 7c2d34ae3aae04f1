// The map check: rules 11 to 16 of document 01, each tried over the whole map before the next. One file for each rule but
// rule 16, which is `bays`', with its test of a node; here are the one loop over nodes, and the verdict. `check` is for
// anyone; the rest is for `check`, which knows that the rules before have been kept.

#![tactic(auto)]

mod boxes;
mod fill;
mod form;
mod header;
mod links;

ghost use Rattle.std.specs.Prelude.{◌≡◌, ℕ, Bool, ◌<◌};
ghost use Rattle.floor.specs.Seen.{seen};
ghost use Rattle.bays.specs.Bays.{bays_ok};
ghost use Rattle.rules.specs.Verdicts.{rule_number, fault_number, fault_node, number_of, node_of, rule_ok, tried_of, verdict_of};

use floor::FloorMap;
use links::LinkedMap;

// A rule that is tried node by node; its number is document 01's.
#[derive(Clone, Copy, PartialEq, Eq)]
pub enum Rule {
    Form = 12,
    Fill = 13,
    Links = 14,
    Boxes = 15,
    Bays = 16,
}

// What is wrong with a map: its header, or a rule with the lowest node that breaks it.
#[derive(Clone, Copy, PartialEq, Eq)]
pub enum Fault {
    BadHeader,
    Broken(Rule, usize),
}

impl From<Rule> for u32 {
    ghost from_gives = { λ rule n. n ≡ rule_number rule };

    fn from(rule: Rule) -> u32 {
        rule as u32
    }
}

impl From<Fault> for u32 {
    ghost from_gives = { λ fault n. n ≡ fault_number fault };

    fn from(fault: Fault) -> u32 {
        match fault {
            Fault::BadHeader => 11,
            Fault::Broken(rule, _) => u32::from(rule),
        }
    }
}

impl Fault {
    fn node(self) -> usize
        ensures { result ≡ fault_node self }
    {
        match self {
            Fault::BadHeader => 0,
            Fault::Broken(_, node) => node,
        }
    }
}

// Document 01's number of the check's answer.
// Kept (2): as `answer_of` in `measure`.
pub fn number_of(verdict: Result<(), Fault>) -> u32
    ensures { result ≡ number_of verdict }
{
    verdict.map_or_else(u32::from, |()| 0)
}

// Document 01's node of the check's answer.
pub fn node_of(verdict: Result<(), Fault>) -> usize
    ensures { result ≡ node_of verdict }
{
    verdict.map_or_else(Fault::node, |()| 0)
}

// A rule over the whole map, by its test of a node: broken at the lowest node that fails.
#[tactic(auto, using(crate::proofs::Verdicts::tried_stop, crate::proofs::Verdicts::tried_end))]
fn tried<F: Fn(usize) -> bool>(map: &FloorMap, rule: Rule, holds: F) -> Result<(), Fault>
    requires callable { (n : ℕ) → n < (seen map.now).count → F.pre holds n }
    requires tests { (n : ℕ) (t : Bool) → n < (seen map.now).count
        → F.post holds n t → t ≡ rule_ok rule (seen map.now) n }
    ensures { result ≡ tried_of (seen map.now) rule }
{
    for n in 0..map.count() {
        if !holds(n) {
            return Err(Fault::Broken(rule, n));
        }
    }
    Ok(())
}

// Rule 14. Not inlined: the counts are then cleared where they are needed, and not for a map that is refused before.
#[inline(never)]
fn try_links(map: &LinkedMap) -> Result<(), Fault>
    ensures { result ≡ tried_of (seen map.now.floor) Rule.Links }
{
    let counts = map.naming_counts();
    tried(&map.floor, Rule::Links, |n| map.links_ok(counts[n], n))
}

// Rule 16, of node n, by the definition.
fn bays_ok(map: &FloorMap, n: usize) -> bool
    requires { n < (seen map.now).count }
    ensures { result ≡ bays_ok (seen map.now) n }
{
    (0..8).all(|i| bays::is_lone(map, 8 * n + i))
}

// Rule 16, where a map with no bay number twice is seen to be so at once.
#[tactic(auto, using(crate::proofs::Verdicts::kept_tried, bays::proofs::Exact::no_twins))]
fn apart(map: &FloorMap) -> Result<(), Fault>
    ensures { result ≡ tried_of (seen map.now) Rule.Bays }
{
    if bays::distinct(map) {
        return Ok(());
    }
    tried(map, Rule::Bays, |n| bays_ok(map, n))
}

// The map check.
#[tactic(auto, using(crate::proofs::Verdicts::in_turn, crate::proofs::Verdicts::tried_links), unfolding(crate::specs::Verdicts::verdict_of))]
pub fn check(bytes: &[u8]) -> Result<(), Fault>
    ensures { result ≡ verdict_of bytes.now }
{
    let map = header::read(bytes)?;
    tried(&map, Rule::Form, |n| form::form_ok(&map, n))?;
    tried(&map, Rule::Fill, |n| fill::fill_ok(&map, n))?;
    let linked = LinkedMap { floor: map };
    try_links(&linked)?;
    tried(&map, Rule::Boxes, |n| boxes::boxes_ok(&linked, n))?;
    apart(&map)
}
