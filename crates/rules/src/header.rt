// Rule 11: the header, and the length that it asks for.
ghost use Rattle.std.specs.Prelude.{◌≡◌, false, true, MatchResult};
ghost use Rattle.floor.specs.View.{view_of};
ghost use Rattle.rules.specs.declared.Fault.TheVariants.{BadHeader};
ghost use Rattle.rules.specs.Header.{header_ok};

use crate::Fault;
use floor::FloorMap;

// Kept (4): with `contains`, the edit `no_node_let_through`, which changes no outcome, is proved; here the answers hold
// this text.
fn header_ok(map: &[u8]) -> bool
    ensures { result ≡ header_ok (view_of map.now) }
{
    let Some(h) = floor::read_header(map) else {
        return false;
    };
    let count = h.count;
    let root = h.root;
    let height = h.height;
    let long = map.len() == floor::size_for(count);
    (1 <= count) & (count <= 256) & (root < count) & (1 <= height) & (height <= 6) & h.clear & long
}

// A map whose header keeps the rule: its fields may be read.
#[tactic(auto, using(crate::proofs::Verdicts::header_shaped))]
pub fn read(bytes: &[u8]) -> Result<FloorMap<'_>, Fault>
    ensures { MatchResult result
        (λ map. (header_ok (view_of map.bytes.now) ≡ true) × (map.bytes.now ≡ bytes.now))
        (λ fault. (header_ok (view_of bytes.now) ≡ false) × (fault ≡ BadHeader)) }
{
    if !header_ok(bytes) {
        return Err(Fault::BadHeader);
    }
    Ok(FloorMap { bytes })
}
