// The question and its reply: the refusals in document 01's order, on the program's own checking, then the search, and
// the page in the answer room. `ask` is for anyone, and has no `requires`; it is made of what a question is refused for by
// itself (`own_answer`), the yes or no of the check (`is_accepted`) and the page on an accepted map (`fill_page`).

#![tactic(auto)]

mod page;

ghost use Rattle.std.specs.Prelude.{◌≡◌};
ghost use Rattle.ask.specs.Reply.{refusal_number, answer_number, answer_found, given, reply_of, count_ok, accepted, OwnAnswer};

pub use page::fill_page;
use question::Question;
use record::SIZE;

// What a question is refused for; its number is document 01's.
#[derive(Clone, Copy, PartialEq, Eq)]
pub enum Refusal {
    PointOutside = 1,
    CountOutside = 2,
    BadgeRefused = 3,
    RoomTooShort = 4,
    MapRefused = 5,
}

impl From<Refusal> for u32 {
    ghost from_gives = { λ refusal n. n ≡ refusal_number refusal };

    fn from(refusal: Refusal) -> u32 {
        refusal as u32
    }
}

// Document 01's number of an answer.
// Kept (2): as `answer_of` in `measure`.
pub fn number_of(answer: Result<usize, Refusal>) -> u32
    ensures { result ≡ answer_number answer }
{
    answer.map_or_else(u32::from, |_| 0)
}

// How many bays an answer found.
pub fn found_in(answer: Result<usize, Refusal>) -> usize
    ensures { result ≡ answer_found answer }
{
    answer.unwrap_or(0)
}

// Whether so many bays may be asked for.
fn count_ok(k: usize) -> bool
    ensures { result ≡ count_ok k }
{
    (1..=100).contains(&k)
}

// What a question is refused for by itself, with a room of so many bytes; the refusals are tried in document 01's order.
#[tactic(auto, unfolding(numbers::specs::Tried::first_given))]
pub fn own_answer(q: Question, size: usize) -> Result<(), Refusal>
    ensures { OwnAnswer q size result }
{
    if !q.from.in_range() {
        return Err(Refusal::PointOutside);
    }
    if !count_ok(q.k) {
        return Err(Refusal::CountOutside);
    }
    if !q.badge.accepted() {
        return Err(Refusal::BadgeRefused);
    }
    if size < SIZE * q.k {
        return Err(Refusal::RoomTooShort);
    }
    Ok(())
}

// Whether a map is accepted.
pub fn is_accepted(map: &[u8]) -> bool
    ensures { result ≡ accepted map.now }
{
    rules::check(map).is_ok()
}

#[tactic(auto, using(crate::proofs::Replies::refused_map))]
pub fn ask(map: &[u8], q: Question, room: &mut [u8]) -> Result<usize, Refusal>
    ensures { given result room.new ≡ reply_of map.now q room.old }
{
    own_answer(q, room.len())?;
    if !is_accepted(map) {
        return Err(Refusal::MapRefused);
    }
    Ok(fill_page(map, q, room))
}
