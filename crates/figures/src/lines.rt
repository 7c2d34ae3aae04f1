// The lines that the program writes, one for each figure or part of one, which each line names. What it writes is run and
// compared with its file stdout, and not proved; so no function here has an `ensures`.
use crate::maps::Map;
use ask::ask;
use measure::{Bounds, OutOfRange, Point, SquaredMm, answer_of, value_of};
use question::Question;
use record::{SIZE, record_at};
use rules::{check, node_of, number_of};
use std::{fmt, io};

// A measure as a line shows it: document 01's value, and its answer.
#[derive(Clone, Copy)]
struct Shown(Result<SquaredMm, OutOfRange>);

impl fmt::Display for Shown {
    fn fmt<W: fmt::Write>(&self, f: &mut fmt::Formatter<W>) -> fmt::Result {
        write!(f, "{} answer {}", value_of(self.0).0, answer_of(self.0))
    }
}

// A figure's two measures.
pub fn measures(out: &impl Print, figure: &str, p: Point, b: Bounds) -> io::Result<()> {
    let least = Shown(measure::mindist(p, b));
    let promised = Shown(measure::minmaxdist(p, b));
    println!(out; "figure {figure}: mindist {least}, minmaxdist {promised}")
}

// The plain distance of a squared one.
pub fn plain(out: &impl Print, figure: &str, d: u64) -> io::Result<()> {
    let mm = measure::plain(SquaredMm(d)).0;
    println!(out; "figure {figure}: plain distance of {d} is {mm}")
}

// What the map check says.
pub fn verdict(out: &impl Print, figure: &str, map: &Map) -> io::Result<()> {
    let v = check(map.bytes());
    println!(out;
        "figure {figure}: rule {} node {}",
        number_of(v),
        node_of(v)
    )
}

// The answer to a question, how many bays were found, and each as it stands in the room.
pub fn reply(
    out: &impl Print,
    figure: &str,
    map: &Map,
    q: Question,
    room: &mut [u8],
) -> io::Result<()> {
    let answer = ask(map.bytes(), q, room);
    let found = ask::found_in(answer);
    print!(out;
        "figure {figure}: answer {} found {found}",
        ask::number_of(answer)
    )?;
    for bytes in room.chunks_exact(SIZE).take(found) {
        let r = record_at(bytes, 0);
        print!(out; ", bay {} dsq {}", r.bay, r.far.0)?;
    }
    println!(out)
}
