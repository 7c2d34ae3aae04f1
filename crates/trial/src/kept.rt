// What is kept from one command to the next, and what each command does with it and writes.
ghost use Rattle.std.specs.Prelude.{◌≡◌, ◌/◌, ◌%◌, ◌<◌, ◌≤◌, IfOk};

use crate::answer_room::{ROOM, fill, sum};
use crate::batch::read_all;
use crate::command::{Ask, Command, Measure, Text};
use crate::map::Map;
use crate::stop::Stop;
use printer::OUTPUT_ROOM;
use question::Mark;
use record::record_at;
use station::{
    krylozhma_ask, krylozhma_check, krylozhma_measure_answer, krylozhma_mindist,
    krylozhma_minmaxdist, krylozhma_plain,
};
use std::io::{Print, Read};

// The longest text that a command may have.
const MOST_TEXT: usize = 4096;

#[derive(Drop)]
pub struct Kept {
    maps: [Map; 4],
    mark: Mark,
    room: [u8; ROOM],
}

// Of a map's number only the two lowest bits count.
fn place_of(map: u8) -> usize
    ensures { result < 4 }
{
    usize::from(map % 4)
}

// The bytes of a map by its number.
fn map_of(maps: &[Map; 4], map: u8) -> &[u8] {
    maps[place_of(map)].bytes()
}

// Kept (1): two numbers in one, the first in the upper 32 bits, are what `krylozhma_check` and `krylozhma_ask` give to C.
fn halves(pair: u64) -> (u64, u64)
    ensures { (result.0 ≡ pair / 4294967296) × (result.1 ≡ pair % 4294967296) }
{
    (pair / 4294967296, pair % 4294967296)
}

impl Kept {
    pub fn new() -> Kept {
        Kept {
            maps: [Map::new(), Map::new(), Map::new(), Map::new()],
            mark: Mark::default(),
            room: [0; ROOM],
        }
    }

    pub fn obey(
        &mut self,
        command: Command,
        batch: &mut impl Read,
        out: &impl Print,
    ) -> Result<(), Stop> {
        match command {
            Command::Load(load) => self.maps[place_of(load.map)].load(batch, load),
            Command::Check(map) => check(out, map_of(&self.maps, map)),
            Command::Mark(mark) => {
                self.mark = mark;
                Ok(())
            }
            Command::Ask(ask) => self.ask(out, ask),
            Command::Text(text) => answer_text(batch, out, map_of(&self.maps, text.map), text),
            Command::Measure(measure) => measured(out, measure),
            Command::Root(squared) => root(out, squared),
        }
    }

    // A question, after the mark that is kept. The mark goes on to the last bay found.
    fn ask(&mut self, out: &impl Print, ask: Ask) -> Result<(), Stop> {
        let Kept { maps, mark, room } = self;
        fill(room, ask.fill);
        let map = map_of(maps, ask.map);
        let (answer, found) = halves(reply_to(map, ask, *mark, room)?);
        println!(out; "ask {answer} {found} {}", sum(room))?;
        if answer == 0 && found > 0 {
            let last = record_at(room, found as usize - 1);
            *mark = Mark {
                far: last.far,
                bay: last.bay,
            };
        }
        Ok(())
    }
}

// The answer and how many bays were found, as a pair. Only the first bytes of the room are lent, as the command says.
fn reply_to(map: &[u8], ask: Ask, mark: Mark, room: &mut [u8; ROOM]) -> Result<u64, Stop>
    ensures { IfOk result (λ pair. pair % 4294967296 ≤ 100) }
{
    let lent = room.get_mut(..ask.size as usize).ok_or(Stop::Over)?;
    let Ask { x, y, k, badge, .. } = ask;
    Ok(krylozhma_ask(map, x, y, k, badge, mark.far.0, mark.bay, lent))
}

// The map check.
fn check(out: &impl Print, map: &[u8]) -> Result<(), Stop> {
    let (rule, node) = halves(krylozhma_check(map));
    println!(out; "check {rule} {node}")?;
    Ok(())
}

// A question in text, which comes after the head.
fn answer_text(
    batch: &mut impl Read,
    out: &impl Print,
    map: &[u8],
    text: Text,
) -> Result<(), Stop> {
    let mut input = [0; MOST_TEXT];
    let input = input.get_mut(..text.count as usize).ok_or(Stop::Over)?;
    read_all(batch, input)?;
    let mut answer = [0; OUTPUT_ROOM];
    let length = text::answer_text(map, input, &mut answer);
    out.write_all(&answer[..length])?;
    Ok(())
}

// The two measures of a point and a box, and the answer of both.
fn measured(out: &impl Print, measure: Measure) -> Result<(), Stop> {
    let Measure {
        x,
        y,
        xlow,
        xhigh,
        ylow,
        yhigh,
    } = measure;
    let answer = krylozhma_measure_answer(x, y, xlow, xhigh, ylow, yhigh);
    let least = krylozhma_mindist(x, y, xlow, xhigh, ylow, yhigh);
    let promised = krylozhma_minmaxdist(x, y, xlow, xhigh, ylow, yhigh);
    println!(out; "measure {answer} {least} {promised}")?;
    Ok(())
}

// The plain distance of a squared one.
fn root(out: &impl Print, squared: u64) -> Result<(), Stop> {
    println!(out; "plain {}", krylozhma_plain(squared))?;
    Ok(())
}
