// The program that the station runs: floor.map and a question's six lines in, the answer out. It only reads and writes;
// `text::answer_text` has the meaning.

#![tactic(auto)]

use mapfile::MAP_ROOM;
use printer::OUTPUT_ROOM;
use std::io;

fn main(rt: HostRuntime) -> io::Result<()> {
    let mut map = [0u8; MAP_ROOM];
    let n = mapfile::read_map(&rt, &mut map);
    // The longest question has 108 bytes: what comes after 128 does not show (`rest_unread`).
    let mut input = [0u8; 128];
    let m = mapfile::read_full(&mut rt.stdin(), &mut input);
    let mut out = [0u8; OUTPUT_ROOM];
    let length = text::answer_text(&map[..n], &input[..m], &mut out);
    rt.write_all(&out[..length])
}
