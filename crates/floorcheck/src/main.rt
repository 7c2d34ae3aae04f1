// The map check for service staff: reads floor.map in the folder that it is run in, and prints the rule's number and the
// node's, 0 and 0 for a map that keeps every rule. It only reads and writes; `rules::check` has the meaning.

#![tactic(auto)]

use mapfile::MAP_ROOM;
use std::io;

fn main(rt: HostRuntime) -> io::Result<()> {
    let mut room = [0u8; MAP_ROOM];
    let length = mapfile::read_map(&rt, &mut room);
    let verdict = rules::check(&room[..length]);
    println!(rt; "answer={}", rules::number_of(verdict))?;
    println!(rt; "node={}", rules::node_of(verdict))
}
