// Runs a batch of cases from standard input through the libraries and writes what each gives, for comparison with
// independent implementations. Nothing calls it. `oracle/README.md` describes the batch and what is written. Its contracts
// are bounds: what it writes is compared, and not proved.

#![tactic(auto)]

mod answer_room;
mod batch;
mod command;
mod kept;
mod map;
mod quiet;
mod stop;

use batch::{read_command, read_count};
use kept::Kept;
use quiet::Quiet;
use std::io;
use std::io::{Print, Read};
use stop::Stop;

fn main(rt: HostRuntime) -> io::Result<()> {
    match run(&mut rt.stdin(), &rt.stdout()) {
        Ok(()) | Err(Stop::Over) => Ok(()),
        Err(Stop::Unwritten(error)) => Err(error),
    }
}

// So many commands, or fewer where one ends the run. Where a write fails the rest is read all the same.
fn run(batch: &mut impl Read, out: &impl Print) -> Result<(), Stop> {
    let mut kept = Kept::new();
    let count = read_count(batch)?;
    for i in 0..count {
        let ran = kept.obey(read_command(batch)?, batch, out);
        if let Err(Stop::Unwritten(_)) = ran {
            // What ends the rest is no news: the write that failed is what `main` answers with.
            let _ = obey_all(count - 1 - i, &mut kept, batch, &Quiet);
        }
        ran?;
    }
    Ok(())
}

fn obey_all(
    count: u32,
    kept: &mut Kept,
    batch: &mut impl Read,
    out: &impl Print,
) -> Result<(), Stop> {
    for _ in 0..count {
        kept.obey(read_command(batch)?, batch, out)?;
    }
    Ok(())
}
