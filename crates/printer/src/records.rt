// The lines of the bays found.
ghost use Rattle.std.specs.Prelude.{◌*◌, ◌≤◌, length};
ghost use Rattle.record.specs.Record.{record_size, records_in};
ghost use Rattle.printer.specs.Printed.{far_fields, record_line, record_lines};
ghost use Rattle.printer.specs.Wrote.{far_room, line_room};
ghost use Rattle.printer.specs.Output.{HasRoom, Adds};

use crate::output::Output;
use measure::{HowFar, SquaredMm, plain};
use record::{Record, record_at};

impl Output<'_> {
    // A squared distance, and its plain distance.
    fn far(&mut self, far: HowFar)
        requires { HasRoom far_room self.old }
        ensures { Adds far_room self.old self.new (far_fields far) }
    {
        let dsq = SquaredMm::from(far);
        let mm = plain(dsq);
        self.field(b" dsq=", dsq.0);
        self.field(b" mm=", mm.0);
    }

    fn record_line(&mut self, r: Record)
        requires { HasRoom line_room self.old }
        ensures { Adds line_room self.old self.new (record_line r) }
    {
        self.field(b"bay=", u64::from(r.bay));
        self.field(b" zone=", u64::from(r.zone));
        self.far(r.far);
        self.bytes(b"\n");
    }

    // The lines of the first n records of a room.
    pub fn record_lines(&mut self, room: &[u8], n: usize)
        requires { (record_size * n ≤ length room.now) × HasRoom (line_room * n) self.old }
        ensures { Adds (line_room * n) self.old self.new (record_lines (records_in n room.now)) }
    {
        for i in 0..n {
            self.record_line(record_at(room, i));
        }
    }
}
