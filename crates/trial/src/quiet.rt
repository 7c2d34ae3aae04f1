// Where nothing is written: what is left of a batch once a write has failed is read, and answered to nobody.
use std::fmt::Display;
use std::io;
use std::io::Print;

pub struct Quiet;

impl Print for Quiet {
    fn print<D: Display + Drop>(&self, _value: D) -> io::Result<()> {
        Ok(())
    }

    fn println<D: Display + Drop>(&self, _value: D) -> io::Result<()> {
        Ok(())
    }

    fn write_all(&self, _bytes: &[u8]) -> io::Result<()> {
        Ok(())
    }
}
