//! Runs stored scripts, each from an empty log, and writes the name of each and its answers.
//!
//! A line that begins with `# ` is the name of the script in the lines after it, up to the next such line. The stored run of this
//! program, its files `stdin` and `stdout`, is the tests of what scripts are answered.
#![tactic(auto)]

use pgp_core::{Format, Session};
use std::io;
use std::io::{BufRead, BufReader, BufWriter, ErrorKind, Write};

fn main(rt: HostRuntime) -> io::Result<()> {
    let alloc = rt.alloc();
    let mut out = BufWriter::new(alloc, rt.stdout())?;
    let mut session = Session::new(alloc, Format::Two);
    for line in BufReader::new(alloc, rt.stdin())?.split(alloc, b'\n') {
        let line = line?;
        if line.starts_with(b"# ") {
            session = Session::new(alloc, Format::Two);
            out.write_all(line.as_slice())?;
            out.write_all(b"\n")?;
        } else if session.answer(line.as_slice()).is_ok() {
            out.write_all(session.last_answer())?;
        } else {
            return Err(io::Error::from(ErrorKind::OutOfMemory));
        }
    }
    out.flush()
}
