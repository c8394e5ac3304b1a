// Writes the archive on standard output.
#![tactic(auto)]

use archiving::archives::archive_text;
use std::io;
use std::io::Write;

fn main(rt: HostRuntime) -> io::Result<()> {
    let text = archive_text(rt.alloc())?;
    rt.stdout().write_all(text.as_slice())
}
