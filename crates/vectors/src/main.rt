// Answers the script on standard input, on standard output: `console` again, as a program has one stored input.
#![tactic(auto)]

use consoling::runs::console_script;
use std::io;
use std::io::{Read, Write};

fn main(rt: HostRuntime) -> io::Result<()> {
    let heap = rt.alloc();
    let mut script = Vec::new(heap);
    let _count = rt.stdin().read_to_end(&mut script)?;
    match console_script(heap, script.as_slice()) {
        Ok(answers) => rt.stdout().write_all(answers.as_slice()),
        Err(_) => rt.stdout().write_all(b"no memory\n"),
    }
}
