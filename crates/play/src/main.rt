// Plays the script on standard input, and writes its answers on standard output.
#![tactic(auto)]

use playing::runs::play_script;
use std::io;
use std::io::{Read, Write};

fn main(rt: HostRuntime) -> io::Result<()> {
    let heap = rt.alloc();
    let mut script = Vec::new(heap);
    let _count = rt.stdin().read_to_end(&mut script)?;
    let answers = play_script(heap, script.as_slice())?;
    rt.stdout().write_all(answers.as_slice())
}
