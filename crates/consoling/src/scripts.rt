// Reading the lines of a script.
ghost use Rattle.std.specs.Prelude.{◌≡◌, ◌&&◌, ◌++◌, IfOk, OnOk};
ghost use Rattle.law.specs.Calls.{asks};
ghost use Rattle.consoling.specs.Scripts.{besides, turns_of, calls_of, Parted};

use crate::readers::read_call;
use crate::turns::{Body, Script, Turn};
use law::calls::Entry;
use playing::readers::is_silent;
use std::alloc::{AllocError, Global};
use text::lines::{Line, Lines};
use text::reads::{is_word, split_word};

// Whether a line begins a second script.
fn is_beside(line: &[u8]) -> bool
    ensures { result ≡ besides line.now }
{
    let (word, rest) = split_word(line);
    let (extra, _) = split_word(rest);
    is_word(word, b"beside") && extra.is_empty()
}

// Whether a line ends the script: with `stop`, one that begins a second.
fn ends(stop: bool, line: &[u8]) -> bool
    ensures { result ≡ (stop && besides line.now) }
{
    stop && is_beside(line)
}

// Appends what a line gives to the script.
fn read_line(heap: Global, line: Line<'_>, script: &mut Script) -> Result<(), AllocError>
    ensures turns { OnOk result (script.new.turns.items ≡ script.old.turns.items ++ turns_of line.entry.number line.entry.text.now) }
    ensures calls { OnOk result (asks script.new.log.items ≡ asks script.old.log.items ++ calls_of line.entry.text.now) }
{
    if is_silent(line.text) {
        return Ok(());
    }
    match read_call(heap, line.text)? {
        Some(call) => {
            script.log.push(Entry { call, answer: None })?;
            script.turns.push(Turn::Call)?;
        }
        None => script.turns.push(Turn::Unreadable(line.number))?,
    }
    Ok(())
}

// Reads the lines; with `stop`, up to a line `beside`.
pub(crate) fn read_body<'a>(
    heap: Global,
    mut lines: Lines<'a>,
    stop: bool,
) -> Result<Body<'a>, AllocError>
    ensures { IfOk result (λ b. Parted stop lines.entry.next lines.entry.lines b.script.turns.items (asks b.script.log.items) b.beside) }
{
    let mut script = Script {
        turns: Vec::new(heap),
        log: Vec::new(heap),
    };
    while let Some(line) = lines.next() {
        if ends(stop, line.text) {
            return Ok(Body {
                script,
                beside: Some(lines),
            });
        }
        read_line(heap, line, &mut script)?;
    }
    Ok(Body {
        script,
        beside: None,
    })
}
