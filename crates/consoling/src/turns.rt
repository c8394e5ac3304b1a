// What the lines of a script give.
use law::calls::Entry;
use text::lines::Lines;

// What is written for a line: the answer to the next call, or that the line of this number cannot be read. Neither is a
// failure or a lack of the other, so this is no `Result` and no `Option`.
#[derive(Clone, Copy)]
pub enum Turn {
    Call,
    Unreadable(u64),
}

// The lines after the bench line: a turn for each line that is answered, and the calls in order. The calls stand in a list
// of their own, since the law's `run` takes its entries as one slice.
#[derive(Drop)]
pub struct Script {
    pub turns: Vec<Turn>,
    pub log: Vec<Entry>,
}

// The lines of a script up to a line `beside`, and the lines after that, where there is one.
#[derive(Drop)]
pub struct Body<'a> {
    pub script: Script,
    pub beside: Option<Lines<'a>>,
}
