// The words that name a call.
#[derive(Clone, Copy)]
pub enum Verb {
    Registers,
    Lanes,
    Left,
    Set,
    Show,
    Gate,
    Page,
    Play,
}

pub const VERBS: [(&[u8], Verb); 8] = [
    (b"registers", Verb::Registers),
    (b"lanes", Verb::Lanes),
    (b"left", Verb::Left),
    (b"set", Verb::Set),
    (b"show", Verb::Show),
    (b"gate", Verb::Gate),
    (b"page", Verb::Page),
    (b"play", Verb::Play),
];
