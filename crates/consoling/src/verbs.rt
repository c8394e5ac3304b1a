// The words that name a call.
#[derive(Clone, Copy)]
pub enum Verb {
    Key,
    Block,
    Clear,
    Schedule,
    Seal,
    Open,
    Read,
    Counts,
    Left,
    Record,
    Unready,
}

pub const VERBS: [(&[u8], Verb); 11] = [
    (b"key", Verb::Key),
    (b"block", Verb::Block),
    (b"clear", Verb::Clear),
    (b"schedule", Verb::Schedule),
    (b"seal", Verb::Seal),
    (b"open", Verb::Open),
    (b"read", Verb::Read),
    (b"counts", Verb::Counts),
    (b"left", Verb::Left),
    (b"record", Verb::Record),
    (b"unready", Verb::Unready),
];
