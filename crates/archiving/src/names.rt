// The pages' names, and what each does.
ghost use Rattle.std.specs.Prelude.{◌≡◌};
ghost use Rattle.archiving.specs.Lines.{name_text};

use plans::plays::Play;

// Each page once; the bases don't matter here.
pub(crate) const PAGES: [Play; 21] = [
    Play::Add([0; 3]),
    Play::Sum([0; 4]),
    Play::Copy([0; 3]),
    Play::Enter([0; 2]),
    Play::Leave([0; 2]),
    Play::Invert([0; 3]),
    Play::Affine([0; 2]),
    Play::Unaffine([0; 2]),
    Play::Finish([0; 3]),
    Play::Mix([0; 9]),
    Play::Unmix([0; 9]),
    Play::Rcon1([0; 2]),
    Play::Rcon2([0; 2]),
    Play::Rcon3([0; 2]),
    Play::Rcon4([0; 2]),
    Play::Rcon5([0; 2]),
    Play::Rcon6([0; 2]),
    Play::Rcon7([0; 2]),
    Play::Rcon8([0; 2]),
    Play::Rcon9([0; 2]),
    Play::Rcon10([0; 2]),
];

// The name of a play's page, in eight places.
pub(crate) fn name_of(play: &Play) -> &'static [u8]
    ensures { result.now ≡ name_text play.now }
{
    match play {
        Play::Add(_) => b"ADD     ",
        Play::Enter(_) => b"ENTER   ",
        Play::Invert(_) => b"INVERT  ",
        Play::Mix(_) => b"MIX     ",
        Play::Finish(_) => b"FINISH  ",
        Play::Copy(_) => b"COPY    ",
        Play::Affine(_) => b"AFFINE  ",
        Play::Sum(_) => b"SUM     ",
        Play::Leave(_) => b"LEAVE   ",
        Play::Unaffine(_) => b"UNAFFINE",
        Play::Unmix(_) => b"UNMIX   ",
        Play::Rcon1(_) => b"RCON_1  ",
        Play::Rcon2(_) => b"RCON_2  ",
        Play::Rcon3(_) => b"RCON_3  ",
        Play::Rcon4(_) => b"RCON_4  ",
        Play::Rcon5(_) => b"RCON_5  ",
        Play::Rcon6(_) => b"RCON_6  ",
        Play::Rcon7(_) => b"RCON_7  ",
        Play::Rcon8(_) => b"RCON_8  ",
        Play::Rcon9(_) => b"RCON_9  ",
        Play::Rcon10(_) => b"RCON_10 ",
    }
}

// What a page does, in one sentence. Apart from `name_of`: in one match for both, no arm would fit on a line.
pub(crate) fn purpose_of(play: &Play) -> &'static [u8] {
    match play {
        Play::Add(_) => b"Adds the byte in socket 1 to the byte in socket 0.",
        Play::Enter(_) =>
            b"Takes the byte in socket 0 over from plain bits to coordinates, in its place.",
        Play::Invert(_) =>
            b"Puts the inverse of the byte in socket 0 into socket 1; both in coordinates; 00 gives 00.",
        Play::Mix(_) =>
            b"The affine rule and then MixColumns, in coordinates: column in sockets 0-3, result in 4-7.",
        Play::Finish(_) =>
            b"Does the affine rule to socket 0, in coordinates, and puts the plain byte into socket 1.",
        Play::Copy(_) => b"Copies the byte in socket 0 to socket 1.",
        Play::Affine(_) =>
            b"Does the affine rule of SubBytes to the byte in socket 0, in coordinates, in its place.",
        Play::Sum(_) => b"Adds the bytes in sockets 0 and 1 into socket 2.",
        Play::Leave(_) =>
            b"Takes the byte in socket 0 back from coordinates to plain bits, in its place.",
        Play::Unaffine(_) =>
            b"Undoes the affine rule of SubBytes on the byte in socket 0, in coordinates, in its place.",
        Play::Unmix(_) =>
            b"InvMixColumns, in coordinates: the column in sockets 0-3, the result in sockets 4-7.",
        Play::Rcon1(_) => b"Adds round constant 1, 01, to the byte in socket 0, in coordinates.",
        Play::Rcon2(_) => b"Adds round constant 2, 02, to the byte in socket 0, in coordinates.",
        Play::Rcon3(_) => b"Adds round constant 3, 04, to the byte in socket 0, in coordinates.",
        Play::Rcon4(_) => b"Adds round constant 4, 08, to the byte in socket 0, in coordinates.",
        Play::Rcon5(_) => b"Adds round constant 5, 10, to the byte in socket 0, in coordinates.",
        Play::Rcon6(_) => b"Adds round constant 6, 20, to the byte in socket 0, in coordinates.",
        Play::Rcon7(_) => b"Adds round constant 7, 40, to the byte in socket 0, in coordinates.",
        Play::Rcon8(_) => b"Adds round constant 8, 80, to the byte in socket 0, in coordinates.",
        Play::Rcon9(_) => b"Adds round constant 9, 1b, to the byte in socket 0, in coordinates.",
        Play::Rcon10(_) => b"Adds round constant 10, 36, to the byte in socket 0, in coordinates.",
    }
}
