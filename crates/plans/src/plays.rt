// A play of a plan: its page, and its bases.
ghost use Rattle.std.specs.Prelude.{◌≡◌, ℕ};
ghost use Rattle.plans.specs.Pages.{own_inverter};
ghost use Rattle.plans.specs.Plays.{page_of, bases_of};

use crate::pages::{
    ADD, AFFINE, COPY, ENTER, FINISH, INVERT, LEAVE, MIX, RCON_1, RCON_2, RCON_3, RCON_4, RCON_5,
    RCON_6, RCON_7, RCON_8, RCON_9, RCON_10, SUM, UNAFFINE, UNMIX,
};

// A page and its bases: one for each socket and one for the scratch. The cases stay apart, those of the round constants
// too: each page has as many bases as its type says, and its own array of bytes.
#[derive(Clone, Copy)]
pub enum Play {
    Add([u16; 3]),
    Enter([u16; 2]),
    Invert([u16; 3]),
    Mix([u16; 9]),
    Finish([u16; 3]),
    Copy([u16; 3]),
    Affine([u16; 2]),
    Sum([u16; 4]),
    Leave([u16; 2]),
    Unaffine([u16; 2]),
    Unmix([u16; 9]),
    Rcon1([u16; 2]),
    Rcon2([u16; 2]),
    Rcon3([u16; 2]),
    Rcon4([u16; 2]),
    Rcon5([u16; 2]),
    Rcon6([u16; 2]),
    Rcon7([u16; 2]),
    Rcon8([u16; 2]),
    Rcon9([u16; 2]),
    Rcon10([u16; 2]),
}

impl Play {
    // The page that is played, where the inverter's is given.
    pub fn page<'a>(&self, inverter: &'a [u8]) -> &'a [u8]
        ensures { result.now ≡ page_of inverter.now self.now }
    {
        match self {
            Play::Add(_) => &ADD,
            Play::Enter(_) => &ENTER,
            Play::Invert(_) => inverter,
            Play::Mix(_) => &MIX,
            Play::Finish(_) => &FINISH,
            Play::Copy(_) => &COPY,
            Play::Affine(_) => &AFFINE,
            Play::Sum(_) => &SUM,
            Play::Leave(_) => &LEAVE,
            Play::Unaffine(_) => &UNAFFINE,
            Play::Unmix(_) => &UNMIX,
            Play::Rcon1(_) => &RCON_1,
            Play::Rcon2(_) => &RCON_2,
            Play::Rcon3(_) => &RCON_3,
            Play::Rcon4(_) => &RCON_4,
            Play::Rcon5(_) => &RCON_5,
            Play::Rcon6(_) => &RCON_6,
            Play::Rcon7(_) => &RCON_7,
            Play::Rcon8(_) => &RCON_8,
            Play::Rcon9(_) => &RCON_9,
            Play::Rcon10(_) => &RCON_10,
        }
    }

    pub fn bases(&self) -> &[u16]
        ensures { result.now ≡ bases_of self.now }
    {
        match self {
            Play::Enter(bases)
            | Play::Affine(bases)
            | Play::Leave(bases)
            | Play::Unaffine(bases)
            | Play::Rcon1(bases)
            | Play::Rcon2(bases)
            | Play::Rcon3(bases)
            | Play::Rcon4(bases)
            | Play::Rcon5(bases)
            | Play::Rcon6(bases)
            | Play::Rcon7(bases)
            | Play::Rcon8(bases)
            | Play::Rcon9(bases)
            | Play::Rcon10(bases) => bases,
            Play::Add(bases) | Play::Invert(bases) | Play::Finish(bases) | Play::Copy(bases) =>
                bases,
            Play::Sum(bases) => bases,
            Play::Mix(bases) | Play::Unmix(bases) => bases,
        }
    }
}

// The repository's own inverter.
pub fn own_inverter() -> &'static [u8]
    ensures { result.now ≡ own_inverter }
{
    &INVERT
}
