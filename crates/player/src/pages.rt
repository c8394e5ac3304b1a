// A page: its sizes, and its two arrays as parts of the caller's bytes.
ghost use Rattle.std.specs.Prelude.{◌≡◌, ℕ, ◌+◌, ◌*◌, ◌<◌, ◌≤◌, [], ◌∷◌, true, false, length, Ok, Err, MatchOption, nat_le, nat_lt};
ghost use Rattle.std.specs.Int.{from_be_bytes};
ghost use Rattle.std.specs.Iterator.{at_most};
ghost use Rattle.std.specs.List.{list_all};
ghost use mir.Syntax.{w16};
ghost use Rattle.bench.specs.Faults.{fault};
ghost use Rattle.bench.specs.declared.faults.Question.TheVariants.{Whole};
ghost use Rattle.bench.specs.declared.faults.Part.TheVariants.{Reader};
ghost use Rattle.player.specs.Pages.{kind_at, sizes_fit, numbers_below, whole, ReadAs, gates_from};

use bench::faults::{Fault, Part, Question};
use bench::gates::Gate;
use bench::kinds::Kind;

// A page is whole where it is one at all: what that says of its parts stands beside them.
#[derive(Clone, Copy)]
pub struct Page<'a> {
    pub sockets: u16,
    pub scratch: u16,
    pub kinds: &'a [u8],
    pub places: &'a [u8],
    ghost fits: { sizes_fit (length kinds.now) sockets scratch ≡ true },
    ghost paired: { length places.now ≡ 6 * length kinds.now },
    ghost numbered: { numbers_below places.now (8 * sockets + scratch) ≡ true },
}

// The gates of a page that are still to come.
#[derive(Clone, Copy)]
pub struct Gates<'a> {
    kinds: &'a [u8],
    places: &'a [u8],
    ghost paired: { length places.now ≡ 6 * length kinds.now },
}

impl<'a> Iterator for Gates<'a> {
    type Item = Gate;

    ghost next_gives = { λ s gate t. MatchOption gate (gates_from s.kinds.now s.places.now ≡ []) (λ g. gates_from s.kinds.now s.places.now ≡ g ∷ gates_from t.kinds.now t.places.now) };

    ghost remaining = { λ s. at_most (length s.kinds.now) };

    fn next(&mut self) -> Option<Gate> {
        let [kind, kinds @ ..] = self.kinds else {
            return None;
        };
        let [t1, t0, a1, a0, b1, b0, places @ ..] = self.places else {
            return None;
        };
        self.kinds = kinds;
        self.places = places;
        Some(Gate {
            kind: kind_at(*kind),
            target: u16::from_be_bytes([*t1, *t0]),
            first: u16::from_be_bytes([*a1, *a0]),
            second: u16::from_be_bytes([*b1, *b0]),
        })
    }
}

// The kind of a number; a page that is whole has none above 5.
fn kind_at(byte: u8) -> Kind
    ensures { result ≡ kind_at byte }
{
    Kind::try_from(byte).unwrap_or(Kind::Nor)
}

fn sizes_fit(gates: u16, sockets: u16, scratch: u16) -> bool
    ensures { result ≡ sizes_fit gates sockets scratch }
{
    gates <= 2000 && 1 <= sockets && sockets <= 16 && scratch <= 512
}

fn kinds_named(kinds: &[u8]) -> bool
    ensures { result ≡ list_all (λ k. nat_le k 5) kinds.now }
{
    kinds.iter().all(|kind| *kind <= 5)
}

// Whether the numbers, high byte first, are all below the bound.
fn all_below(numbers: &[[u8; 2]], bound: u16) -> bool
    ensures { result ≡ list_all (λ n. nat_lt (from_be_bytes w16 n) bound) numbers.now }
{
    numbers.iter().all(|n| u16::from_be_bytes(*n) < bound)
}

fn numbers_below(places: &[u8], bound: u16) -> bool
    ensures { result ≡ numbers_below places.now bound }
{
    let (numbers, _) = places.as_chunks::<2>();
    all_below(numbers, bound)
}

fn not_whole() -> Fault
    ensures { result ≡ fault Whole Reader 0 }
{
    Fault::new(Question::Whole, Part::Reader, 0)
}

impl<'a> Page<'a> {
    pub fn read(bytes: &'a [u8]) -> Result<Page<'a>, Fault>
        ensures { elim result [ Ok p ↦ (whole bytes.now ≡ true) × ReadAs bytes.now p.sockets p.scratch p.kinds.now p.places.now | Err f ↦ (whole bytes.now ≡ false) × (f ≡ fault Whole Reader 0) ] }
    {
        let [g1, g0, q1, q0, c1, c0, rest @ ..] = bytes else {
            return Err(not_whole());
        };
        let gates = u16::from_be_bytes([*g1, *g0]);
        let sockets = u16::from_be_bytes([*q1, *q0]);
        let scratch = u16::from_be_bytes([*c1, *c0]);
        if !sizes_fit(gates, sockets, scratch) {
            return Err(not_whole());
        }
        if rest.len() != 7 * gates as usize {
            return Err(not_whole());
        }
        let (kinds, places) = rest.split_at(gates as usize);
        if !kinds_named(kinds) {
            return Err(not_whole());
        }
        if !numbers_below(places, 8 * sockets + scratch) {
            return Err(not_whole());
        }
        Ok(Page {
            sockets,
            scratch,
            kinds,
            places,
        })
    }

    // The gates in order.
    pub fn gates(&self) -> Gates<'a>
        ensures { gates_from result.kinds.now result.places.now ≡ gates_from self.now.kinds.now self.now.places.now }
    {
        Gates {
            kinds: self.kinds,
            places: self.places,
        }
    }
}
