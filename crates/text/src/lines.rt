// The lines of a text in order, each with its number.
ghost use Rattle.std.specs.Prelude.{◌≡◌, ◌+◌, [], ◌∷◌, length, MatchOption};
ghost use Rattle.std.specs.Iterator.{at_most};
ghost use Rattle.text.specs.Text.{lines_in};
ghost use Rattle.text.specs.Ahead.{from_first};

use crate::reads::split_line;
use std::marker::Model;

// A line, without the byte that ends it, and its number, counted from 1.
#[derive(Clone, Copy)]
pub struct Line<'a> {
    pub number: u64,
    pub text: &'a [u8],
}

// The lines of a text after the `passed` first ones, seen as the number of the next line and the lines from it on.
#[derive(Drop)]
pub struct Lines<'a> {
    passed: u64,
    rest: &'a [u8],
}

impl<'a> Model for Lines<'a> {
    ghost use Rattle.std.specs.Prelude.{◌+◌, ◌^◌, ◌<◌, length};
    ghost use Rattle.text.specs.Text.{lines_in};
    ghost use Rattle.text.specs.Ahead.{Ahead};

    ghost Value = { Ahead };

    ghost view = { λ s. record { next = s.passed + 1; lines = lines_in s.rest.now } };

    ghost invariant = { λ s. s.passed + length s.rest.now < 2 ^ 64 };
}

impl<'a> Lines<'a> {
    // All the lines of the text.
    pub fn of(text: &'a [u8]) -> Lines<'a>
        ensures { result ≡ from_first text.now }
    {
        Lines {
            passed: 0,
            rest: text,
        }
    }
}

impl<'a> Iterator for Lines<'a> {
    type Item = Line<'a>;

    ghost next_gives = { λ s r t. MatchOption r ((s.lines ≡ []) × (t.lines ≡ [])) (λ l. (s.lines ≡ l.text.now ∷ t.lines) × (l.number ≡ s.next) × (t.next ≡ s.next + 1)) };

    ghost remaining = { λ s. at_most (length s.lines) };

    fn next(&mut self) -> Option<Line<'a>> {
        if self.rest.is_empty() {
            return None;
        }
        let (text, rest) = split_line(self.rest);
        self.rest = rest;
        self.passed += 1;
        let number = self.passed;
        Some(Line { number, text })
    }
}
