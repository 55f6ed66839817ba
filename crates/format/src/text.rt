// The text of a line.
ghost use Rattle.std.specs.Prelude.{◌+◌, ◌≤◌, ◌≡◌, [], ◌∷◌, ◌++◌, length};
ghost use Rattle.decimal.specs.Decimal.{decimal};
ghost use Rattle.format.specs.Line.{line_said};
ghost use Rattle.format.specs.Text.{spelled, text_of};

use crate::answer::Line;
use std::marker::Model;

// A text of 50 bytes at most: no heap is allowed here. Clauses see its bytes. It is spelled by
// hand, since no contract says when a `write!` succeeds, and `text_of` cannot fail.
#[derive(Drop)]
pub struct Text {
    bytes: [u8; 50],
    len: usize,
}

impl Model for Text {
    ghost use Rattle.std.specs.Prelude.{List, ℕ, ◌≤◌, take};

    ghost Value = { List ℕ };

    ghost view = { λ t. take t.len t.bytes };

    ghost invariant = { λ t. t.len ≤ 50 };
}

impl Text {
    fn new() -> Text
        ensures { result ≡ [] }
    {
        Text {
            bytes: [0; 50],
            len: 0,
        }
    }

    pub fn as_bytes(&self) -> &[u8]
        ensures { result.now ≡ self.now }
    {
        &self.bytes[..self.len]
    }

    // Some bytes more.
    fn push(&mut self, part: &[u8])
        requires { length self.old + length part.now ≤ 50 }
        ensures { self.new ≡ self.old ++ part.now }
    {
        let end = self.len + part.len();
        self.bytes[self.len..end].copy_from_slice(part);
        self.len = end;
    }

    // A space and a number more.
    fn push_number(&mut self, n: u64)
        requires { length self.old + 21 ≤ 50 }
        ensures bytes { self.new ≡ self.old ++ (32 ∷ decimal n) }
        ensures few { length self.new ≤ length self.old + 21 }
    {
        let mut digits = [0u8; 20];
        let k = io::decimal(n, &mut digits);
        self.push(b" ");
        self.push(&digits[..k]);
    }
}

// A word and two numbers, each after a space, and a line feed.
fn spell(word: &[u8], a: u64, b: u64) -> Text
    requires { length word.now ≤ 7 }
    ensures { result ≡ spelled word.now a b }
{
    let mut text = Text::new();
    text.push(word);
    text.push_number(a);
    text.push_number(b);
    text.push(b"\n");
    text
}

// The text of a line.
pub fn text_of(line: Line) -> Text
    ensures { result ≡ text_of (line_said line) }
{
    match line {
        Line::Running { taken, residuals } => spell(b"running", taken, residuals),
        Line::Failed { place, taken } => spell(b"failed", place, taken),
        Line::Refused { number, place } => spell(b"refused", number as u64, place),
    }
}
