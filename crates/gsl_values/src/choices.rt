ghost use Rattle.std.specs.Prelude.{◌≡◌, ◌<◌, ◌^◌, length};
ghost use Rattle.gsl_values.specs.Choices.{drawn, undrawn};

use gsl_base::Choices32;
use std::marker::Model;

/// Words that are drawn, one after the other, where the language leaves a result open. Contracts see
/// the words that are left.
#[derive(Debug, Drop)]
pub struct Choices {
    list: Choices32,
    /// How many of the list were drawn.
    drawn: usize,
}

impl Model for Choices {
    ghost use Rattle.std.specs.Prelude.{ℕ, List, ◌<◌, ◌≤◌, ◌^◌, drop, length};

    ghost Value = { List ℕ };

    ghost view = { λ c. drop c.drawn c.list };

    ghost invariant = { λ c. (c.drawn ≤ length c.list) × (length c.list < 2 ^ 32) };
}

impl Choices {
    /// Choices from a list of fewer than 2^32 words.
    pub fn new(list: Choices32) -> Choices
        requires { length list < 2 ^ 32 }
        ensures { result ≡ list }
    {
        Choices { list, drawn: 0 }
    }

    /// Draws the first word that is left, or 0 where none is.
    pub fn next(&mut self) -> u32
        ensures word { result ≡ drawn self.old }
        ensures left { self.new ≡ undrawn self.old }
    {
        if self.drawn < self.list.len() {
            let word = self.list[self.drawn];
            self.drawn += 1;
            word
        } else {
            0
        }
    }

    /// How many words are left.
    pub fn left(&self) -> u32
        ensures { result ≡ length self.now }
    {
        (self.list.len() - self.drawn) as u32
    }
}
