//! The operands of a line in the order in which a module has them.

ghost use Rattle.std.specs.Prelude.{◌≡◌, [], ◌∷◌, MatchOption};
ghost use Rattle.gsl_asm.specs.Ordered.{inserted};

use crate::chars::Chars;
use crate::line::Line;
use crate::place::Place;
use crate::word::Word;
use std::marker::Model;

/// The operands of a line that are still to come, the result among them. Contracts see the list of them.
#[derive(Drop)]
pub struct Source<'a> {
    place: Place,
    id: Chars<'a>,
    line: Line<'a>,
}

impl<'a> Model for Source<'a> {
    ghost use Rattle.std.specs.Prelude.{List};
    ghost use Rattle.gsl_asm.specs.declared.word.Word.{Word as OneWord};

    ghost Value = { List OneWord };

    ghost use Rattle.gsl_asm.specs.Ordered.{inserted};

    ghost view = { λ source. inserted source.place source.id source.line };
}

impl<'a> Source<'a> {
    /// The operands of a line, with a result that stands in a place among them.
    pub fn new(place: Place, id: Chars<'a>, line: Line<'a>) -> Source<'a>
        ensures { result ≡ inserted place id.entry line.entry }
    {
        Source { place, id, line }
    }

    /// Takes the next operand.
    pub fn next(&mut self) -> Option<Word<'a>>
        ensures { MatchOption result (self.old ≡ []) (λ word. self.old ≡ word ∷ self.new) }
    {
        match self.place {
            Place::Nowhere => self.line.next(),
            Place::First => {
                self.place = Place::Nowhere;
                Some(Word::Plain(Chars::new(self.id.as_slice())))
            }
            Place::Second => {
                self.place = Place::First;
                self.line.next()
            }
        }
    }
}
