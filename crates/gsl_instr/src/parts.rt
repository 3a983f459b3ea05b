//! The operands of an instruction one by one.

ghost use Rattle.std.specs.Prelude.{◌≡◌, ◌≤◌, [], ◌∷◌, length, take, drop, MatchOption};
ghost use Rattle.gsl_instr.specs.Forms as forms;
ghost use Rattle.gsl_instr.specs.Parts as spec;

use crate::form::Form;
use crate::operands::{rest, slots};
use crate::slot::{Rest, Slot};
use crate::words::{Operands, text_len};
use std::marker::Model;

/// An operand: what it is, and its words, of which only a text may have more than one.
#[derive(Drop)]
pub struct Part<'a> {
    pub slot: Slot,
    pub words: Operands<'a>,
}

/// The operands of an instruction that are still to come. Contracts see the list of them.
#[derive(Drop)]
pub struct Parts<'a> {
    slots: &'static [Slot],
    rest: Rest,
    second: bool,
    words: &'a [u32],
}

impl<'a> Model for Parts<'a> {
    ghost use Rattle.std.specs.Prelude.{List};
    ghost use Rattle.gsl_instr.specs.declared.parts.Part.{Part as OnePart};

    ghost Value = { List OnePart };

    ghost use Rattle.gsl_instr.specs.Parts.{parts_from};

    ghost view = { λ parts. parts_from parts.slots.now parts.rest parts.second parts.words.now };
}

impl<'a> Parts<'a> {
    ghost use Rattle.gsl_instr.specs.Parts as spec;

    /// The operands of an instruction of a form.
    #[tactic(auto, unfolding(crate::specs::Parts::parts_of))]
    pub fn new(form: Form, args: &'a [u32]) -> Parts<'a>
        ensures { result ≡ spec.parts_of form args.now }
    {
        Parts {
            slots: slots(form),
            rest: rest(form),
            second: false,
            words: args,
        }
    }

    /// The next operand, or `None` behind the last.
    pub fn next(&mut self) -> Option<Part<'a>>
        ensures { MatchOption result (self.old ≡ []) (λ part. self.old ≡ part ∷ self.new) }
    {
        match self.slots {
            [slot, slots @ ..] => {
                let (front, behind) = self.words.split_at(front_len(*slot, self.words));
                self.slots = slots;
                self.words = behind;
                Some(Part {
                    slot: *slot,
                    words: Operands::new(front),
                })
            }
            [] => {
                if self.words.is_empty() {
                    return None;
                }
                let (front, behind) = self.words.split_at(1);
                let slot = next_of(self.rest, self.second);
                self.second = !self.second;
                self.words = behind;
                Some(Part {
                    slot,
                    words: Operands::new(front),
                })
            }
        }
    }
}

/// How many words the first operand has.
fn front_len(slot: Slot, words: &[u32]) -> usize
    ensures front { spec.front_of slot words.now ≡ take result words.now }
    ensures behind { spec.behind slot words.now ≡ drop result words.now }
    ensures within { result ≤ length words.now }
{
    if is_text(slot) {
        return text_len(words);
    }
    if words.is_empty() { 0 } else { 1 }
}

/// Whether an operand is a text.
pub fn is_text(slot: Slot) -> bool
    ensures { result ≡ forms.is_text slot }
{
    match slot {
        Slot::Result => false,
        Slot::Id => false,
        Slot::Forward => false,
        Slot::Number => false,
        Slot::Named(_) => false,
        Slot::OfDecoration => false,
        Slot::Text => true,
    }
}

/// What the next operand is behind those that every instruction of a form has; of pairs, the first or the
/// second.
pub fn next_of(rest: Rest, second: bool) -> Slot
    ensures { result ≡ forms.next_of rest second }
{
    match rest {
        Rest::Nothing => Slot::Number,
        Rest::Maybe(slot) => slot,
        Rest::Many(slot, _, _) => slot,
        Rest::Any(slot, _) => slot,
        Rest::NoneOrThree => Slot::Number,
        Rest::Pairs => { if second { Slot::Forward } else { Slot::Number } }
    }
}
