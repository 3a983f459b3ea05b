//! The order of the sections.

ghost use Rattle.std.specs.Prelude.{◌≡◌, ◌^◌, ◌<◌, ◌&&◌, nat_le, length};
ghost use Rattle.gsl_valid.specs.Search.{first_broken, unless, ◌otherwise◌};
ghost use Rattle.gsl_valid.specs.Placed as placed;
ghost use Rattle.gsl_valid.specs.Sections as spec;
ghost use Rattle.gsl_words.specs.Instructions.{HasFile};

use crate::numbers::has_numbers_at;
use gsl_ids::{Test, count_of_words, first_failed};
use gsl_kinds::{inside_after, kind_at, section, section_in};
use gsl_words::Module;

/// The place of the bound in the header.
const BOUND_PLACE: u32 = 3;

/// The most that a bound can be.
const MOST_BOUND: u32 = 4_194_303;

/// The place in the header, of the first instruction or at the end that breaks V1: the bound is 1 to 4,194,303, the sections
/// stand in order (SPIR-V 1.0, 2.4), and operands that are numbers are such as they may be.
pub fn sections(of: &Module) -> Option<u32>
    requires length { length of.now.instrs < 2 ^ 32 }
    requires words { placed.count_of_words of.now < 2 ^ 32 }
    requires file { HasFile of.now }
    ensures { result ≡ spec.sections of.now }
{
    if has_bound(of.bound) {
        in_order(of)
    } else {
        Some(BOUND_PLACE)
    }
}

/// Whether a bound is one that it may be.
fn has_bound(bound: u32) -> bool
    ensures { result ≡ (nat_le 1 bound && nat_le bound spec.most_bound) }
{
    1 <= bound && bound <= MOST_BOUND
}

/// The place of the first instruction, or at the end, that breaks the order of sections.
fn in_order(of: &Module) -> Option<u32>
    requires length { length of.now.instrs < 2 ^ 32 }
    requires words { placed.count_of_words of.now < 2 ^ 32 }
    requires file { HasFile of.now }
    ensures { result ≡ (first_broken (spec.in_section of.now) of.now otherwise unless (spec.is_complete of.now) (placed.count_of_words of.now)) }
{
    let mut at = At {
        of,
        section: 0,
        inside: false,
    };
    if let Some(place) = first_failed(&mut at, of) {
        return Some(place);
    }
    if section::ENTRY_POINTS <= at.section {
        None
    } else {
        Some(count_of_words(of))
    }
}

/// Where a pass stands: the section of the instruction before, 0 where there is none, and whether it is in a function.
#[derive(Drop)]
pub(crate) struct At<'a> {
    of: &'a Module,
    section: u32,
    inside: bool,
}

impl<'a> Test for At<'a> {
    ghost use Rattle.std.specs.Prelude.{◌&&◌};
    ghost use Rattle.gsl_valid.specs.Instruction.{read, is_such};
    ghost use Rattle.gsl_valid.specs.Where.{section_of, in_function_after};
    ghost use Rattle.gsl_valid.specs.Sections.{may_come, has_numbers};

    ghost passes = { λ s at i. may_come s.section (section_of s.inside (read i)) && is_such (has_numbers s.of.now) (read i) };

    ghost behind = { λ s at i. record { of = s.of; section = section_of s.inside (read i); inside = in_function_after s.inside (read i) } };

    fn test(&mut self, _at: u32, op: u16, args: &[u32]) -> bool {
        let kind = kind_at(op, args);
        let section = section_in(self.inside, kind);
        if !may_come(self.section, section) {
            return false;
        }
        self.section = section;
        self.inside = inside_after(self.inside, kind);
        has_numbers_at(self.of, op, args)
    }
}

/// Whether an instruction of a section may come where one is reached.
fn may_come(reached: u32, section: u32) -> bool
    ensures { result ≡ spec.may_come reached section }
{
    if section::ENTRY_POINTS <= reached {
        section::MODES <= section && reached <= section
    } else {
        section == reached + 1
            || section == section::MEMORY_MODELS && reached == section::CAPABILITIES
    }
}
