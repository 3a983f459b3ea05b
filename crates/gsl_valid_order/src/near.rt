//! Where ids are used.

ghost use Rattle.std.specs.Prelude.{◌≡◌, ◌+◌, ◌^◌, ◌<◌, None, cond, length};
ghost use Rattle.gsl_kinds.specs.Seen.{kind_seen};
ghost use Rattle.gsl_valid.specs.IdsDefinedOnce.{ids_defined_once};
ghost use Rattle.gsl_valid.specs.LocalityRules as spec;
ghost use Rattle.gsl_valid.specs.Placed.{count_of_words};
ghost use Rattle.gsl_valid.specs.Where as places;
ghost use Rattle.gsl_valid_order.specs.Nearby as nearby;
ghost use Rattle.gsl_words.specs.Instructions.{HasFile};

use gsl_ids::{Definitions, Test, UseTest, all_used, first_failed};
use gsl_instr::enumerant::storage_class;
use gsl_kinds::{Kind, inside_after, kind_at, kind_if};

/// The place of the first instruction that uses an id outside the block or the function that defines it, which breaks V13.
pub fn locality(definitions: &Definitions<'_>) -> Option<u32>
    requires length { length definitions.now.instrs < 2 ^ 32 }
    requires words { count_of_words definitions.now < 2 ^ 32 }
    requires file { HasFile definitions.now }
    requires once { ids_defined_once definitions.now ≡ None }
    ensures { result ≡ spec.locality definitions.now }
{
    let mut test = NearTest {
        definitions,
        inside: false,
        body: 0,
        block: 0,
    };
    first_failed(&mut test, definitions.module())
}

/// The test of V13, which knows whether it stands in a function, and with which instructions the function and the block began.
#[derive(Drop)]
pub(crate) struct NearTest<'a> {
    definitions: &'a Definitions<'a>,
    inside: bool,
    body: u64,
    block: u64,
}

impl<'a> Test for NearTest<'a> {
    ghost use Rattle.std.specs.Prelude.{◌+◌, if◌then◌else◌};
    ghost use Rattle.gsl_valid.specs.Instruction.{read};
    ghost use Rattle.gsl_valid.specs.Where.{in_function_after, bounds_block as is_block_bound, bounds_function as is_function_bound};
    ghost use Rattle.gsl_ids.specs.Uses.{all_used as uses_all};
    ghost use Rattle.gsl_valid_order.specs.Nearby.{near_by};

    ghost passes = { λ s at i. uses_all (near_by s.definitions.now s.inside s.body s.block at) (near_by s.definitions.now s.inside s.body s.block at) i };

    ghost behind = { λ s at i. record { definitions = s.definitions; inside = in_function_after s.inside (read i); body = if is_function_bound (read i) then at + 1 else s.body; block = if is_block_bound (read i) then at + 1 else s.block } };

    fn test(&mut self, at: u32, op: u16, args: &[u32]) -> bool {
        let here = Here {
            definitions: self.definitions,
            inside: self.inside,
            body: self.body,
            block: self.block,
            at,
        };
        let passed = all_used(&here, op, args);
        let kind = kind_at(op, args);
        self.inside = inside_after(self.inside, kind);
        self.body = first_behind(self.body, bounds_function(kind), at);
        self.block = first_behind(self.block, bounds_block(kind), at);
        passed
    }
}

/// The first instruction of a function or a block behind the one of a number, which bounds it or not.
fn first_behind(first: u64, bounds: bool, at: u32) -> u64
    ensures { result ≡ cond bounds (at + 1) first }
{
    if bounds { u64::from(at) + 1 } else { first }
}

/// Whether a function begins or ends with an instruction.
fn bounds_function(kind: Kind<'_>) -> bool
    ensures { result ≡ places.bounds_one (kind_seen kind.entry) }
{
    matches!(kind, Kind::Begins { .. } | Kind::Ended)
}

/// Whether a block begins or ends with an instruction.
fn bounds_block(kind: Kind<'_>) -> bool
    ensures { result ≡ places.bounds (kind_seen kind.entry) }
{
    matches!(
        kind,
        Kind::Begins { .. } | Kind::Opens | Kind::Leaves | Kind::Ended
    )
}

/// Where an instruction of a number stands.
#[derive(Drop)]
struct Here<'a> {
    definitions: &'a Definitions<'a>,
    inside: bool,
    body: u64,
    block: u64,
    at: u32,
}

impl<'a> UseTest for Here<'a> {
    ghost use Rattle.gsl_valid_order.specs.Nearby.{near_by};

    ghost needed = { λ here id. near_by here.definitions.now here.inside here.body here.block here.at id };

    ghost mentioned = { λ here id. near_by here.definitions.now here.inside here.body here.block here.at id };

    fn may_need(&self, id: u32) -> bool {
        self.is_near(id)
    }

    fn may_mention(&self, id: u32) -> bool {
        self.is_near(id)
    }
}

impl<'a> Here<'a> {
    ghost use Rattle.gsl_valid_order.specs.Nearby as nearby;

    /// Whether an id may be used here.
    fn is_near(&self, id: u32) -> bool
        ensures { result ≡ nearby.near_by self.now.definitions.now self.now.inside self.now.body self.now.block self.now.at id }
    {
        let kind = kind_if(self.definitions.get(id));
        if gives_value(kind) {
            self.definitions.is_defined_from(self.block, self.at, id)
        } else {
            !is_local(kind)
                || !self.inside
                || self.definitions.is_defined_from(self.body, self.at, id)
        }
    }
}

/// Whether an instruction is one that defines an id for its block only.
fn gives_value(kind: Kind<'_>) -> bool
    ensures { result ≡ spec.gives_value (kind_seen kind.entry) }
{
    matches!(kind, Kind::Calls { .. } | Kind::Gives { .. })
}

/// Whether an instruction is one that defines an id for its function only.
fn is_local(kind: Kind<'_>) -> bool
    ensures { result ≡ spec.is_local (kind_seen kind.entry) }
{
    match kind {
        Kind::Holds(variable) => variable.class == storage_class::FUNCTION,
        Kind::Takes { .. } => true,
        _ => false,
    }
}
