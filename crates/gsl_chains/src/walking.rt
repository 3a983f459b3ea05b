//! The calls of a function's body.

ghost use Rattle.std.specs.Prelude.{◌≡◌, ◌+◌, ◌^◌, ◌<◌, None, max, length, slice_index};
ghost use Rattle.gsl_chains.specs.Chains as spec;
ghost use Rattle.gsl_frames.specs.Frames as frames;
ghost use Rattle.gsl_kinds.specs.Seen.{kind_seen};
ghost use Rattle.gsl_leaves.specs.Table.{told};
ghost use Rattle.gsl_positions.specs.Positions.{left};
ghost use Rattle.gsl_valid.specs.CallRules as rule;
ghost use Rattle.gsl_valid.specs.IdsDefinedOnce.{ids_defined_once};
ghost use Rattle.gsl_valid.specs.Types as types;

use gsl_ids::Definitions;
use gsl_instr::op;
use gsl_kinds::{Kind, kind_at, kind_if};
use gsl_leaves::MOST;
use gsl_words::Module;

/// The sum of two counts.
#[tactic(auto, using(crate::proofs::Longer::sum_told))]
pub(crate) fn plus(a: u64, b: u64) -> u64
    ensures { result ≡ told (a + b) }
{
    a.saturating_add(b).min(MOST)
}

/// What a row says.
pub(crate) fn word_at(rows: &[u64], id: u32) -> u64
    ensures { result ≡ slice_index rows.now id }
{
    match rows.get(id as usize) {
        Some(words) => *words,
        None => 0,
    }
}

/// The number of the first instruction of the body of the function of an id, or one behind all where there is none.
pub(crate) fn body_at(definitions: &Definitions<'_>, id: u32) -> u32
    requires few { length definitions.now.instrs < 2 ^ 32 }
    requires once { ids_defined_once definitions.now ≡ None }
    ensures { left definitions.now result ≡ spec.body_of definitions.now id }
{
    if is_function(kind_if(definitions.get(id))) {
        definitions.number(id)
    } else {
        definitions.module().instrs.len() as u32
    }
}

/// Whether an instruction begins a function.
pub(crate) fn is_function(kind: Kind<'_>) -> bool
    ensures { result ≡ types.begins (kind_seen kind.entry) }
{
    matches!(kind, Kind::Begins { .. })
}

/// The greatest row of those functions that a body calls.
pub(crate) fn greatest_called(definitions: &Definitions<'_>, rows: &[u64], body: u32) -> u64
    requires { length definitions.now.instrs < 2 ^ 32 }
    ensures { result ≡ spec.greatest (slice_index rows.now) (spec.calls_of (left definitions.now body)) }
{
    let of = definitions.module();
    let count = of.instrs.len() as u32;
    let mut most = 0;
    let mut at = body;
    while at < count {
        let (next, to) = step(of, rows, at, most);
        most = next;
        at = to;
    }
    most
}

/// The greatest so far behind an instruction of a function, and where it goes on.
fn step(of: &Module, rows: &[u64], at: u32, most: u64) -> (u64, u32)
    requires few { length of.now.instrs < 2 ^ 32 }
    requires within { at < length of.now.instrs }
    ensures same { max most (spec.greatest (slice_index rows.now) (spec.calls_of (left of.now at))) ≡ max result.0 (spec.greatest (slice_index rows.now) (spec.calls_of (left of.now result.1))) }
    ensures goes { at < result.1 }
{
    let count = of.instrs.len() as u32;
    let op = of.instrs.op(at);
    let args = of.instrs.args(at);
    let next = with_call(kind_at(op, args), rows, most);
    let to = next_at(count, at, op);
    (next, to)
}

/// The greatest with an instruction more.
fn with_call(kind: Kind<'_>, rows: &[u64], most: u64) -> u64
    ensures { result ≡ spec.with_call (slice_index rows.now) (rule.callee_in (kind_seen kind.entry)) most }
{
    match kind {
        Kind::Calls { function, .. } => greater(most, word_at(rows, function)),
        _ => most,
    }
}

/// The greater of two counts.
fn greater(a: u64, b: u64) -> u64
    ensures { result ≡ max a b }
{
    if a < b { b } else { a }
}

/// Where a function goes on behind an instruction of an opcode.
fn next_at(count: u32, at: u32, op: u16) -> u32
    requires within { at < count }
    ensures { result ≡ frames.next_at count at op }
{
    if op == op::FUNCTION_END {
        count
    } else {
        at + 1
    }
}
