//! Where the code stands in a function.

ghost use Rattle.std.specs.Prelude.{◌≡◌, drop};
ghost use Rattle.gsl_kinds.specs.Seen.{kind_seen};
ghost use Rattle.gsl_valid.specs.FunctionRules as rules;
ghost use Rattle.gsl_valid.specs.Types as types;
ghost use Rattle.gsl_valid.specs.Where as spec;
ghost use Rattle.gsl_valid_order.specs.Seen.{standing_seen};

use gsl_ids::Definitions;
use gsl_kinds::{Kind, Shape, shape_of};

/// Where the code stands in a function.
#[derive(Clone, Copy)]
pub(crate) enum Standing<'a> {
    /// Between functions, or before the first.
    Outside,
    /// Behind a Function, with parameters of these types still to come.
    Begun { parameters: &'a [u32] },
    /// In a function's first block, where nothing but variables has come.
    AtHead,
    InBlock,
    /// Behind a merge.
    AtMerge,
    /// Behind the last instruction of a block.
    Behind,
}

/// Where the code stands behind an instruction.
pub(crate) fn stands_after<'a>(
    definitions: &Definitions<'a>,
    standing: Standing<'a>,
    kind: Kind<'_>,
) -> Standing<'a>
    ensures { standing_seen result ≡ spec.stands_after definitions.now (standing_seen standing.entry) (kind_seen kind.entry) }
{
    match kind {
        Kind::Begins { function_type, .. } => Standing::Begun {
            parameters: parameters_of(definitions, function_type),
        },
        Kind::Takes { .. } => one_taken(standing),
        Kind::Calls { .. } | Kind::Gives { .. } | Kind::Does => Standing::InBlock,
        Kind::Opens => block_begun(standing),
        Kind::Merges => Standing::AtMerge,
        Kind::Leaves => Standing::Behind,
        Kind::Ended => Standing::Outside,
        _ => standing,
    }
}

/// The parameters of a function type.
fn parameters_of<'a>(definitions: &Definitions<'a>, id: u32) -> &'a [u32]
    ensures { result.now ≡ types.parameters_of (types.defined_as definitions.now id) }
{
    match shape_of(definitions, id) {
        Shape::Function { parameters, .. } => parameters,
        _ => &[],
    }
}

/// Where the code stands behind a parameter.
fn one_taken(standing: Standing<'_>) -> Standing<'_>
    ensures { standing_seen result ≡ spec.one_taken (standing_seen standing.entry) }
{
    match standing {
        Standing::Begun { parameters } => Standing::Begun {
            parameters: behind_first(parameters),
        },
        _ => standing,
    }
}

/// The types behind the first.
fn behind_first(types: &[u32]) -> &[u32]
    ensures { result.now ≡ drop 1 types.now }
{
    if types.is_empty() { types } else { &types[1..] }
}

/// Where the code stands behind the label of a block.
fn block_begun(standing: Standing<'_>) -> Standing<'_>
    ensures { standing_seen result ≡ spec.block_begun (standing_seen standing.entry) }
{
    match standing {
        Standing::Begun { .. } => Standing::AtHead,
        _ => Standing::InBlock,
    }
}

/// Whether the code stands in a block.
pub(crate) fn in_block(standing: Standing<'_>) -> bool
    ensures { result ≡ rules.in_block (standing_seen standing.entry) }
{
    matches!(
        standing,
        Standing::AtHead | Standing::InBlock | Standing::AtMerge
    )
}

/// Whether a block may begin: behind a Function of which no parameter is still to come, or behind a block.
pub(crate) fn may_begin(standing: Standing<'_>) -> bool
    ensures { result ≡ rules.may_begin (standing_seen standing.entry) }
{
    match standing {
        Standing::Begun { parameters } => none_due(parameters),
        Standing::Behind => true,
        _ => false,
    }
}

/// Whether no parameter is still to come.
fn none_due(parameters: &[u32]) -> bool
    ensures { result ≡ rules.none_due parameters.now }
{
    match parameters {
        [] => true,
        _ => false,
    }
}

/// Whether a parameter of a type may stand here.
pub(crate) fn may_take(type_: u32, standing: Standing<'_>) -> bool
    ensures { result ≡ rules.may_take type_ (standing_seen standing.entry) }
{
    match standing {
        Standing::Begun { parameters } => is_due(type_, parameters),
        _ => false,
    }
}

/// Whether the next parameter is of a type.
fn is_due(type_: u32, parameters: &[u32]) -> bool
    ensures { result ≡ rules.is_due type_ parameters.now }
{
    match parameters {
        [next, ..] => *next == type_,
        [] => false,
    }
}
