//! The unit that all of the tokens are.

ghost use Rattle.std.specs.Prelude.{◌≡◌, List};
ghost use Rattle.gsl_base.specs.Checked.{Gives};
ghost use Rattle.gsl_pp.specs.Feeding.{feeds};
ghost use Rattle.gsl_supply.specs.Supplying.{comes};
ghost use Rattle.gsl_syntax.specs.declared.statement.Global.{Global as Top};
ghost use Rattle.gsl_syntax.specs.Sentences.{IsUnit};
ghost use Rattle.gsl_parse.specs.Fed as fed;
ghost use Rattle.gsl_parse.specs.Judged as spec;
ghost use Rattle.gsl_parse.specs.Judged.{Judges, Parsed, Only};

use crate::unit::globals;
use gsl_base::{Code, Fault, Memory, Refusal, Token, Tokens};
use gsl_expr::{Cursor, Stop};
use gsl_pp::Feed;
use gsl_supply::Supply;
use gsl_syntax::Unit;
use std::alloc::Global;

/// The tree of a unit's tokens (GLSL 4.50, chapter 9), each node with the place of its head token.
/// `E0902` comes exactly where the tokens nest too deeply, at the first token that does, and else `E0301`
/// exactly where they are no unit, at the first token that no unit has there behind the tokens before it,
/// at the last one where they end too soon.
pub fn parse(alloc: Global, tokens: &Tokens) -> Result<Unit, Refusal>
    // The answer is what the reader on lists gives.
    ensures answer { Judges result (spec.unit_of tokens.now) }
    // A tree is one that the grammar derives from exactly these tokens, and a fault is due, at the first bad one.
    ensures derived { Parsed IsUnit tokens.now result }
    // A tree that the grammar derives is that one.
    ensures only { (tree : List Top) → IsUnit tree tokens.now → Only tree tokens.now result }
{
    listed(alloc, tokens.as_slice())
}

fn listed(alloc: Global, tokens: &[Token]) -> Result<Unit, Refusal>
    ensures { Judges result (spec.unit_of tokens.now) }
{
    let supply = Supply::of_list(alloc, tokens)?;
    unit(alloc, supply)
}

/// The tree of the tokens that a feed gives, which are drawn as they are needed: what `parse` answers of all that
/// `preprocess` gives, or the fault that is met in place of a token. Where a token is bad the rest is drawn too,
/// since a fault of the preprocessor goes first.
pub fn parse_feed(alloc: Global, feed: Feed) -> Result<Unit, Refusal>
    ensures { Gives result (fed.unit_fed (feeds feed)) }
{
    let supply = Supply::of_feed(alloc, feed)?;
    unit(alloc, supply)
}

#[tactic(auto, using(crate::proofs::Answered::unit_over, crate::proofs::Answered::unit_refused))]
fn unit(alloc: Global, supply: Supply<'_>) -> Result<Unit, Refusal>
    requires { supply.count ≡ 0 }
    ensures { Judges result (fed.answer (comes supply.entry)) }
{
    let mut tokens = Cursor::new(supply)?;
    match globals(alloc, &mut tokens, usize::MAX) {
        Ok(tree) => over(tree, tokens),
        Err(Stop::Bad) => Err(refuse(tokens)),
        Err(Stop::Memory) => Err(Refusal::Memory),
    }
}

/// What is answered where this tree was read.
fn over(tree: Unit, tokens: Cursor<'_>) -> Result<Unit, Refusal>
    ensures { fed.Over result tree tokens.entry }
{
    if is_over(&tokens) {
        return accept(tree, tokens);
    }
    drop(tree);
    Err(refuse(tokens))
}

fn is_over(tokens: &Cursor<'_>) -> bool
    ensures { fed.Ends result tokens.now.left }
{
    match tokens.next() {
        Some(_) => false,
        None => true,
    }
}

/// What is answered where all of the tokens were read.
fn accept(tree: Unit, tokens: Cursor<'_>) -> Result<Unit, Refusal>
    ensures { fed.Accepts result tree tokens.entry }
{
    match tokens.last_fault() {
        Ok(Some(fault)) => Err(Refusal::Source(fault)),
        Ok(None) => Ok(tree),
        Err(Memory) => Err(Refusal::Memory),
    }
}

/// What is answered where the next token is bad, or there is none too soon.
fn refuse(tokens: Cursor<'_>) -> Refusal
    ensures { fed.Refuses result tokens.entry }
{
    let place = tokens.place();
    match tokens.last_fault() {
        Ok(Some(fault)) => Refusal::Source(fault),
        Ok(None) => Refusal::Source(Fault {
            place,
            code: Code::E0301,
        }),
        Err(Memory) => Refusal::Memory,
    }
}
