//! Qualifiers and types (GLSL 4.50, 4.1 and 4.3 to 4.10).

ghost use Rattle.std.specs.Prelude.{◌≡◌};
ghost use Rattle.gsl_expr.specs.Reading.{Reads};
ghost use Rattle.gsl_syntax.specs.Declarations as grammar;
ghost use Rattle.gsl_parse.specs.Qualifiers as spec;

use crate::list::{Item, Repeated, commas_of, row_of};
use gsl_base::{Key, Kind, Place, Punct};
use gsl_expr::{Cursor, Start, Stop, basic_head, dims, expr, head_type, next_start, with};
use gsl_syntax::{Lay, Name, Qual, Quals, TypeSpec};
use std::alloc::Global;

fn plain_qual(key: Key, place: Place) -> Option<Qual>
    ensures { result ≡ grammar.qual_of key place }
{
    match key {
        Key::Const => Some(Qual::Const(place)),
        Key::In => Some(Qual::In(place)),
        Key::Out => Some(Qual::Out(place)),
        Key::Inout => Some(Qual::Inout(place)),
        Key::Uniform => Some(Qual::Uniform(place)),
        Key::Buffer => Some(Qual::Buffer(place)),
        Key::Flat => Some(Qual::Flat(place)),
        Key::Coherent => Some(Qual::Coherent(place)),
        Key::Volatile => Some(Qual::Volatile(place)),
        Key::Restrict => Some(Qual::Restrict(place)),
        Key::Readonly => Some(Qual::Readonly(place)),
        Key::Writeonly => Some(Qual::Writeonly(place)),
        _ => None,
    }
}

fn plain_by(place: Place, kind: &Kind) -> Option<Qual>
    ensures { result ≡ spec.plain_by place kind.now }
{
    match kind {
        Kind::Key(key) => plain_qual(*key, place),
        _ => None,
    }
}

/// The qualifier that the next token is, other than one of a layout.
#[tactic(auto, unfolding(crate::specs::Qualifiers::plain_at))]
fn next_plain(tokens: &Cursor<'_>) -> Option<Qual>
    ensures { result ≡ spec.plain_at tokens.now.left }
{
    match tokens.next() {
        Some(token) => plain_by(token.place, &token.kind),
        None => None,
    }
}

/// Whether a qualifier begins here.
#[tactic(auto, unfolding(crate::specs::Qualifiers::begins_qual))]
pub(crate) fn begins_qual(tokens: &Cursor<'_>) -> bool
    ensures { result ≡ spec.begins_qual tokens.now.left }
{
    tokens.sees_key(Key::Layout) || next_plain(tokens).is_some()
}

fn lay_from(alloc: Global, name: Name, tokens: &mut Cursor<'_>, depth: usize) -> Result<Lay, Stop>
    ensures { Reads (spec.lay_from depth name tokens.old.left) result tokens.old tokens.new }
{
    if !tokens.sees(Punct::Equal) {
        return Ok(Lay::Flag(name));
    }
    let (_, name) = with(tokens.take_one(), name)?;
    let (value, name) = with(expr(alloc, tokens, depth, 2), name)?;
    Ok(Lay::Value(name, value))
}

impl Item for Lay {
    ghost reader = { spec.lay_item };

    #[tactic(auto, unfolding(crate::specs::Qualifiers::lay_item))]
    fn read(alloc: Global, tokens: &mut Cursor<'_>, depth: usize) -> Result<Lay, Stop> {
        let name = tokens.name()?;
        lay_from(alloc, name, tokens, depth)
    }
}

#[tactic(auto, using(crate::proofs::Shrinking::lay_shrinks))]
fn layout(alloc: Global, tokens: &mut Cursor<'_>, depth: usize) -> Result<Qual, Stop>
    ensures { Reads (spec.layout depth tokens.old.left) result tokens.old tokens.new }
{
    let place = tokens.take_one()?;
    tokens.expect(Punct::LeftParen)?;
    let items = commas_of::<Lay>(alloc, tokens, depth)?;
    let (_, items) = with(tokens.expect(Punct::RightParen), items)?;
    Ok(Qual::Layout(place, items))
}

impl Item for Qual {
    ghost reader = { spec.qualifier };

    #[tactic(auto, unfolding(crate::specs::Qualifiers::qualifier))]
    fn read(alloc: Global, tokens: &mut Cursor<'_>, depth: usize) -> Result<Qual, Stop> {
        if tokens.sees_key(Key::Layout) {
            return layout(alloc, tokens, depth);
        }
        match next_plain(tokens) {
            Some(qual) => {
                let (_, qual) = with(tokens.take_one(), qual)?;
                Ok(qual)
            }
            None => Err(Stop::Bad),
        }
    }
}

impl Repeated for Qual {
    ghost starts = { spec.begins_qual };

    fn begins(tokens: &Cursor<'_>) -> bool {
        begins_qual(tokens)
    }
}

/// Any number of qualifiers.
#[tactic(auto, using(crate::proofs::Shrinking::qual_takes))]
pub(crate) fn qualifiers(
    alloc: Global,
    tokens: &mut Cursor<'_>,
    depth: usize,
) -> Result<Quals, Stop>
    ensures { Reads (spec.qualifiers depth tokens.old.left) result tokens.old tokens.new }
{
    row_of::<Qual>(alloc, tokens, depth)
}

/// A type with its brackets.
#[tactic(auto, unfolding(crate::specs::Qualifiers::typed))]
pub(crate) fn typed(alloc: Global, tokens: &mut Cursor<'_>, depth: usize) -> Result<TypeSpec, Stop>
    ensures { Reads (spec.typed depth tokens.old.left) result tokens.old tokens.new }
{
    match next_start(tokens) {
        Start::Name => {
            let Name { place, text } = tokens.name()?;
            let (dims, text) = with(dims(alloc, tokens, depth), text)?;
            Ok(TypeSpec::Named(place, text, dims))
        }
        Start::Basic(basic) => Ok(head_type(basic_head(alloc, basic, tokens, depth)?)),
        _ => Err(Stop::Bad),
    }
}
