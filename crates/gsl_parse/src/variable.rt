//! Declared names, initialisers, structs and variables (GLSL 4.50, 4.1.8, 4.1.11 and 4.3).

ghost use Rattle.std.specs.Prelude.{◌≡◌, [], length};
ghost use Rattle.gsl_expr.specs.Reading.{Reads};
ghost use Rattle.gsl_expr.specs.declared.rule.Start.TheVariants as start;
ghost use Rattle.gsl_parse.specs.Variables as spec;

use crate::list::{Item, Repeated, commas_of, some_of};
use crate::qualifier::{begins_qual, qualifiers, typed};
use gsl_base::{Key, List, Punct};
use gsl_expr::{
    Cursor, Head, Start, Stop, applied, basic_head, completed, dims, expr, head_type, may_be_open,
    named_head, next_start, with,
};
use gsl_syntax::{
    Basic, Decl, Declarator, Declared, Dims, ForInit, Init, Member, Name, Quals, Struct,
    StructMember, TypeSpec,
};
use std::alloc::Global;

impl Item for Declared {
    ghost reader = { spec.declared };

    #[tactic(auto, unfolding(crate::specs::Variables::declared))]
    fn read(alloc: Global, tokens: &mut Cursor<'_>, depth: usize) -> Result<Declared, Stop> {
        let name = tokens.name()?;
        let (dims, name) = with(dims(alloc, tokens, depth), name)?;
        Ok(Declared { name, dims })
    }
}

/// Members of one type in a struct.
impl Item for StructMember {
    ghost reader = { spec.struct_member };

    #[tactic(auto, unfolding(crate::specs::Variables::struct_member), using(crate::proofs::Shrinking::declared_shrinks))]
    fn read(alloc: Global, tokens: &mut Cursor<'_>, depth: usize) -> Result<StructMember, Stop> {
        let ty = typed(alloc, tokens, depth)?;
        let (names, ty) = with(commas_of::<Declared>(alloc, tokens, depth), ty)?;
        let (_, (names, ty)) = with(tokens.expect(Punct::Semicolon), (names, ty))?;
        Ok(StructMember { ty, names })
    }
}

impl Repeated for StructMember {
    ghost starts = { spec.open_brace };

    fn begins(tokens: &Cursor<'_>) -> bool {
        open_brace(tokens)
    }
}

/// Members of one type in a block.
impl Item for Member {
    ghost reader = { spec.member };

    #[tactic(auto, unfolding(crate::specs::Variables::member), using(crate::proofs::Shrinking::declared_shrinks))]
    fn read(alloc: Global, tokens: &mut Cursor<'_>, depth: usize) -> Result<Member, Stop> {
        let quals = qualifiers(alloc, tokens, depth)?;
        let (ty, quals) = with(typed(alloc, tokens, depth), quals)?;
        let (names, (ty, quals)) = with(commas_of::<Declared>(alloc, tokens, depth), (ty, quals))?;
        let (_, (names, (ty, quals))) = with(
            tokens.expect(Punct::Semicolon),
            (names, (ty, quals)),
        )?;
        Ok(Member { quals, ty, names })
    }
}

impl Repeated for Member {
    ghost starts = { spec.open_brace };

    fn begins(tokens: &Cursor<'_>) -> bool {
        open_brace(tokens)
    }
}

impl Item for Declarator {
    ghost reader = { spec.declarator_at };

    #[tactic(auto, unfolding(crate::specs::Variables::declarator_at))]
    fn read(alloc: Global, tokens: &mut Cursor<'_>, depth: usize) -> Result<Declarator, Stop> {
        let name = tokens.name()?;
        declarator_from(alloc, name, tokens, depth)
    }
}

/// Whether something stands before the brace that closes.
#[tactic(auto, unfolding(crate::specs::Variables::open_brace))]
fn open_brace(tokens: &Cursor<'_>) -> bool
    ensures { result ≡ spec.open_brace tokens.now.left }
{
    match tokens.next() {
        Some(_) => !tokens.sees(Punct::RightBrace),
        None => false,
    }
}

/// Initialisers, with the brace that closes them.
#[cycle(initialiser)]
fn initialisers(
    alloc: Global,
    tokens: &mut Cursor<'_>,
    depth: usize,
    nested: usize,
) -> Result<List<Init>, Stop>
    ensures { Reads (spec.initialisers (spec.initialiser depth nested) (length tokens.old.left) [] tokens.old.left) result tokens.old tokens.new }
{
    let mut found = List::new(alloc);
    for _turn in 0..usize::MAX {
        let item = initialiser(alloc, tokens, depth, nested)?;
        found.push(item)?;
        if !tokens.sees(Punct::Comma) {
            tokens.expect(Punct::RightBrace)?;
            return Ok(found);
        }
        tokens.take_one()?;
        if tokens.sees(Punct::RightBrace) {
            tokens.take_one()?;
            return Ok(found);
        }
    }
    Err(Stop::Memory)
}

/// An initialiser, with braces that nest no deeper than `nested`.
#[cycle(initialiser)]
#[tactic(auto, unfolding(crate::specs::Variables::initialiser))]
fn initialiser(
    alloc: Global,
    tokens: &mut Cursor<'_>,
    depth: usize,
    nested: usize,
) -> Result<Init, Stop>
    ensures { Reads (spec.initialiser depth nested tokens.old.left) result tokens.old tokens.new }
{
    if nested == 0 {
        return Err(Stop::Bad);
    }
    if !tokens.sees(Punct::LeftBrace) {
        return Ok(Init::Expr(expr(alloc, tokens, depth, 1)?));
    }
    let place = tokens.take_one()?;
    let found = initialisers(alloc, tokens, depth, nested - 1)?;
    Ok(Init::Braces(place, found))
}

fn initialised(
    alloc: Global,
    name: Name,
    dims: Dims,
    tokens: &mut Cursor<'_>,
    depth: usize,
) -> Result<Declarator, Stop>
    ensures { Reads (spec.initialised depth name dims tokens.old.left) result tokens.old tokens.new }
{
    if !tokens.sees(Punct::Equal) {
        return Ok(Declarator::Plain(name, dims));
    }
    let (_, (name, dims)) = with(tokens.take_one(), (name, dims))?;
    let (init, (name, dims)) = with(initialiser(alloc, tokens, depth, depth), (name, dims))?;
    Ok(Declarator::Initialised(name, dims, init))
}

/// A declarator, behind its name.
#[tactic(auto, unfolding(crate::specs::Variables::declarator_from))]
pub(crate) fn declarator_from(
    alloc: Global,
    name: Name,
    tokens: &mut Cursor<'_>,
    depth: usize,
) -> Result<Declarator, Stop>
    ensures { Reads (spec.declarator_from depth name tokens.old.left) result tokens.old tokens.new }
{
    let (dims, name) = with(dims(alloc, tokens, depth), name)?;
    initialised(alloc, name, dims, tokens, depth)
}

/// A struct, with its word.
#[tactic(auto, unfolding(crate::specs::Variables::structure), using(crate::proofs::Shrinking::struct_member_takes))]
fn structure(alloc: Global, tokens: &mut Cursor<'_>, depth: usize) -> Result<Struct, Stop>
    ensures { Reads (spec.structure depth tokens.old.left) result tokens.old tokens.new }
{
    let place = tokens.take_one()?;
    let name = tokens.name()?;
    let (_, name) = with(tokens.expect(Punct::LeftBrace), name)?;
    let (members, name) = with(some_of::<StructMember>(alloc, tokens, depth), name)?;
    let (_, (members, name)) = with(tokens.expect(Punct::RightBrace), (members, name))?;
    Ok(Struct {
        place,
        name,
        members,
    })
}

/// None up to a semicolon, or one or more.
#[tactic(auto, unfolding(crate::specs::Variables::declarators), using(crate::proofs::Shrinking::declarator_shrinks))]
fn declarators(
    alloc: Global,
    tokens: &mut Cursor<'_>,
    depth: usize,
) -> Result<List<Declarator>, Stop>
    ensures { Reads (spec.declarators depth tokens.old.left) result tokens.old tokens.new }
{
    if tokens.sees(Punct::Semicolon) {
        return Ok(List::new(alloc));
    }
    commas_of::<Declarator>(alloc, tokens, depth)
}

/// Variables, behind their type.
#[tactic(auto, unfolding(crate::specs::Variables::variables_of), using(crate::proofs::Shrinking::declarator_shrinks))]
fn variables_of(
    alloc: Global,
    quals: Quals,
    ty: TypeSpec,
    tokens: &mut Cursor<'_>,
    depth: usize,
) -> Result<Decl, Stop>
    ensures { Reads (spec.variables_of depth quals ty tokens.old.left) result tokens.old tokens.new }
{
    let (found, (quals, ty)) = with(commas_of::<Declarator>(alloc, tokens, depth), (quals, ty))?;
    let (_, (found, (quals, ty))) = with(tokens.expect(Punct::Semicolon), (found, (quals, ty)))?;
    Ok(Decl::Variables(quals, ty, found))
}

/// Variables, behind their qualifiers.
#[tactic(auto, unfolding(crate::specs::Variables::variables))]
fn variables(
    alloc: Global,
    quals: Quals,
    tokens: &mut Cursor<'_>,
    depth: usize,
) -> Result<Decl, Stop>
    ensures { Reads (spec.variables depth quals tokens.old.left) result tokens.old tokens.new }
{
    let (ty, quals) = with(typed(alloc, tokens, depth), quals)?;
    variables_of(alloc, quals, ty, tokens, depth)
}

/// A struct and its variables, behind its qualifiers.
#[tactic(auto, unfolding(crate::specs::Variables::struct_variables))]
pub(crate) fn struct_variables(
    alloc: Global,
    quals: Quals,
    tokens: &mut Cursor<'_>,
    depth: usize,
) -> Result<Decl, Stop>
    ensures { Reads (spec.struct_variables depth quals tokens.old.left) result tokens.old tokens.new }
{
    let (structure, quals) = with(structure(alloc, tokens, depth), quals)?;
    let (found, (quals, structure)) = with(declarators(alloc, tokens, depth), (quals, structure))?;
    let (_, (found, (quals, structure))) = with(
        tokens.expect(Punct::Semicolon),
        (found, (quals, structure)),
    )?;
    Ok(Decl::Struct(quals, structure, found))
}

/// A declaration among statements, behind its qualifiers.
#[tactic(auto, unfolding(crate::specs::Variables::local_from))]
pub(crate) fn local_from(
    alloc: Global,
    quals: Quals,
    tokens: &mut Cursor<'_>,
    depth: usize,
) -> Result<Decl, Stop>
    ensures { Reads (spec.local_from depth quals tokens.old.left) result tokens.old tokens.new }
{
    if tokens.sees_key(Key::Struct) {
        return struct_variables(alloc, quals, tokens, depth);
    }
    variables(alloc, quals, tokens, depth)
}

/// An expression with its semicolon, behind the head that it begins with.
fn expr_from(
    alloc: Global,
    head: Head,
    tokens: &mut Cursor<'_>,
    depth: usize,
) -> Result<ForInit, Stop>
    ensures { Reads (spec.expr_from depth head tokens.old.left) result tokens.old tokens.new }
{
    let first = applied(alloc, head, tokens, depth)?;
    let tree = completed(alloc, 0, first, tokens, depth)?;
    let (_, tree) = with(tokens.expect(Punct::Semicolon), tree)?;
    Ok(ForInit::Expr(tree))
}

/// Behind a head: variables where a name stands next, else an expression.
#[tactic(auto, unfolding(crate::specs::Variables::phrase_from))]
fn phrase_from(
    alloc: Global,
    head: Head,
    tokens: &mut Cursor<'_>,
    depth: usize,
) -> Result<ForInit, Stop>
    ensures { Reads (spec.phrase_from depth head tokens.old.left) result tokens.old tokens.new }
{
    if tokens.sees_name() && may_be_open(head.mode) {
        let quals = List::new(alloc);
        let found = variables_of(alloc, quals, head_type(head), tokens, depth)?;
        return Ok(ForInit::Decl(found));
    }
    expr_from(alloc, head, tokens, depth)
}

fn named_phrase(alloc: Global, tokens: &mut Cursor<'_>, depth: usize) -> Result<ForInit, Stop>
    ensures { Reads (spec.phrase_as depth start.Name tokens.old.left) result tokens.old tokens.new }
{
    let head = named_head(alloc, tokens, depth)?;
    phrase_from(alloc, head, tokens, depth)
}

fn basic_phrase(
    alloc: Global,
    basic: Basic,
    tokens: &mut Cursor<'_>,
    depth: usize,
) -> Result<ForInit, Stop>
    ensures { Reads (spec.phrase_as depth (start.Basic basic) tokens.old.left) result tokens.old tokens.new }
{
    let head = basic_head(alloc, basic, tokens, depth)?;
    phrase_from(alloc, head, tokens, depth)
}

/// An expression, or variables without qualifiers, with the semicolon.
#[tactic(auto, unfolding(crate::specs::Variables::phrase))]
pub(crate) fn phrase(alloc: Global, tokens: &mut Cursor<'_>, depth: usize) -> Result<ForInit, Stop>
    ensures { Reads (spec.phrase depth tokens.old.left) result tokens.old tokens.new }
{
    match next_start(tokens) {
        Start::Name => named_phrase(alloc, tokens, depth),
        Start::Basic(basic) => basic_phrase(alloc, basic, tokens, depth),
        _ => {
            let tree = expr(alloc, tokens, depth, 0)?;
            let (_, tree) = with(tokens.expect(Punct::Semicolon), tree)?;
            Ok(ForInit::Expr(tree))
        }
    }
}

/// What stands first in the header of a `for`.
#[tactic(auto, unfolding(crate::specs::Variables::header))]
pub(crate) fn header(alloc: Global, tokens: &mut Cursor<'_>, depth: usize) -> Result<ForInit, Stop>
    ensures { Reads (spec.header depth tokens.old.left) result tokens.old tokens.new }
{
    if tokens.sees(Punct::Semicolon) {
        return Ok(ForInit::Empty(tokens.take_one()?));
    }
    if begins_qual(tokens) {
        let quals = qualifiers(alloc, tokens, depth)?;
        return Ok(ForInit::Decl(variables(alloc, quals, tokens, depth)?));
    }
    phrase(alloc, tokens, depth)
}
