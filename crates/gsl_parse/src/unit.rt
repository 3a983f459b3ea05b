//! Functions, blocks and whole units (GLSL 4.50, 4.3.9, 6.1 and chapter 9).

ghost use Rattle.std.specs.Prelude.{◌≡◌};
ghost use Rattle.gsl_expr.specs.Reading.{Reads};
ghost use Rattle.gsl_parse.specs.Units as spec;

use crate::list::{Item, Repeated, commas_of, further_of, row_of, some_of};
use crate::qualifier::{qualifiers, typed};
use crate::statement::statements;
use crate::variable::{declarator_from, struct_variables};
use gsl_base::{Key, List, Punct};
use gsl_expr::{Cursor, Stop, dims, void_alone, with};
use gsl_syntax::{
    Body, Decl, Declarator, Function, Global as Top, Member, Name, Param, Params, Qual, Quals,
    TypeSpec, Unit,
};
use std::alloc::Global;

/// A parameter, behind its type.
#[tactic(auto, unfolding(crate::specs::Units::parameter_from))]
fn parameter_from(
    alloc: Global,
    quals: Quals,
    ty: TypeSpec,
    tokens: &mut Cursor<'_>,
    depth: usize,
) -> Result<Param, Stop>
    ensures { Reads (spec.parameter_from depth quals ty tokens.old.left) result tokens.old tokens.new }
{
    if !tokens.sees_name() {
        return Ok(Param::Unnamed(quals, ty));
    }
    let (name, (quals, ty)) = with(tokens.name(), (quals, ty))?;
    let (dims, (name, (quals, ty))) = with(dims(alloc, tokens, depth), (name, (quals, ty)))?;
    Ok(Param::Named(quals, ty, name, dims))
}

impl Item for Param {
    ghost reader = { spec.parameter };

    #[tactic(auto, unfolding(crate::specs::Units::parameter))]
    fn read(alloc: Global, tokens: &mut Cursor<'_>, depth: usize) -> Result<Param, Stop> {
        let quals = qualifiers(alloc, tokens, depth)?;
        let (ty, quals) = with(typed(alloc, tokens, depth), quals)?;
        parameter_from(alloc, quals, ty, tokens, depth)
    }
}

#[tactic(auto, using(crate::proofs::Shrinking::parameter_shrinks))]
fn listed_parameters(alloc: Global, tokens: &mut Cursor<'_>, depth: usize) -> Result<Params, Stop>
    ensures { Reads (spec.listed_parameters depth tokens.old.left) result tokens.old tokens.new }
{
    let found = commas_of::<Param>(alloc, tokens, depth)?;
    let (_, found) = with(tokens.expect(Punct::RightParen), found)?;
    Ok(Params::Items(found))
}

/// Parameters, with the parenthesis that closes them.
#[tactic(auto, unfolding(crate::specs::Units::parameters))]
fn parameters(alloc: Global, tokens: &mut Cursor<'_>, depth: usize) -> Result<Params, Stop>
    ensures { Reads (spec.parameters depth tokens.old.left) result tokens.old tokens.new }
{
    if tokens.sees(Punct::RightParen) {
        tokens.take_one()?;
        return Ok(Params::Items(List::new(alloc)));
    }
    if void_alone(tokens) {
        let place = tokens.take_one()?;
        tokens.take_one()?;
        return Ok(Params::Void(place));
    }
    listed_parameters(alloc, tokens, depth)
}

/// What follows the parameters of a function.
#[tactic(auto, unfolding(crate::specs::Units::function_body))]
fn function_body(alloc: Global, tokens: &mut Cursor<'_>, depth: usize) -> Result<Body, Stop>
    ensures { Reads (spec.function_body depth tokens.old.left) result tokens.old tokens.new }
{
    if tokens.sees(Punct::Semicolon) {
        return Ok(Body::Prototype(tokens.take_one()?));
    }
    let place = tokens.expect(Punct::LeftBrace)?;
    Ok(Body::Block(place, statements(alloc, tokens, depth)?))
}

/// A function, behind its parameters.
fn function_end(
    alloc: Global,
    quals: Quals,
    ty: TypeSpec,
    name: Name,
    params: Params,
    tokens: &mut Cursor<'_>,
    depth: usize,
) -> Result<Function, Stop>
    ensures { Reads (spec.function_end depth quals ty name params tokens.old.left) result tokens.old tokens.new }
{
    let (body, (quals, (ty, (name, params)))) = with(
        function_body(alloc, tokens, depth),
        (quals, (ty, (name, params))),
    )?;
    Ok(Function {
        quals,
        ty,
        name,
        params,
        body,
    })
}

/// A function, behind its name.
#[tactic(auto, unfolding(crate::specs::Units::function_from))]
fn function_from(
    alloc: Global,
    quals: Quals,
    ty: TypeSpec,
    name: Name,
    tokens: &mut Cursor<'_>,
    depth: usize,
) -> Result<Function, Stop>
    ensures { Reads (spec.function_from depth quals ty name tokens.old.left) result tokens.old tokens.new }
{
    let (_, (quals, (ty, name))) = with(tokens.take_one(), (quals, (ty, name)))?;
    let (params, (quals, (ty, name))) = with(
        parameters(alloc, tokens, depth),
        (quals, (ty, name)),
    )?;
    function_end(alloc, quals, ty, name, params, tokens, depth)
}

/// Variables, behind the first name.
#[tactic(auto, unfolding(crate::specs::Units::variables_from), using(crate::proofs::Shrinking::declarator_shrinks))]
fn variables_from(
    alloc: Global,
    quals: Quals,
    ty: TypeSpec,
    name: Name,
    tokens: &mut Cursor<'_>,
    depth: usize,
) -> Result<Decl, Stop>
    ensures { Reads (spec.variables_from depth quals ty name tokens.old.left) result tokens.old tokens.new }
{
    let (first, (quals, ty)) = with(declarator_from(alloc, name, tokens, depth), (quals, ty))?;
    let (found, (quals, ty)) = with(
        further_of::<Declarator>(alloc, first, tokens, depth),
        (quals, ty),
    )?;
    let (_, (found, (quals, ty))) = with(tokens.expect(Punct::Semicolon), (found, (quals, ty)))?;
    Ok(Decl::Variables(quals, ty, found))
}

/// A function or variables, behind the first name.
#[tactic(auto, unfolding(crate::specs::Units::named_from))]
fn named_from(
    alloc: Global,
    quals: Quals,
    ty: TypeSpec,
    name: Name,
    tokens: &mut Cursor<'_>,
    depth: usize,
) -> Result<Top, Stop>
    ensures { Reads (spec.named_from depth quals ty name tokens.old.left) result tokens.old tokens.new }
{
    if tokens.sees(Punct::LeftParen) {
        let tree = function_from(alloc, quals, ty, name, tokens, depth)?;
        return Ok(Top::Function(tree));
    }
    let tree = variables_from(alloc, quals, ty, name, tokens, depth)?;
    Ok(Top::Decl(tree))
}

/// The name of a block's instance, or none.
#[tactic(auto, unfolding(crate::specs::Units::instance))]
fn instance(tokens: &mut Cursor<'_>) -> Result<Option<Name>, Stop>
    ensures { Reads (spec.instance tokens.old.left) result tokens.old tokens.new }
{
    if !tokens.sees_name() {
        return Ok(None);
    }
    Ok(Some(tokens.name()?))
}

/// A block, behind the name of its instance.
fn block_close(
    quals: Quals,
    name: Name,
    members: List<Member>,
    instance: Option<Name>,
    tokens: &mut Cursor<'_>,
) -> Result<Decl, Stop>
    ensures { Reads (spec.block_close quals name members instance tokens.old.left) result tokens.old tokens.new }
{
    let (_, (quals, (name, (members, instance)))) = with(
        tokens.expect(Punct::Semicolon),
        (quals, (name, (members, instance))),
    )?;
    Ok(Decl::Block(quals, name, members, instance))
}

/// A block, behind its members.
fn block_end(
    quals: Quals,
    name: Name,
    members: List<Member>,
    tokens: &mut Cursor<'_>,
) -> Result<Decl, Stop>
    ensures { Reads (spec.block_end quals name members tokens.old.left) result tokens.old tokens.new }
{
    let (_, (quals, (name, members))) = with(
        tokens.expect(Punct::RightBrace),
        (quals, (name, members)),
    )?;
    let (instance, (quals, (name, members))) = with(instance(tokens), (quals, (name, members)))?;
    block_close(quals, name, members, instance, tokens)
}

/// A block, behind its qualifiers.
#[tactic(auto, unfolding(crate::specs::Units::block), using(crate::proofs::Shrinking::member_takes))]
fn block(alloc: Global, quals: Quals, tokens: &mut Cursor<'_>, depth: usize) -> Result<Decl, Stop>
    ensures { Reads (spec.block depth quals tokens.old.left) result tokens.old tokens.new }
{
    let (name, quals) = with(tokens.name(), quals)?;
    let (_, (name, quals)) = with(tokens.expect(Punct::LeftBrace), (name, quals))?;
    let (members, (name, quals)) = with(some_of::<Member>(alloc, tokens, depth), (name, quals))?;
    block_end(quals, name, members, tokens)
}

/// Whether a name and a brace stand next.
#[tactic(auto, unfolding(crate::specs::Units::opens_block), using(crate::proofs::Behind::braces))]
fn opens_block(tokens: &Cursor<'_>) -> bool
    ensures { result ≡ spec.opens_block tokens.now.left }
{
    tokens.sees_name() && tokens.sees_behind(Punct::LeftBrace)
}

fn any_qual(quals: &[Qual]) -> bool
    ensures { result ≡ spec.any_qual quals.now }
{
    !quals.is_empty()
}

fn struct_at_top(
    alloc: Global,
    quals: Quals,
    tokens: &mut Cursor<'_>,
    depth: usize,
) -> Result<Top, Stop>
    ensures { Reads (spec.struct_at_top depth quals tokens.old.left) result tokens.old tokens.new }
{
    let tree = struct_variables(alloc, quals, tokens, depth)?;
    Ok(Top::Decl(tree))
}

fn quals_alone(quals: Quals, tokens: &mut Cursor<'_>) -> Result<Top, Stop>
    ensures { Reads (spec.quals_alone quals tokens.old.left) result tokens.old tokens.new }
{
    let (_, quals) = with(tokens.take_one(), quals)?;
    Ok(Top::Decl(Decl::Quals(quals)))
}

fn block_at_top(
    alloc: Global,
    quals: Quals,
    tokens: &mut Cursor<'_>,
    depth: usize,
) -> Result<Top, Stop>
    ensures { Reads (spec.block_at_top depth quals tokens.old.left) result tokens.old tokens.new }
{
    let tree = block(alloc, quals, tokens, depth)?;
    Ok(Top::Decl(tree))
}

fn typed_at_top(
    alloc: Global,
    quals: Quals,
    tokens: &mut Cursor<'_>,
    depth: usize,
) -> Result<Top, Stop>
    ensures { Reads (spec.typed_at_top depth quals tokens.old.left) result tokens.old tokens.new }
{
    let (ty, quals) = with(typed(alloc, tokens, depth), quals)?;
    let (name, (quals, ty)) = with(tokens.name(), (quals, ty))?;
    named_from(alloc, quals, ty, name, tokens, depth)
}

/// Behind the qualifiers, be there any or none.
#[tactic(auto, unfolding(crate::specs::Units::global_from))]
fn global_from(
    alloc: Global,
    quals: Quals,
    tokens: &mut Cursor<'_>,
    depth: usize,
) -> Result<Top, Stop>
    ensures { Reads (spec.global_from depth quals tokens.old.left) result tokens.old tokens.new }
{
    if tokens.sees_key(Key::Struct) {
        return struct_at_top(alloc, quals, tokens, depth);
    }
    if any_qual(quals.as_slice()) && tokens.sees(Punct::Semicolon) {
        return quals_alone(quals, tokens);
    }
    if any_qual(quals.as_slice()) && opens_block(tokens) {
        return block_at_top(alloc, quals, tokens, depth);
    }
    typed_at_top(alloc, quals, tokens, depth)
}

impl Item for Top {
    ghost reader = { spec.global_at };

    #[tactic(auto, unfolding(crate::specs::Units::global_at))]
    fn read(alloc: Global, tokens: &mut Cursor<'_>, depth: usize) -> Result<Top, Stop> {
        if tokens.sees(Punct::Semicolon) {
            return Ok(Top::Empty(tokens.take_one()?));
        }
        let quals = qualifiers(alloc, tokens, depth)?;
        global_from(alloc, quals, tokens, depth)
    }
}

impl Repeated for Top {
    ghost starts = { spec.some_left };

    fn begins(tokens: &Cursor<'_>) -> bool {
        tokens.next().is_some()
    }
}

/// All of the tokens.
#[tactic(auto, unfolding(crate::specs::Units::globals), using(crate::proofs::Shrinking::global_takes))]
pub(crate) fn globals(alloc: Global, tokens: &mut Cursor<'_>, depth: usize) -> Result<Unit, Stop>
    ensures { Reads (spec.globals depth tokens.old.left) result tokens.old tokens.new }
{
    row_of::<Top>(alloc, tokens, depth)
}
