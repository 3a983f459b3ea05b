//! Reading the program of typed lists: each function asks one part of them whether it is of the form.

ghost use Rattle.std.specs.Prelude.{◌≡◌, ◌≤◌, ◌<◌, [], ◌∷◌, codes, length, IfOk, IfSome, IfNone, map};
ghost use Rattle.std.specs.Option.{option_map};
ghost use Rattle.std.specs.List.{list_any};
ghost use Rattle.std.specs.Str.{bytes_eq, all_ascii_digits};
ghost use Rattle.gsl_base.specs.declared.stage.Stage.{Stage};
ghost use Rattle.gsl_base.specs.declared.stage.Stage.TheVariants.{Compute};
ghost use Rattle.gsl_tree.specs.declared.unit.LocalSize.{LocalSize as OneSize};
ghost use Rattle.gsl_tree.specs.Around.{is_buffer as buffer};
ghost use Rattle.gsl_tree.specs.WellTyped.{unit_lists, program_lists};
ghost use Rattle.gsl_form.specs.declared.program.Program.{Program};
ghost use Rattle.gsl_form.specs.Form.{differ as names_differ};
ghost use Rattle.gsl_form.specs.Form.{is_name as has_form};
ghost use Rattle.gsl_form.specs.Trees.{Spells};
ghost use Rattle.gsl_form.specs.Reading as spec;

use crate::program::{
    MAX_MEMBERS, MAX_STATEMENTS, MAX_TERMS, Names, Program, Statement, Statements, Term, Terms,
};
use gsl_base::{Memory, Text};
use gsl_tree::{
    Block, BlockKind, BlockMember, Expr, ExprKind, Function, LocalSize, Program as Linked,
    Prototype, Stmt, TypedUnit,
};
use gsl_types::{Scalar, Ty};
use gsl_values::{BinaryOp, Value};
use std::alloc::Global;

/// Whether a type is `int`.
#[tactic(auto, unfolding(crate::specs::Reading::is_int))]
fn is_int(ty: &Ty) -> bool
    ensures { result ≡ spec.is_int ty.now }
{
    match ty {
        Ty::One(Scalar::Int) => true,
        _ => false,
    }
}

/// Whether a type is `void`.
#[tactic(auto, unfolding(crate::specs::Reading::is_void))]
fn is_void(ty: &Ty) -> bool
    ensures { result ≡ spec.is_void ty.now }
{
    match ty {
        Ty::Void => true,
        _ => false,
    }
}

/// The member of a number of the first block, which has so many.
fn member(count: usize, block: u32, number: u32) -> Option<Term>
    ensures { result ≡ spec.member count block number }
{
    if block == 0 && (number as usize) < count {
        Some(Term::Member(number))
    } else {
        None
    }
}

/// The literal of a value, if it is a word.
#[tactic(auto, unfolding(crate::specs::Reading::literal))]
fn literal(value: &Value) -> Option<Term>
    ensures { result ≡ spec.literal value.now }
{
    match value {
        Value::Word(word) => Some(Term::Literal(*word)),
        Value::Many(_) => None,
    }
}

/// The term that an expression is, if it is one.
#[tactic(auto, using(crate::proofs::Steps::steps))]
fn term(count: usize, tree: &Expr) -> Option<Term>
    ensures { result ≡ (spec.parts_of count tree.now).term }
{
    if !is_int(&tree.ty) {
        return None;
    }
    kind_term(count, &tree.kind)
}

#[tactic(auto, using(crate::proofs::Steps::steps))]
fn kind_term(count: usize, kind: &ExprKind) -> Option<Term>
    ensures { result ≡ (spec.kind_parts count kind.now).term }
{
    match kind {
        ExprKind::BlockMember(block, number) => member(count, *block, *number),
        ExprKind::Const(value) => literal(value),
        _ => None,
    }
}

/// A sum of one term, if the expression is one.
fn one_term(alloc: Global, count: usize, kind: &ExprKind) -> Result<Option<Terms>, Memory>
    ensures { IfOk result (λ found. found ≡ option_map (λ t. t ∷ []) (spec.kind_parts count kind.now).term) }
{
    let Some(term) = kind_term(count, kind) else {
        return Ok(None);
    };
    let mut terms = Terms::new(alloc);
    terms.push(term)?;
    Ok(Some(terms))
}

/// The terms of a sum with one more, if there are both.
fn with_term(terms: Option<Terms>, term: Option<Term>) -> Result<Option<Terms>, Memory>
    ensures { IfOk result (λ found. found ≡ spec.with_term terms term) }
{
    let (Some(mut terms), Some(term)) = (terms, term) else {
        return Ok(None);
    };
    terms.push(term)?;
    Ok(Some(terms))
}

fn is_add(op: BinaryOp) -> bool
    ensures { result ≡ spec.is_add op }
{
    match op {
        BinaryOp::Add => true,
        _ => false,
    }
}

/// The terms that an expression adds up, if it is a sum of terms.
#[cycle(sum)]
#[tactic(auto, using(crate::proofs::Steps::steps))]
fn sum(alloc: Global, count: usize, tree: &Expr) -> Result<Option<Terms>, Memory>
    ensures { IfOk result (λ found. found ≡ (spec.parts_of count tree.now).sum) }
{
    if !is_int(&tree.ty) {
        return Ok(None);
    }
    kind_sum(alloc, count, &tree.kind)
}

#[cycle(sum)]
#[tactic(auto, using(crate::proofs::Steps::steps))]
fn kind_sum(alloc: Global, count: usize, kind: &ExprKind) -> Result<Option<Terms>, Memory>
    ensures { IfOk result (λ found. found ≡ (spec.kind_parts count kind.now).sum) }
{
    match kind {
        ExprKind::Binary(op, a, b) => {
            if !is_add(*op) {
                return Ok(None);
            }
            let terms = sum(alloc, count, a.get())?;
            with_term(terms, term(count, b.get()))
        }
        _ => one_term(alloc, count, kind),
    }
}

/// The assignment of terms, if they are not too many.
fn assigned(target: u32, terms: Terms) -> Option<Statement>
    ensures { result ≡ spec.assigned target terms }
{
    if terms.len() > MAX_TERMS as usize {
        return None;
    }
    Some(Statement { target, terms })
}

/// The number of the member that an expression is.
fn target(count: usize, tree: &Expr) -> Option<u32>
    ensures { result ≡ spec.target_of count tree.now }
{
    match term(count, tree) {
        Some(Term::Member(number)) => Some(number),
        _ => None,
    }
}

/// The assignment of a sum to a member.
fn assign_by(alloc: Global, count: usize, a: &Expr, b: &Expr) -> Result<Option<Statement>, Memory>
    ensures { IfOk result (λ found. found ≡ spec.assign_by count a.now b.now) }
{
    let Some(target) = target(count, a) else {
        return Ok(None);
    };
    let Some(terms) = sum(alloc, count, b)? else {
        return Ok(None);
    };
    Ok(assigned(target, terms))
}

#[tactic(auto, unfolding(crate::specs::Reading::assign_kind))]
fn assign_kind(alloc: Global, count: usize, kind: &ExprKind) -> Result<Option<Statement>, Memory>
    ensures { IfOk result (λ found. found ≡ spec.assign_kind count kind.now) }
{
    match kind {
        ExprKind::Assign(a, b) => assign_by(alloc, count, a.get(), b.get()),
        _ => Ok(None),
    }
}

/// The assignment that an expression is.
#[tactic(auto, unfolding(crate::specs::Reading::assign_of))]
fn assign(alloc: Global, count: usize, tree: &Expr) -> Result<Option<Statement>, Memory>
    ensures { IfOk result (λ found. found ≡ spec.assign_of count tree.now) }
{
    if !is_int(&tree.ty) {
        return Ok(None);
    }
    assign_kind(alloc, count, &tree.kind)
}

/// The assignment that a statement is.
#[tactic(auto, unfolding(crate::specs::Reading::statement_of))]
fn statement(alloc: Global, count: usize, tree: &Stmt) -> Result<Option<Statement>, Memory>
    ensures { IfOk result (λ found. found ≡ spec.statement_of count tree.now) }
{
    match tree {
        Stmt::Eval(tree) => assign(alloc, count, tree),
        _ => Ok(None),
    }
}

/// The statements of `main`, if each is of the form.
fn statements(alloc: Global, count: usize, trees: &[Stmt]) -> Result<Option<Statements>, Memory>
    ensures { IfOk result (λ found. found ≡ spec.each (spec.statement_of count) trees.now) }
{
    let mut all = Statements::new(alloc);
    for tree in trees {
        let Some(one) = statement(alloc, count, tree)? else {
            return Ok(None);
        };
        all.push(one)?;
    }
    Ok(Some(all))
}

/// Whether each byte is a decimal digit.
fn are_digits(bytes: &[u8]) -> bool
    ensures { result ≡ all_ascii_digits bytes.now }
{
    match bytes {
        [] => true,
        [byte, more @ ..] => byte.is_ascii_digit() && are_digits(more),
    }
}

/// Whether a name is a letter from a to z and at most three digits.
fn is_name(name: &[u8]) -> bool
    ensures { result ≡ has_form name.now }
{
    match name {
        [] => false,
        [letter, digits @ ..] => {
            letter.is_ascii_lowercase() && are_digits(digits) && digits.len() <= 3
        }
    }
}

/// Whether a member has no qualifier.
fn is_bare(tree: &BlockMember) -> bool
    ensures { result ≡ spec.is_bare tree.now }
{
    if tree.readonly || tree.writeonly || tree.coherent || tree.volatile || tree.restrict {
        return false;
    }
    tree.offset.is_none() && tree.align.is_none()
}

/// The name of a member that is of the form.
fn member_name(tree: &BlockMember) -> Option<&Text>
    ensures { option_map (λ name. name.now) result ≡ spec.member_of tree.now }
{
    if is_bare(tree) && is_int(&tree.ty) && is_name(tree.name.as_str().as_bytes()) {
        Some(&tree.name)
    } else {
        None
    }
}

/// The names of the members, if each is of the form.
fn members(alloc: Global, trees: &[BlockMember]) -> Result<Option<Names>, Memory>
    ensures { IfOk result (λ found. found ≡ spec.each spec.member_of trees.now) }
{
    let mut names = Names::new(alloc);
    for tree in trees {
        let Some(name) = member_name(tree) else {
            return Ok(None);
        };
        names.push(Text::from_str(alloc, name.as_str())?)?;
    }
    Ok(Some(names))
}

/// Whether the name is among these.
fn is_among(name: &Text, names: &[Text]) -> bool
    ensures { result ≡ list_any (bytes_eq name.now) names.now }
{
    match names {
        [] => false,
        [first, more @ ..] => name == first || is_among(name, more),
    }
}

/// Whether no name is among those after it.
fn differ(names: &[Text]) -> bool
    ensures { result ≡ names_differ names.now }
{
    match names {
        [] => true,
        [first, more @ ..] => !is_among(first, more) && differ(more),
    }
}

/// The names, if there are one to 64 and they differ.
fn limited(names: Names) -> Option<Names>
    ensures { result ≡ spec.limited names }
{
    if !names.is_empty() && names.len() <= MAX_MEMBERS as usize && differ(names.as_slice()) {
        Some(names)
    } else {
        None
    }
}

fn is_buffer(kind: BlockKind) -> bool
    ensures { result ≡ buffer kind }
{
    match kind {
        BlockKind::Buffer => true,
        _ => false,
    }
}

/// Whether a block is a buffer block `B` without instance at set 0 and binding 0, laid out by std430.
fn is_b(tree: &Block) -> bool
    ensures { result ≡ spec.is_b tree.now }
{
    tree.name.as_str() == "B"
        && tree.instance.is_none()
        && is_buffer(tree.kind)
        && tree.set == 0
        && tree.binding == 0
        && !tree.std140
}

/// The names of the members of the block.
fn block(alloc: Global, tree: &Block) -> Result<Option<Names>, Memory>
    ensures { IfOk result (λ found. found ≡ spec.block_of tree.now) }
{
    if !is_b(tree) {
        return Ok(None);
    }
    match members(alloc, tree.members.as_slice())? {
        Some(names) => Ok(limited(names)),
        None => Ok(None),
    }
}

fn blocks(alloc: Global, trees: &[Block]) -> Result<Option<Names>, Memory>
    ensures { IfOk result (λ found. found ≡ spec.blocks_of trees.now) }
{
    match trees {
        [tree] => block(alloc, tree),
        _ => Ok(None),
    }
}

/// Whether this is the head of `main`.
fn is_head(tree: &Prototype) -> bool
    ensures { result ≡ spec.is_head tree.now }
{
    tree.name.as_str() == "main" && is_void(&tree.result) && tree.params.is_empty()
}

fn are_heads(trees: &[Prototype]) -> bool
    ensures { result ≡ spec.are_heads trees.now }
{
    match trees {
        [tree] => is_head(tree),
        _ => false,
    }
}

/// The statements, if they are not too many.
fn few(statements: Statements) -> Option<Statements>
    ensures { result ≡ spec.few statements }
{
    if statements.len() > MAX_STATEMENTS as usize {
        return None;
    }
    Some(statements)
}

/// The statements of `main`.
fn function(alloc: Global, count: usize, tree: &Function) -> Result<Option<Statements>, Memory>
    ensures { IfOk result (λ found. found ≡ spec.function_of count tree.now) }
{
    if tree.prototype != 0 || !tree.locals.is_empty() {
        return Ok(None);
    }
    match statements(alloc, count, tree.body.as_slice())? {
        Some(statements) => Ok(few(statements)),
        None => Ok(None),
    }
}

fn functions(alloc: Global, count: usize, trees: &[Function]) -> Result<Option<Statements>, Memory>
    ensures { IfOk result (λ found. found ≡ spec.functions_of count trees.now) }
{
    match trees {
        [tree] => function(alloc, count, tree),
        _ => Ok(None),
    }
}

/// The program of the block's members and these functions.
fn with_functions(
    alloc: Global,
    trees: &[Function],
    members: Names,
) -> Result<Option<Program>, Memory>
    ensures { IfOk result (λ found. found ≡ spec.with_functions trees.now members) }
{
    match functions(alloc, members.len(), trees)? {
        Some(statements) => Ok(Some(Program {
            members,
            statements,
        })),
        None => Ok(None),
    }
}

/// The program of a block and a function.
fn program(
    alloc: Global,
    block_trees: &[Block],
    heads: &[Prototype],
    function_trees: &[Function],
) -> Result<Option<Program>, Memory>
    ensures { IfOk result (λ found. found ≡ spec.program_by block_trees.now heads.now function_trees.now) }
{
    if !are_heads(heads) {
        return Ok(None);
    }
    match blocks(alloc, block_trees)? {
        Some(members) => with_functions(alloc, function_trees, members),
        None => Ok(None),
    }
}

/// Whether a local size is 1 in each direction.
fn is_one(size: &[u32; 3]) -> bool
    ensures { result ≡ spec.is_one size.now }
{
    size[0] == 1 && size[1] == 1 && size[2] == 1
}

/// Whether the local size is said once, and is 1 in each direction.
#[tactic(auto, unfolding(crate::specs::Reading::are_sizes))]
fn are_sizes(trees: &[LocalSize]) -> bool
    ensures { result ≡ spec.are_sizes (map (λ (size : OneSize). size.parts) trees.now) }
{
    match trees {
        [tree] => is_one(&tree.parts),
        _ => false,
    }
}

/// Whether the local size of a unit is 1 and it has no structs, globals, inputs and outputs.
fn is_plain_unit(unit: &TypedUnit) -> bool
    ensures { result ≡ spec.are_plain (unit_lists Compute unit.now) }
{
    are_sizes(unit.local_sizes.as_slice())
        && unit.structs.is_empty()
        && unit.globals.is_empty()
        && unit.interfaces.is_empty()
}

fn unit_program(alloc: Global, unit: &TypedUnit) -> Result<Option<Program>, Memory>
    ensures { IfOk result (λ found. found ≡ spec.program_of (unit_lists Compute unit.now)) }
{
    if !is_plain_unit(unit) {
        return Ok(None);
    }
    program(
        alloc,
        unit.blocks.as_slice(),
        unit.prototypes.as_slice(),
        unit.functions.as_slice(),
    )
}

/// Whether the local size of a linked program is 1 and it has no structs, globals, inputs and outputs.
#[tactic(auto, unfolding(crate::specs::Reading::are_sizes))]
fn is_plain_linked(linked: &Linked) -> bool
    ensures { result ≡ spec.are_plain (program_lists linked.now) }
{
    is_one(&linked.local_size)
        && linked.structs.is_empty()
        && linked.globals.is_empty()
        && linked.interfaces.is_empty()
}

fn linked_program(alloc: Global, linked: &Linked) -> Result<Option<Program>, Memory>
    ensures { IfOk result (λ found. found ≡ spec.program_of (program_lists linked.now)) }
{
    if !is_plain_linked(linked) {
        return Ok(None);
    }
    program(
        alloc,
        linked.blocks.as_slice(),
        linked.prototypes.as_slice(),
        linked.functions.as_slice(),
    )
}

/// The program that a typed unit spells, or `None` where it is not of the form. The stage is not asked.
pub fn read_unit(alloc: Global, unit: &TypedUnit) -> Result<Option<Program>, Memory>
    ensures found { (stage : Stage) → IfOk result (λ found. IfSome found (λ p. Spells (unit_lists stage unit.now) p)) }
    ensures none { (stage : Stage) → IfOk result (λ found. IfNone found ((p : Program) → Spells (unit_lists stage unit.now) p → ⊥)) }
{
    unit_program(alloc, unit)
}

/// The program that a linked program spells, or `None` where it is not of the form. The stage is not asked.
pub fn read_linked(alloc: Global, linked: &Linked) -> Result<Option<Program>, Memory>
    ensures found { IfOk result (λ found. IfSome found (λ p. Spells (program_lists linked.now) p)) }
    ensures none { IfOk result (λ found. IfNone found ((p : Program) → Spells (program_lists linked.now) p → ⊥)) }
{
    linked_program(alloc, linked)
}
