//! The lowering: the module of a program.

ghost use Rattle.std.specs.Prelude.{◌≡◌, ◌+◌, ◌*◌, ◌^◌, ◌<◌, ◌≤◌, ◌++◌, [], ◌∷◌, ◌==◌, List, length, fold, replicate, All, OnOk, IfOk};
ghost use Rattle.std.specs.List.{position};
ghost use Rattle.gsl_words.specs.declared.module.Instr.{Instr};
ghost use Rattle.gsl_instr.specs.declared.op.TheConstants as op;
ghost use Rattle.gsl_cmd.specs.declared.lowering.id.TheConstants as id;
ghost use Rattle.gsl_form.specs.Form.{IsProgram};
ghost use Rattle.gsl_cmd.specs.Lowering as spec;

use crate::code::Code;
use gsl_base::{List, Memory};
use gsl_form::{Names, Program, Statement, Term};
use gsl_instr::enumerant::{
    capability, decoration, execution_mode, execution_model, memory_model, storage_class,
};
use gsl_instr::op;
use gsl_words::{Module, VERSION_1_0};
use std::alloc::Global;

/// The ids that every module has.
pub mod id {
    pub const MAIN: u32 = 1;

    pub const VOID: u32 = 2;

    pub const MAIN_TYPE: u32 = 3;

    pub const ENTRY: u32 = 4;

    pub const INT: u32 = 5;

    pub const BLOCK: u32 = 6;

    pub const BLOCK_POINTER: u32 = 7;

    pub const MEMBER_POINTER: u32 = 8;

    pub const BUFFER: u32 = 9;
    /// The constants take the ids from here on, and then the function's code.
    pub const FIRST_CONSTANT: u32 = 10;
}

/// The operands of the type of a block with the most members.
const MOST_OPERANDS: usize = 1 + 64;

/// The values of the module's constants, in the order of their ids.
type Constants = List<u32>;

/// The place of a value among these, if it is there.
fn place_of(values: &[u32], value: u32) -> Option<usize>
    ensures place { result ≡ position (λ other. other == value) values.now }
{
    values.iter().position(|other| *other == value)
}

/// The id of the constant that has the value.
fn constant_id(constants: &Constants, value: u32) -> u32
    requires { length constants.now < 2 ^ 31 }
    ensures { result ≡ spec.constant_id constants.now value }
{
    let place = place_of(constants.as_slice(), value).unwrap_or(constants.len());
    id::FIRST_CONSTANT + place as u32
}

/// Puts a pointer to a member of the buffer, and gives its id.
fn put_pointer(code: &mut Code, constants: &Constants, member: u32) -> Result<u32, Memory>
    requires constants { length constants.now < 2 ^ 31 }
    requires room { code.old.next + 1 < 2 ^ 32 }
    ensures code { OnOk result (code.new.instrs ≡ code.old.instrs ++ spec.pointer constants.now code.old.next member ∷ []) }
    ensures next { OnOk result (code.new.next ≡ code.old.next + 1) }
    ensures id { IfOk result (λ pointer. pointer ≡ code.old.next) }
{
    let index = constant_id(constants, member);
    let pointer = code.id();
    code.put(
        op::ACCESS_CHAIN,
        &[id::MEMBER_POINTER, pointer, id::BUFFER, index],
    )?;
    Ok(pointer)
}

/// Puts a term, and gives the id of its value.
fn put_term(code: &mut Code, constants: &Constants, term: Term) -> Result<u32, Memory>
    requires constants { length constants.now < 2 ^ 31 }
    requires room { code.old.next + 2 < 2 ^ 32 }
    ensures code { OnOk result ((follows : List Instr) → code.new.instrs ++ follows ≡ code.old.instrs ++ spec.term_code constants.now code.old.next term follows) }
    ensures next { OnOk result (code.new.next ≡ code.old.next + spec.term_ids constants.now term) }
    ensures few { OnOk result (code.new.next ≤ code.old.next + 2) }
    ensures value { IfOk result (λ value. value ≡ spec.term_value constants.now code.old.next term) }
{
    match term {
        Term::Literal(value) => Ok(constant_id(constants, value)),
        Term::Member(member) => {
            let pointer = put_pointer(code, constants, member)?;
            let value = code.id();
            code.put(op::LOAD, &[id::INT, value, pointer])?;
            Ok(value)
        }
    }
}

/// Adds terms to a value, from left to right, and gives the id of the sum.
fn put_more(
    code: &mut Code,
    constants: &Constants,
    value: u32,
    terms: &[Term],
) -> Result<u32, Memory>
    requires constants { length constants.now < 2 ^ 31 }
    requires room { code.old.next + 3 * length terms.now < 2 ^ 32 }
    ensures code { OnOk result ((follows : List Instr) → code.new.instrs ++ follows ≡ code.old.instrs ++ spec.more_code constants.now code.old.next value terms.now follows) }
    ensures next { OnOk result (code.new.next ≡ code.old.next + spec.more_ids constants.now terms.now) }
    ensures few { OnOk result (code.new.next ≤ code.old.next + 3 * length terms.now) }
    ensures value { IfOk result (λ sum. sum ≡ spec.more_value constants.now code.old.next value terms.now) }
{
    match terms {
        [] => Ok(value),
        [term, more @ ..] => {
            let right = put_term(code, constants, *term)?;
            let sum = code.id();
            code.put(op::I_ADD, &[id::INT, sum, value, right])?;
            put_more(code, constants, sum, more)
        }
    }
}

/// Puts the sum of terms, and gives the id of its value.
fn put_sum(code: &mut Code, constants: &Constants, terms: &[Term]) -> Result<u32, Memory>
    requires constants { length constants.now < 2 ^ 31 }
    requires room { code.old.next + 3 * length terms.now < 2 ^ 32 }
    ensures code { OnOk result ((follows : List Instr) → code.new.instrs ++ follows ≡ code.old.instrs ++ spec.sum_code constants.now code.old.next terms.now follows) }
    ensures next { OnOk result (code.new.next ≡ code.old.next + spec.sum_ids constants.now terms.now) }
    ensures few { OnOk result (code.new.next ≤ code.old.next + 3 * length terms.now) }
    ensures value { IfOk result (λ sum. sum ≡ spec.sum_value constants.now code.old.next terms.now) }
{
    match terms {
        [] => Ok(0),
        [term, more @ ..] => {
            let value = put_term(code, constants, *term)?;
            put_more(code, constants, value, more)
        }
    }
}

/// Puts a statement: the sum, and then its store to the target.
fn put_statement(
    code: &mut Code,
    constants: &Constants,
    statement: &Statement,
) -> Result<(), Memory>
    requires constants { length constants.now < 2 ^ 31 }
    requires room { code.old.next + 3 * length statement.now.terms + 1 < 2 ^ 32 }
    ensures code { OnOk result ((follows : List Instr) → code.new.instrs ++ follows ≡ code.old.instrs ++ spec.statement_code constants.now code.old.next statement.now follows) }
    ensures next { OnOk result (code.new.next ≡ code.old.next + spec.statement_ids constants.now statement.now) }
    ensures few { OnOk result (code.new.next ≤ code.old.next + 3 * length statement.now.terms + 1) }
{
    let value = put_sum(code, constants, statement.terms.as_slice())?;
    let target = put_pointer(code, constants, statement.target)?;
    code.put(op::STORE, &[target, value])
}

/// Puts statements one after the other.
fn put_statements(
    code: &mut Code,
    constants: &Constants,
    statements: &[Statement],
) -> Result<(), Memory>
    requires constants { length constants.now < 2 ^ 31 }
    requires few { length statements.now ≤ 256 }
    requires short { All (λ s. length s.terms ≤ 64) statements.now }
    requires room { code.old.next < 2 ^ 31 }
    ensures code { OnOk result ((follows : List Instr) → code.new.instrs ++ follows ≡ code.old.instrs ++ spec.statements_code constants.now code.old.next statements.now follows) }
    ensures next { OnOk result (code.new.next ≡ code.old.next + spec.statements_ids constants.now statements.now) }
{
    for statement in statements {
        put_statement(code, constants, statement)?;
    }
    Ok(())
}

/// Puts the function `main`.
fn put_function(
    code: &mut Code,
    constants: &Constants,
    statements: &[Statement],
) -> Result<(), Memory>
    requires constants { length constants.now < 2 ^ 31 }
    requires few { length statements.now ≤ 256 }
    requires short { All (λ s. length s.terms ≤ 64) statements.now }
    requires room { code.old.next < 2 ^ 31 }
    requires first { code.old.next ≡ spec.first_id constants.now }
    ensures code { OnOk result (code.new.instrs ≡ code.old.instrs ++ spec.function_code constants.now statements.now) }
    ensures next { OnOk result (code.new.next ≡ code.old.next + spec.statements_ids constants.now statements.now) }
{
    code.put(op::FUNCTION, &[id::VOID, id::MAIN, 0, id::MAIN_TYPE])?;
    code.put(op::LABEL, &[id::ENTRY])?;
    put_statements(code, constants, statements)?;
    code.put(op::RETURN, &[])?;
    code.put(op::FUNCTION_END, &[])
}

/// Puts the instructions that come before all names and types.
fn put_preamble(code: &mut Code) -> Result<(), Memory>
    ensures { OnOk result (code.new ≡ record code.old { instrs = code.old.instrs ++ spec.preamble }) }
{
    code.put(op::CAPABILITY, &[capability::SHADER])?;
    code.put(
        op::MEMORY_MODEL,
        &[memory_model::LOGICAL, memory_model::GLSL450],
    )?;
    code.put_text(
        op::ENTRY_POINT,
        &[execution_model::GL_COMPUTE, id::MAIN],
        "main",
    )?;
    code.put(
        op::EXECUTION_MODE,
        &[id::MAIN, execution_mode::LOCAL_SIZE, 1, 1, 1],
    )
}

/// Puts the names of the block and of its members.
fn put_names(code: &mut Code, members: &Names) -> Result<(), Memory>
    requires { length members.now ≤ 64 }
    ensures { OnOk result (code.new ≡ record code.old { instrs = code.old.instrs ++ spec.name_code members.now }) }
{
    code.put_text(op::NAME, &[id::BLOCK], "B")?;
    for i in 0..members.len() {
        code.put_text(op::MEMBER_NAME, &[id::BLOCK, i as u32], members[i].as_str())?;
    }
    Ok(())
}

/// Puts the decorations of the block, its members and the buffer.
fn put_decorations(code: &mut Code, members: u32) -> Result<(), Memory>
    requires { members ≤ 64 }
    ensures { OnOk result (code.new ≡ record code.old { instrs = code.old.instrs ++ spec.decoration_code members }) }
{
    code.put(op::DECORATE, &[id::BLOCK, decoration::BUFFER_BLOCK])?;
    for i in 0..members {
        code.put(
            op::MEMBER_DECORATE,
            &[id::BLOCK, i, decoration::OFFSET, 4 * i],
        )?;
    }
    code.put(op::DECORATE, &[id::BUFFER, decoration::DESCRIPTOR_SET, 0])?;
    code.put(op::DECORATE, &[id::BUFFER, decoration::BINDING, 0])
}

/// Puts the types of the function, of the block and of pointers into it.
fn put_types(code: &mut Code, members: u32) -> Result<(), Memory>
    requires { members ≤ 64 }
    ensures { OnOk result (code.new ≡ record code.old { instrs = code.old.instrs ++ spec.type_code members }) }
{
    code.put(op::TYPE_VOID, &[id::VOID])?;
    code.put(op::TYPE_FUNCTION, &[id::MAIN_TYPE, id::VOID])?;
    code.put(op::TYPE_INT, &[id::INT, 32, 1])?;
    put_block_type(code, members)?;
    code.put(
        op::TYPE_POINTER,
        &[id::BLOCK_POINTER, storage_class::UNIFORM, id::BLOCK],
    )?;
    code.put(
        op::TYPE_POINTER,
        &[id::MEMBER_POINTER, storage_class::UNIFORM, id::INT],
    )
}

/// Puts the block's type, of as many `int` members.
fn put_block_type(code: &mut Code, members: u32) -> Result<(), Memory>
    requires { members ≤ 64 }
    ensures { OnOk result (code.new ≡ record code.old { instrs = code.old.instrs ++ spec.instr op.TYPE_STRUCT (id.BLOCK ∷ replicate members id.INT) ∷ [] }) }
{
    let mut operands = [id::INT; MOST_OPERANDS];
    operands[0] = id::BLOCK;
    code.put(op::TYPE_STRUCT, &operands[..1 + members as usize])
}

/// Puts the constants.
fn put_constants(code: &mut Code, constants: &Constants) -> Result<(), Memory>
    requires { length constants.now < 2 ^ 31 }
    ensures { OnOk result (code.new ≡ record code.old { instrs = code.old.instrs ++ spec.constant_code constants.now }) }
{
    for i in 0..constants.len() {
        code.put(
            op::CONSTANT,
            &[id::INT, id::FIRST_CONSTANT + i as u32, constants[i]],
        )?;
    }
    Ok(())
}

/// Adds a value, if it has no constant yet.
fn add_value(values: &mut Constants, value: u32) -> Result<(), Memory>
    ensures value { OnOk result (values.new ≡ spec.with_value values.old value) }
    ensures few { OnOk result (length values.new ≤ length values.old + 1) }
{
    if values.as_slice().contains(&value) {
        return Ok(());
    }
    values.push(value)
}

/// Adds the literals among terms.
fn add_literals(values: &mut Constants, terms: &[Term]) -> Result<(), Memory>
    ensures values { OnOk result (values.new ≡ fold spec.with_value values.old (spec.literals_of terms.now)) }
    ensures few { OnOk result (length values.new ≤ length values.old + length terms.now) }
{
    match terms {
        [] => Ok(()),
        [Term::Member(_), more @ ..] => add_literals(values, more),
        [Term::Literal(value), more @ ..] => {
            add_value(values, *value)?;
            add_literals(values, more)
        }
    }
}

/// The values that the program needs as constants: the members' numbers, and then its literals.
fn constants(alloc: Global, program: &Program) -> Result<Constants, Memory>
    requires members { length program.now.members ≤ 64 }
    requires statements { length program.now.statements ≤ 256 }
    requires short { All (λ s. length s.terms ≤ 64) program.now.statements }
    ensures values { IfOk result (λ values. values ≡ spec.constants_of program.now) }
    ensures few { IfOk result (λ values. length values ≤ 16448) }
{
    let mut values = Constants::new(alloc);
    for i in 0..program.members.len() {
        add_value(&mut values, i as u32)?;
    }
    for statement in program.statements.as_slice() {
        add_literals(&mut values, statement.terms.as_slice())?;
    }
    Ok(values)
}

/// The module of a program.
pub fn lower(alloc: Global, program: &Program) -> Result<Module, Memory>
    requires { IsProgram program.now }
    ensures { IfOk result (λ m. m ≡ spec.module_of program.now) }
{
    let constants = constants(alloc, program)?;
    let members = program.members.len() as u32;
    let mut code = Code::new(alloc, id::FIRST_CONSTANT + constants.len() as u32);
    put_preamble(&mut code)?;
    put_names(&mut code, &program.members)?;
    put_decorations(&mut code, members)?;
    put_types(&mut code, members)?;
    put_constants(&mut code, &constants)?;
    code.put(
        op::VARIABLE,
        &[id::BLOCK_POINTER, id::BUFFER, storage_class::UNIFORM],
    )?;
    put_function(&mut code, &constants, program.statements.as_slice())?;
    let Code { instrs, next } = code;
    Ok(Module {
        version: VERSION_1_0,
        bound: next,
        instrs,
    })
}
