//! Built-in functions (GLSL 4.50, 8.3, 8.7 and 8.8).

ghost use Rattle.std.specs.Prelude.{◌≡◌, ℕ, List as Plain, IfOk, OnOk, map};
ghost use Rattle.std.specs.List.{list_any, list_all};
ghost use Rattle.gsl_tree.specs.Values.{components_in};
ghost use Rattle.gsl_tree.specs.Operations as spec;
ghost use Rattle.gsl_compute.specs.Columns.{column as column_of, entry as entry_of};

use crate::parts::word_at;
use crate::words::{Words, components, of_components};
use gsl_base::{List, Memory};
use gsl_values::{Builtin, Choices, Value, Values, builtin};
use std::alloc::Global;

/// A built-in function on values; `signed` says whether the first is an `int` or a vector of them. Where the language leaves a
/// component open, a choice is drawn, for the lowest component first.
pub fn builtin_value(
    alloc: Global,
    which: Builtin,
    signed: bool,
    args: &Values,
    choices: &mut Choices,
) -> Result<Value, Memory>
    ensures value { IfOk result (λ v. v ≡ (spec.builtin_value which signed args.now choices.old).0) }
    ensures left { OnOk result (choices.new ≡ (spec.builtin_value which signed args.now choices.old).1) }
{
    let rows = rows_of(alloc, args)?;
    match which {
        Builtin::Any => Ok(Value::Word(is_any(&rows) as u32)),
        Builtin::All => Ok(Value::Word(are_all(&rows) as u32)),
        _ => {
            let words = builtin_each(alloc, which, signed, &rows, choices)?;
            Ok(of_components(alloc, &words)?)
        }
    }
}

/// The components of each argument.
fn rows_of(alloc: Global, args: &Values) -> Result<List<Words>, Memory>
    ensures { IfOk result (λ rows. rows ≡ map components_in args.now) }
{
    let mut rows = List::new(alloc);
    for k in 0..args.len() {
        rows.push(components(alloc, &args[k])?)?;
    }
    Ok(rows)
}

fn is_any(rows: &List<Words>) -> bool
    ensures { result ≡ list_any spec.is_true (spec.first_words rows.now) }
{
    if rows.is_empty() {
        return false;
    }
    rows[0].as_slice().iter().any(|word| *word != 0)
}

fn are_all(rows: &List<Words>) -> bool
    ensures { result ≡ list_all spec.is_true (spec.first_words rows.now) }
{
    if rows.is_empty() {
        return true;
    }
    rows[0].as_slice().iter().all(|word| *word != 0)
}

fn builtin_each(
    alloc: Global,
    which: Builtin,
    signed: bool,
    rows: &List<Words>,
    choices: &mut Choices,
) -> Result<Words, Memory>
    ensures words { IfOk result (λ l. l ≡ (spec.builtin_each which signed rows.now (spec.first_count rows.now) 0 choices.old).0) }
    ensures left { OnOk result (choices.new ≡ (spec.builtin_each which signed rows.now (spec.first_count rows.now) 0 choices.old).1) }
{
    let count = if rows.is_empty() { 0 } else { rows[0].len() };
    let mut given = List::new(alloc);
    for k in 0..count {
        let args = column(rows, k);
        given.push(builtin(which, signed, &args, choices))?;
    }
    Ok(given)
}

/// A component of each argument, a scalar serving each; 0 where there is no argument.
fn column(rows: &List<Words>, k: usize) -> [u32; 4]
    ensures { result ≡ column_of rows.now k }
{
    [
        entry(rows, 0, k),
        entry(rows, 1, k),
        entry(rows, 2, k),
        entry(rows, 3, k),
    ]
}

fn entry(rows: &List<Words>, row: usize, k: usize) -> u32
    ensures { result ≡ entry_of rows.now row k }
{
    if row >= rows.len() {
        return 0;
    }
    component_at(&rows[row], k)
}

fn component_at(words: &Words, k: usize) -> u32
    ensures { result ≡ spec.component_at k words.now }
{
    if words.len() == 1 {
        words[0]
    } else if k < words.len() {
        words[k]
    } else {
        0
    }
}
