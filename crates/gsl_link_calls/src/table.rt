//! Which heads each function calls.

ghost use Rattle.std.specs.Prelude.{◌≡◌, ◌+◌, max, slice_index, get_or, [], IfOk};
ghost use Rattle.gsl_link_calls.specs.Table as spec;

use crate::rows::{number_at, put_number};
use crate::units::calls_of;
use gsl_base::{List, Memory};
use gsl_tree::Function;
use std::alloc::Global;
use std::marker::Model;

/// The calls of functions by their heads. Contracts see the functions.
#[derive(Drop)]
pub(crate) struct CallTable<'a> {
    functions: &'a [Function],
    firsts: Vec<usize>,
    lists: List<List<u32>>,
}

impl<'a> Model for CallTable<'a> {
    ghost use Rattle.std.specs.Prelude.{List as Plain};
    ghost use Rattle.gsl_tree.specs.declared.unit.Function.{Function as OneFunction};
    ghost use Rattle.gsl_link_calls.specs.Table.{IsTable};
    ghost use Rattle.gsl_tree.specs.contracts.unit.Function as function;
    ghost use Rattle.std.specs.Coded.{codes};

    ghost Value = { Plain OneFunction };

    ghost coded = { Prim.hlevel (codes, function.the_row.coded) };

    ghost view = { λ table. table.functions.now };

    ghost invariant = { λ table. IsTable table.functions.now table.firsts.items table.lists };
}

impl<'a> CallTable<'a> {
    ghost use Rattle.gsl_link_calls.specs.Calls.{called_by};
    ghost use Rattle.gsl_link_calls.specs.Table as spec;

    /// The calls of functions.
    pub(crate) fn new(alloc: Global, functions: &'a [Function]) -> Result<CallTable<'a>, Memory>
        ensures { IfOk result (λ table. table ≡ functions.now) }
    {
        let lists = lists_of(alloc, functions)?;
        let firsts = firsts_of(alloc, functions)?;
        Ok(CallTable {
            functions,
            firsts,
            lists,
        })
    }

    /// The functions.
    pub(crate) fn functions(&self) -> &'a [Function]
        ensures { result.now ≡ self.now }
    {
        self.functions
    }

    /// The heads of the functions are below this.
    pub(crate) fn heads(&self) -> usize
        ensures { result ≡ spec.heads_of self.now }
    {
        self.firsts.len()
    }

    /// The heads that the function of a head calls.
    pub(crate) fn callees(&self, head: usize) -> &[u32]
        ensures { result.now ≡ called_by self.now head }
    {
        list_at(&self.lists, number_at(&self.firsts, head))
    }
}

/// The list of a number, the first where there is none.
fn list_at(lists: &List<List<u32>>, number: usize) -> &[u32]
    requires { get_or lists.now 0 [] ≡ [] }
    ensures { result.now ≡ get_or lists.now number [] }
{
    if number < lists.len() {
        lists[number].as_slice()
    } else {
        &[]
    }
}

/// No calls, and then those of each function.
fn lists_of(alloc: Global, functions: &[Function]) -> Result<List<List<u32>>, Memory>
    ensures { IfOk result (λ lists. lists ≡ spec.lists_of functions.now) }
{
    let mut lists = List::new(alloc);
    lists.push(List::new(alloc))?;
    for k in 0..functions.len() {
        lists.push(calls_of(alloc, &functions[k])?)?;
    }
    Ok(lists)
}

/// The heads of functions are below this.
fn heads_of(functions: &[Function]) -> usize
    ensures { result ≡ spec.heads_of functions.now }
{
    let mut heads = 0;
    for k in 0..functions.len() {
        heads = greater(heads, functions[k].prototype as usize + 1);
    }
    heads
}

fn greater(a: usize, b: usize) -> usize
    ensures { result ≡ max a b }
{
    if a < b { b } else { a }
}

/// By its head, one more than the number of the first function.
fn firsts_of(alloc: Global, functions: &[Function]) -> Result<Vec<usize>, Memory>
    ensures { IfOk result (λ firsts. firsts.items ≡ spec.firsts_from (spec.heads_of functions.now) 0 functions.now) }
{
    let mut firsts = vec![in alloc; 0; heads_of(functions)]?;
    let mut at = functions.len();
    while at > 0 {
        put_number(&mut firsts, functions[at - 1].prototype, at);
        at -= 1;
    }
    Ok(firsts)
}
