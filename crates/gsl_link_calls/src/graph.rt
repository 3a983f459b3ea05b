//! The graph of calls of a program.

ghost use Rattle.std.specs.Prelude.{◌≡◌, nat_le, slice_index, IfOk};
ghost use Rattle.std.specs.List.{list_all, list_any};
ghost use Rattle.gsl_link_calls.specs.Ranks as spec;

use crate::depth::{any_deep, depths_of};
use crate::ranks::ranks_of;
use crate::rows::word_at;
use crate::search::reaches;
use crate::table::CallTable;
use gsl_base::Memory;
use gsl_tree::Function;
use std::alloc::Global;
use std::marker::Model;

/// The calls of functions, with ranks by which most are seen not to reach themselves. Contracts see the functions.
#[derive(Drop)]
pub struct CallGraph<'a> {
    table: CallTable<'a>,
    ranks: Vec<u32>,
}

impl<'a> Model for CallGraph<'a> {
    ghost use Rattle.std.specs.Prelude.{List as Plain};
    ghost use Rattle.gsl_tree.specs.declared.unit.Function.{Function as OneFunction};
    ghost use Rattle.gsl_link_calls.specs.Ranks.{Ranked};
    ghost use Rattle.gsl_tree.specs.contracts.unit.Function as function;
    ghost use Rattle.std.specs.Coded.{codes};

    ghost Value = { Plain OneFunction };

    ghost coded = { Prim.hlevel (codes, function.the_row.coded) };

    ghost view = { λ graph. graph.table };

    ghost invariant = { λ graph. Ranked graph.ranks.items graph.table };
}

impl<'a> CallGraph<'a> {
    ghost use Rattle.gsl_link_calls.specs.Calls as calls;

    /// The calls of functions.
    pub fn new(alloc: Global, functions: &'a [Function]) -> Result<CallGraph<'a>, Memory>
        ensures { IfOk result (λ graph. graph ≡ functions.now) }
    {
        let table = CallTable::new(alloc, functions)?;
        let ranks = ranks_of(alloc, &table)?;
        let ranks = checked(alloc, &table, ranks);
        Ok(CallGraph { table, ranks })
    }

    /// Whether the function of a head reaches itself by calls.
    pub fn is_recursive(&self, alloc: Global, head: u32) -> Result<bool, Memory>
        ensures { IfOk result (λ round. round ≡ calls.reaches self.now head head) }
    {
        if !may_return(&self.table, &self.ranks, head) {
            return Ok(false);
        }
        let round = reaches(alloc, &self.table, head, head)?;
        Ok(round)
    }

    /// Whether calls nest deeper than 64.
    pub fn nest_deep(&self, alloc: Global) -> Result<bool, Memory>
        ensures { IfOk result (λ deep. deep ≡ calls.any_nest self.now 65) }
    {
        let rows = depths_of(alloc, &self.table)?;
        Ok(any_deep(self.table.functions(), &rows))
    }
}

/// Ranks, if no function calls one of a higher rank by them, and else none: then each question is a search.
fn checked(alloc: Global, table: &CallTable<'_>, ranks: Vec<u32>) -> Vec<u32>
    ensures { spec.Ranked result.items table.now }
{
    if are_ranked(table, &ranks) {
        ranks
    } else {
        Vec::new(alloc)
    }
}

/// Whether no function calls one of a higher rank.
fn are_ranked(table: &CallTable<'_>, ranks: &[u32]) -> bool
    ensures { result ≡ spec.are_ranked ranks.now table.now }
{
    let functions = table.functions();
    for k in 0..functions.len() {
        if !is_ranked(table, ranks, functions[k].prototype) {
            return false;
        }
    }
    true
}

/// Whether the function of a head calls none of a higher rank.
fn is_ranked(table: &CallTable<'_>, ranks: &[u32], head: u32) -> bool
    ensures { result ≡ spec.is_ranked ranks.now table.now head }
{
    none_higher(ranks, table.callees(head as usize), word_at(ranks, head))
}

fn none_higher(ranks: &[u32], heads: &[u32], most: u32) -> bool
    ensures { result ≡ list_all (λ next. nat_le (slice_index ranks.now next) most) heads.now }
{
    for k in 0..heads.len() {
        if word_at(ranks, heads[k]) > most {
            return false;
        }
    }
    true
}

/// Whether the function of a head calls one of no lower rank.
fn may_return(table: &CallTable<'_>, ranks: &[u32], head: u32) -> bool
    ensures { result ≡ spec.may_return ranks.now table.now head }
{
    any_as_high(ranks, table.callees(head as usize), word_at(ranks, head))
}

fn any_as_high(ranks: &[u32], heads: &[u32], least: u32) -> bool
    ensures { result ≡ list_any (λ next. nat_le least (slice_index ranks.now next)) heads.now }
{
    for k in 0..heads.len() {
        if word_at(ranks, heads[k]) >= least {
            return true;
        }
    }
    false
}
