//! The faults of linking that the program alone shows.

ghost use Rattle.std.specs.Prelude.{◌≡◌, [], Some, not, drop, bytes_eq, nat_eq, nat_lt, slice_get, IfOk, OnOk};
ghost use Rattle.std.specs.List.{list_any};
ghost use Rattle.indexmap.specs.IndexSet.{insert_key};
ghost use Rattle.gsl_tree.specs.declared.unit.LocalSize.{LocalSize as OneSize};
ghost use Rattle.gsl_tree.specs.Weights as weights;
ghost use Rattle.gsl_types.specs.Known.{AreStructs};
ghost use Rattle.gsl_link_calls.specs.Calls as calls;
ghost use Rattle.gsl_link_whole.specs.Whole as whole;
ghost use Rattle.gsl_link.specs.Finding as finding;
ghost use Rattle.gsl_link.specs.Rows as spec;

use gsl_base::{Memory, Place, Stage};
use gsl_link_calls::CallGraph;
use gsl_link_numbers::is_main;
use gsl_tree::{Function, LocalSize, Program, Prototype};
use gsl_weights::{function_leaves, program_weight};
use indexmap::IndexSet;
use std::alloc::Global;

/// The place of what is said of all sources.
const AT_START: Place = Place { unit: 0, line: 1 };

fn if_so(so: bool, place: Place) -> Option<Place>
    ensures { result ≡ spec.if_so so place }
{
    if so { Some(place) } else { None }
}

// ---- E0802

/// Puts a head into a set, and tells whether it was not in it.
fn put_head(heads: &mut IndexSet<u32>, head: u32) -> Result<bool, Memory>
    ensures new { IfOk result (λ new. new ≡ not (list_any (nat_eq head) heads.old.keys)) }
    ensures keys { OnOk result (heads.new.keys ≡ insert_key nat_eq heads.old.keys head) }
{
    let (_, new) = heads.insert_full(head)?;
    Ok(new)
}

/// The place of the first function whose head is that of one before it.
fn first_again(alloc: Global, functions: &[Function]) -> Result<Option<Place>, Memory>
    ensures { IfOk result (λ place. place ≡ finding.first_again [] functions.now) }
{
    let mut heads = IndexSet::new(alloc);
    for k in 0..functions.len() {
        if !put_head(&mut heads, functions[k].prototype)? {
            return Ok(Some(functions[k].place));
        }
    }
    Ok(None)
}

/// The place of the first second definition of a function.
#[tactic(auto, using(crate::proofs::Found::again_is))]
pub fn second_definition(alloc: Global, p: &Program) -> Result<Option<Place>, Memory>
    ensures { IfOk result (λ place. place ≡ spec.second_definition p.now) }
{
    let place = first_again(alloc, p.functions.as_slice())?;
    Ok(place)
}

// ---- E0801

fn has_main(prototypes: &[Prototype], functions: &[Function]) -> bool
    ensures { result ≡ list_any (whole.is_main prototypes.now) functions.now }
{
    for k in 0..functions.len() {
        if is_main(prototypes, &functions[k]) {
            return true;
        }
    }
    false
}

/// The start of the sources, where there is no `main`.
pub fn no_main(p: &Program) -> Option<Place>
    ensures { result ≡ spec.no_main p.now }
{
    if_so(
        !has_main(p.prototypes.as_slice(), p.functions.as_slice()),
        AT_START,
    )
}

// ---- E0805

fn first_recursive(
    alloc: Global,
    graph: &CallGraph<'_>,
    functions: &[Function],
) -> Result<Option<Place>, Memory>
    ensures { IfOk result (λ place. place ≡ finding.first_where (λ f. calls.reaches graph.now f.prototype f.prototype) functions.now) }
{
    for k in 0..functions.len() {
        if graph.is_recursive(alloc, functions[k].prototype)? {
            return Ok(Some(functions[k].place));
        }
    }
    Ok(None)
}

/// The place of the first function that reaches itself by calls.
pub fn recursion(alloc: Global, p: &Program) -> Result<Option<Place>, Memory>
    ensures { IfOk result (λ place. place ≡ spec.recursion p.now) }
{
    let graph = CallGraph::new(alloc, p.functions.as_slice())?;
    let place = first_recursive(alloc, &graph, p.functions.as_slice())?;
    Ok(place)
}

// ---- E0806

fn is_other_size(size: &LocalSize, other: &LocalSize) -> bool
    ensures { result ≡ not (bytes_eq other.now.parts size.now.parts) }
{
    other.parts != size.parts
}

fn first_other(size: &LocalSize, sizes: &[LocalSize]) -> Option<Place>
    ensures { result ≡ finding.first_size (λ (other : OneSize). not (bytes_eq other.parts size.now.parts)) (drop 1 sizes.now) }
{
    for k in 1..sizes.len() {
        if is_other_size(size, &sizes[k]) {
            return Some(sizes[k].place);
        }
    }
    None
}

fn fault_behind(sizes: &[LocalSize]) -> Option<Place>
    ensures { result ≡ finding.size_fault_of (slice_get sizes.now 0) (drop 1 sizes.now) }
{
    match sizes.get(0) {
        Some(size) => first_other(size, sizes),
        None => Some(AT_START),
    }
}

/// The first size of a work group that is not as the one that was stated first, or that there is none.
#[tactic(auto, using(crate::proofs::Found::sizes_are))]
fn size_fault(sizes: &[LocalSize]) -> Option<Place>
    ensures { result ≡ spec.size_fault sizes.now }
{
    fault_behind(sizes)
}

/// The place where sizes of work groups disagree, or the start of the sources where a compute shader states none.
pub fn size_disagreement(stage: Stage, sizes: &[LocalSize]) -> Option<Place>
    ensures { result ≡ spec.size_disagreement stage sizes.now }
{
    match stage {
        Stage::Vertex | Stage::Fragment => None,
        Stage::Compute => size_fault(sizes),
    }
}

// ---- E0903

#[tactic(auto, using(crate::proofs::Found::beyond_leaves))]
fn is_large(p: &Program, f: &Function) -> bool
    requires known { AreStructs p.now.structs }
    ensures { result ≡ spec.is_large p.now f.now }
{
    65_536 < function_leaves(&p.structs, p.prototypes.as_slice(), f)
}

fn first_large(p: &Program, functions: &[Function]) -> Option<Place>
    requires known { AreStructs p.now.structs }
    ensures { result ≡ finding.first_where (spec.is_large p.now) functions.now }
{
    for k in 0..functions.len() {
        if is_large(p, &functions[k]) {
            return Some(functions[k].place);
        }
    }
    None
}

/// The place of the first function whose parameters and local variables have too many leaves.
pub fn large_function(p: &Program) -> Option<Place>
    requires known { AreStructs p.now.structs }
    ensures { result ≡ spec.large_function p.now }
{
    first_large(p, p.functions.as_slice())
}

// ---- E0907

fn place_of_main(functions: &[Function], main: u32) -> Place
    ensures { result ≡ spec.place_of_main (slice_get functions.now main) }
{
    match functions.get(main as usize) {
        Some(f) => f.place,
        None => AT_START,
    }
}

/// The place of `main`, where calls nest too deep.
pub fn too_deep(alloc: Global, p: &Program) -> Result<Option<Place>, Memory>
    ensures { IfOk result (λ place. place ≡ spec.too_deep p.now) }
{
    let graph = CallGraph::new(alloc, p.functions.as_slice())?;
    let deep = graph.nest_deep(alloc)?;
    Ok(if_so(deep, place_of_main(p.functions.as_slice(), p.main)))
}

// ---- E0906

#[tactic(auto, using(crate::proofs::Found::beyond_weight))]
fn is_heavy(p: &Program) -> bool
    requires known { AreStructs p.now.structs }
    ensures { result ≡ nat_lt spec.most_weight (weights.program_weight p.now) }
{
    200_000 < program_weight(p)
}

/// The start of the sources, where the program is too heavy.
pub fn too_heavy(p: &Program) -> Option<Place>
    requires known { AreStructs p.now.structs }
    ensures { result ≡ spec.too_heavy p.now }
{
    if_so(is_heavy(p), AT_START)
}
