//! The program that units make together.

ghost use Rattle.std.specs.Prelude.{◌≡◌, ◌++◌, [], List as Plain, Some, slice_get, IfOk, MatchOption};
ghost use Rattle.gsl_tree.specs.declared.unit.LocalSize.{LocalSize as OneSize};
ghost use Rattle.std.specs.List.{position_or_len};
ghost use Rattle.indexmap.specs.IndexSet.{insert_all};
ghost use Rattle.gsl_link_whole.specs.Numbers as numbers;
ghost use Rattle.gsl_link_whole.specs.Whole as whole_spec;
ghost use Rattle.gsl_link_numbers.specs.Numbering as spec;
ghost use Rattle.gsl_link_numbers.specs.Standing as standing;

use crate::blocks::ordered_blocks;
use crate::heads::joined_heads;
use crate::interfaces::joined_interfaces;
use crate::joining::add_units;
use crate::sets::word_of;
use crate::site::Site;
use crate::spots::{Spots, note_all, put_all_standing};
use crate::tables::Tables;
use gsl_base::{List, Memory, Stage};
use gsl_link_units::same_type;
use gsl_link_whole::{Numbering, Side};
use gsl_tree::{
    Blocks, Function, Functions, Globals, Interfaces, LocalSize, Program, Prototype, Prototypes,
};
use gsl_types::{Structs, Ty};
use indexmap::{IndexMap, IndexSet};
use std::alloc::Global;

/// A program, and the new numbers of each unit in it.
#[derive(Drop)]
pub struct WholeProgram {
    pub program: Program,
    pub numbers: List<Numbering>,
}

// ---- what is declared

/// The declarations that stand for variables, by name, and in their order.
fn variables(alloc: Global, sides: &[Side]) -> Result<(Spots, IndexSet<Site>), Memory>
    ensures spots { IfOk result (λ r. r.0.entries ≡ standing.noted_all [] 0 sides.now) }
    ensures sites { IfOk result (λ r. r.1.keys ≡ insert_all standing.site_eq [] (standing.standing_all (standing.noted_all [] 0 sides.now) 0 sides.now)) }
{
    let mut spots = IndexMap::new(alloc);
    note_all(alloc, &mut spots, sides)?;
    let mut sites = IndexSet::new(alloc);
    put_all_standing(&spots, &mut sites, sides)?;
    Ok((spots, sites))
}

/// What is declared, each once, with its tables.
#[derive(Drop)]
struct Lists {
    tables: Tables,
    blocks: Blocks,
    interfaces: Interfaces,
    heads: Prototypes,
}

fn declared(alloc: Global, sides: &[Side]) -> Result<Lists, Memory>
    ensures tables { IfOk result (λ d. d.tables ≡ spec.tables_of sides.now) }
    ensures ordered { IfOk result (λ d. d.blocks ≡ numbers.joined_blocks sides.now) }
    ensures interfaces { IfOk result (λ d. d.interfaces ≡ numbers.joined_interfaces sides.now) }
    ensures heads { IfOk result (λ d. d.heads ≡ numbers.joined_heads sides.now) }
{
    let mut block_names = IndexSet::new(alloc);
    let blocks = ordered_blocks(alloc, &mut block_names, sides)?;
    let mut interface_names = IndexSet::new(alloc);
    let interfaces = joined_interfaces(alloc, &mut interface_names, sides)?;
    let mut keys = IndexSet::new(alloc);
    let heads = joined_heads(alloc, &mut keys, sides)?;
    let (spots, sites) = variables(alloc, sides)?;
    Ok(Lists {
        tables: Tables {
            blocks: block_names,
            interfaces: interface_names,
            heads: keys,
            spots,
            sites,
        },
        blocks,
        interfaces,
        heads,
    })
}

// ---- `main`

fn is_main_head(p: &Prototype) -> bool
    ensures { result ≡ whole_spec.is_main_head (Some p.now) }
{
    p.name.as_str() == "main" && p.params.is_empty() && same_type(&p.result, &Ty::Void)
}

/// Whether a function is `main`, which has no parameters and no result.
pub fn is_main(heads: &[Prototype], f: &Function) -> bool
    ensures { result ≡ whole_spec.is_main heads.now f.now }
{
    match heads.get(f.prototype as usize) {
        Some(p) => is_main_head(p),
        None => false,
    }
}

fn number_of_main(heads: &[Prototype], functions: &[Function]) -> usize
    ensures { result ≡ position_or_len (whole_spec.is_main heads.now) functions.now }
{
    functions.iter().take_while(|f| !is_main(heads, f)).count()
}

// ---- the local size

fn first_parts(sizes: &[LocalSize]) -> Option<[u32; 3]>
    ensures { result ≡ spec.parts_of (slice_get sizes.now 0) }
{
    match sizes.get(0) {
        Some(size) => Some(size.parts),
        None => None,
    }
}

fn first_in(sizes: &[LocalSize]) -> Option<[u32; 3]>
    ensures { MatchOption result (sizes.now ≡ []) (λ parts. (rest : Plain OneSize) → parts ≡ whole_spec.first_size (sizes.now ++ rest)) }
{
    first_parts(sizes)
}

fn first_size(sides: &[Side]) -> [u32; 3]
    ensures { result ≡ whole_spec.first_size (spec.sizes_in sides.now) }
{
    for k in 0..sides.len() {
        let side = &sides[k];
        if let Some(parts) = first_in(side.unit.local_sizes.as_slice()) {
            return parts;
        }
    }
    [1, 1, 1]
}

fn local_size(stage: Stage, sides: &[Side]) -> [u32; 3]
    ensures { result ≡ whole_spec.local_size stage (spec.sizes_in sides.now) }
{
    match stage {
        Stage::Vertex | Stage::Fragment => [1, 1, 1],
        Stage::Compute => first_size(sides),
    }
}

// ---- the program

/// What units give, one unit behind the other.
#[derive(Drop)]
struct Parts {
    numbers: List<Numbering>,
    globals: Globals,
    functions: Functions,
}

fn given(alloc: Global, t: &Tables, sides: &[Side]) -> Result<Parts, Memory>
    ensures numbers { IfOk result (λ g. g.numbers ≡ spec.numberings_behind [] t.now 0 sides.now) }
    ensures globals { IfOk result (λ g. g.globals ≡ spec.all_globals_behind [] t.now 0 sides.now) }
    ensures functions { IfOk result (λ g. g.functions ≡ spec.all_functions_behind [] t.now 0 sides.now) }
{
    let mut numbers = List::new(alloc);
    let mut globals = List::new(alloc);
    let mut functions = List::new(alloc);
    add_units(alloc, t, &mut numbers, &mut globals, &mut functions, sides)?;
    Ok(Parts {
        numbers,
        globals,
        functions,
    })
}

fn put_together(
    stage: Stage,
    structs: Structs,
    lists: Lists,
    parts: Parts,
    size: [u32; 3],
) -> Result<WholeProgram, Memory>
    ensures numbers { IfOk result (λ w. w.numbers ≡ parts.numbers) }
    ensures program { IfOk result (λ w. w.program ≡ record {
      stage = stage;
      structs = structs;
      globals = parts.globals;
      blocks = lists.blocks;
      interfaces = lists.interfaces;
      prototypes = lists.heads;
      functions = parts.functions;
      main = position_or_len (whole_spec.is_main lists.heads) parts.functions;
      local_size = size;
    }) }
{
    let main = word_of(number_of_main(lists.heads.as_slice(), parts.functions.as_slice()))?;
    Ok(WholeProgram {
        program: Program {
            stage,
            structs,
            globals: parts.globals,
            blocks: lists.blocks,
            interfaces: lists.interfaces,
            prototypes: lists.heads,
            functions: parts.functions,
            main,
            local_size: size,
        },
        numbers: parts.numbers,
    })
}

/// The lists of units joined, whatever faults there are, where their structs are joined already, and the new numbers of each unit. `Memory` where
/// memory was wanting.
pub fn whole(
    alloc: Global,
    stage: Stage,
    structs: Structs,
    sides: &[Side],
) -> Result<WholeProgram, Memory>
    ensures program { IfOk result (λ w. w.program ≡ spec.whole_from stage structs sides.now) }
    ensures numbers { IfOk result (λ w. w.numbers ≡ spec.numberings sides.now) }
{
    let lists = declared(alloc, sides)?;
    let parts = given(alloc, &lists.tables, sides)?;
    let w = put_together(stage, structs, lists, parts, local_size(stage, sides))?;
    Ok(w)
}
