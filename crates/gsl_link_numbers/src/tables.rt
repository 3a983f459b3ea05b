//! Tables in which the declarations of units are found.

ghost use Rattle.std.specs.Prelude.{◌≡◌, IfOk};
ghost use Rattle.gsl_link_numbers.specs.Numbering as spec;

use crate::blocks::block_numbers;
use crate::heads::head_numbers;
use crate::interfaces::interface_numbers;
use crate::site::Site;
use crate::spots::{Spots, global_numbers};
use gsl_base::{List, Memory, Text};
use gsl_link_structs::Key;
use gsl_link_whole::{Numbering, Side};
use indexmap::IndexSet;
use std::alloc::Global;
use std::marker::Model;

/// The names of blocks, of inputs and outputs, the keys of heads, and the declarations that stand for variables.
#[derive(Drop)]
pub(crate) struct Tables {
    pub blocks: IndexSet<Text>,
    pub interfaces: IndexSet<Text>,
    pub heads: IndexSet<Key>,
    pub spots: Spots,
    pub sites: IndexSet<Site>,
}

impl Model for Tables {
    ghost use Rattle.gsl_link_numbers.specs.Numbering.{Tables as Plain};
    ghost use Rattle.gsl_link_numbers.specs.contracts.site.Spot as spot;
    ghost use Rattle.gsl_link_numbers.specs.contracts.site.Site as site;
    ghost use Rattle.std.specs.Coded.{codes};

    ghost Value = { Plain };

    ghost coded = { Prim.hlevel (codes, spot.the_row.coded, site.the_row.coded) };

    ghost view = { λ t. record { blocks = t.blocks.keys; interfaces = t.interfaces.keys; heads = t.heads.keys; spots = t.spots.entries; sites = t.sites.keys } };
}

/// The numbers of one unit.
pub(crate) fn numbering(
    alloc: Global,
    t: &Tables,
    unit: u32,
    side: &Side,
) -> Result<Numbering, Memory>
    ensures { IfOk result (λ n. n ≡ spec.numbering_by t.now unit side.now) }
{
    let structs = List::from_slice(alloc, side.structs.as_slice())?;
    let globals = global_numbers(
        alloc,
        &t.spots,
        &t.sites,
        unit,
        side.unit.globals.as_slice(),
    )?;
    let blocks = block_numbers(alloc, &t.blocks, side.unit.blocks.as_slice())?;
    let interfaces = interface_numbers(alloc, &t.interfaces, side.unit.interfaces.as_slice())?;
    let heads = head_numbers(alloc, &t.heads, side.unit.prototypes.as_slice())?;
    Ok(Numbering {
        structs,
        globals,
        blocks,
        interfaces,
        heads,
    })
}
