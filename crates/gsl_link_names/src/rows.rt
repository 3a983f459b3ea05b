//! Tables of declarations by their names, and of heads by their words.

ghost use Rattle.std.specs.Prelude.{◌≡◌, [], bytes_eq, IfOk, OnOk};
ghost use Rattle.indexmap.specs.IndexMap.{insert_entry};
ghost use Rattle.gsl_link_structs.specs.Keys.{head_words};
ghost use Rattle.gsl_link_names.specs.Rows as spec;

use crate::lent::{LentHead, Named};
use gsl_base::{List, Memory, Text};
use gsl_link_structs::Key;
use gsl_tree::Prototype;
use indexmap::IndexMap;
use std::alloc::Global;

/// The declarations of each name but those of functions.
pub(crate) type NamedRows<'a> = IndexMap<Text, List<Named<'a>>>;

/// The heads of each function.
pub(crate) type HeadRows<'a> = IndexMap<Key, List<LentHead<'a>>>;

// ---- by names

fn named_or_none<'a>(alloc: Global, row: Option<List<Named<'a>>>) -> List<Named<'a>>
    ensures { result ≡ spec.or_none row.entry }
{
    match row {
        Some(row) => row,
        None => List::new(alloc),
    }
}

/// Takes what stands under a name out of its row.
fn taken_named<'a>(
    alloc: Global,
    rows: &mut NamedRows<'a>,
    name: &Text,
) -> Result<List<Named<'a>>, Memory>
    ensures row { IfOk result (λ row. row ≡ spec.row_of rows.old.entries name.now) }
    ensures rows { OnOk result (rows.new.entries ≡ insert_entry bytes_eq rows.old.entries name.now []) }
{
    let key = Text::from_str(alloc, name.as_str())?;
    let row = rows.insert(key, List::new(alloc))?;
    Ok(named_or_none(alloc, row))
}

/// Puts a declaration behind those of its name.
pub(crate) fn put_named<'a>(
    alloc: Global,
    rows: &mut NamedRows<'a>,
    name: &Text,
    x: Named<'a>,
) -> Result<(), Memory>
    ensures { OnOk result (rows.new.entries ≡ spec.with_one rows.old.entries name.now x.entry) }
{
    let mut row = taken_named(alloc, rows, name)?;
    row.push(x)?;
    let key = Text::from_str(alloc, name.as_str())?;
    rows.insert(key, row)?;
    Ok(())
}

// ---- by the words of heads

fn heads_or_none<'a>(alloc: Global, row: Option<List<LentHead<'a>>>) -> List<LentHead<'a>>
    ensures { result ≡ spec.or_none row.entry }
{
    match row {
        Some(row) => row,
        None => List::new(alloc),
    }
}

/// Takes the heads of a function out of their row.
fn taken_heads<'a>(
    alloc: Global,
    rows: &mut HeadRows<'a>,
    head: &Prototype,
) -> Result<List<LentHead<'a>>, Memory>
    ensures row { IfOk result (λ row. row ≡ spec.row_of rows.old.entries (head_words head.now)) }
    ensures rows { OnOk result (rows.new.entries ≡ insert_entry bytes_eq rows.old.entries (head_words head.now) []) }
{
    let key = Key::of(alloc, head)?;
    let row = rows.insert(key, List::new(alloc))?;
    Ok(heads_or_none(alloc, row))
}

/// Puts a head behind those of its function.
pub(crate) fn put_head<'a>(
    alloc: Global,
    rows: &mut HeadRows<'a>,
    head: &'a Prototype,
) -> Result<(), Memory>
    ensures { OnOk result (rows.new.entries ≡ spec.with_one rows.old.entries (head_words head.now) head.now) }
{
    let mut row = taken_heads(alloc, rows, head)?;
    row.push(LentHead::new(head))?;
    let key = Key::of(alloc, head)?;
    rows.insert(key, row)?;
    Ok(())
}
