//! Values that need not be copied to be looked at.

ghost use Rattle.std.specs.Prelude.{◌≡◌, IfOk};
ghost use Rattle.std.specs.Option.{option_map};
ghost use Rattle.gsl_tree.specs.Operations as operations;

use gsl_base::Memory;
use gsl_compute::{copy_value, index_value, member_value};
use gsl_values::Value;
use std::alloc::Global;
use std::marker::Model;

/// A value that a literal or a variable lends, or one that was made. Contracts see the value.
#[derive(Drop)]
pub struct Held<'a> {
    lent: Option<&'a Value>,
    own: Value,
}

impl<'a> Model for Held<'a> {
    ghost use Rattle.std.specs.Option.{option_map};
    ghost use Rattle.gsl_values.specs.contracts.value.Value.{the_row};
    ghost use Rattle.gsl_values.specs.declared.value.Value.{Value as OneValue};
    ghost use Rattle.gsl_fold.specs.Holding.{lent_or};

    ghost Value = { OneValue };

    ghost coded = { the_row.coded };

    ghost view = { λ held. lent_or held.own (option_map (λ v. v.now) held.lent) };
}

impl<'a> Held<'a> {
    /// A value that is lent.
    pub fn lent(value: &'a Value) -> Held<'a>
        ensures { result ≡ value.now }
    {
        Held {
            lent: Some(value),
            own: Value::Word(0),
        }
    }

    /// A value that was made.
    pub fn own(value: Value) -> Held<'a>
        ensures { result ≡ value }
    {
        Held {
            lent: None,
            own: value,
        }
    }

    /// The value, to be looked at.
    pub fn get(&self) -> &Value
        ensures { result.now ≡ self.now }
    {
        match self.lent {
            Some(value) => value,
            None => &self.own,
        }
    }

    /// The value by itself: a lent one is copied.
    pub fn into_value(self, alloc: Global) -> Result<Value, Memory>
        ensures { IfOk result (λ v. v ≡ self.entry) }
    {
        match self.lent {
            Some(value) => copy_value(alloc, value),
            None => Ok(self.own),
        }
    }
}

/// The part at an index, if there is one. Of a lent value the part is lent.
pub fn index_of<'a>(alloc: Global, held: Held<'a>, index: u32) -> Result<Option<Held<'a>>, Memory>
    ensures { IfOk result (λ part. part ≡ operations.index_value held.entry index) }
{
    match held.lent {
        Some(value) => Ok(lent_at(value, index)),
        None => own_at(alloc, &held.own, index),
    }
}

fn lent_at<'a>(value: &'a Value, index: u32) -> Option<Held<'a>>
    ensures { result ≡ operations.index_value value.now index }
{
    match value {
        Value::Word(_) => None,
        Value::Many(parts) => {
            if index as usize >= parts.len() {
                return None;
            }
            Some(Held::lent(&parts[index as usize]))
        }
    }
}

fn own_at<'a>(alloc: Global, value: &Value, index: u32) -> Result<Option<Held<'a>>, Memory>
    ensures { IfOk result (λ part. part ≡ operations.index_value value.now index) }
{
    match index_value(alloc, value, index)? {
        Some(part) => Ok(Some(Held::own(part))),
        None => Ok(None),
    }
}

/// The member of a number. Of a lent value the member is lent.
pub fn member_of<'a>(alloc: Global, held: Held<'a>, number: u32) -> Result<Held<'a>, Memory>
    ensures { IfOk result (λ part. part ≡ operations.member_value held.entry number) }
{
    match held.lent {
        Some(value) => Ok(lent_member(value, number)),
        None => Ok(Held::own(member_value(alloc, &held.own, number)?)),
    }
}

fn lent_member<'a>(value: &'a Value, number: u32) -> Held<'a>
    ensures { result ≡ operations.member_value value.now number }
{
    match value {
        Value::Word(_) => Held::own(Value::Word(0)),
        Value::Many(parts) => {
            if number as usize >= parts.len() {
                return Held::own(Value::Word(0));
            }
            Held::lent(&parts[number as usize])
        }
    }
}
