//! What a part of a shader works on, and what calls and arguments come to.

use gsl_store::{Access, Store};
use gsl_values::{Value, Values};
use std::marker::Model;

/// What a shader works on, and the units that are left: each turn of a loop and each call of a function of the program uses one.
#[derive(Drop)]
pub struct World {
    pub store: Store,
    pub units: u64,
}

/// What an expression leads to: a part of a variable, from which nothing has been read yet, or else its value.
#[derive(Drop)]
pub enum Found {
    Place(Access),
    Value(Value),
}

/// What a call gives: its value, and the values of the parameters at its end. Contracts see it as the `Called` of `gsl_meaning`.
#[derive(Drop)]
pub struct Called {
    pub value: Value,
    pub params: Values,
}

impl Model for Called {
    ghost use Rattle.gsl_meaning.specs.Expressions.{Called as Named};
    ghost use Rattle.gsl_values.specs.contracts.value.Value as value_row;
    ghost use Rattle.std.specs.Coded.{codes};

    ghost Value = { Named };

    ghost coded = { Prim.hlevel (codes, value_row.the_row.coded) };

    ghost view = { λ c. record { value = c.value; params = c.params } };
}

/// The value with which a parameter begins, and where its value goes back to. Contracts see it as the `Passed` of `gsl_meaning`.
#[derive(Drop)]
pub struct Passed {
    pub value: Value,
    pub back: Option<Access>,
}

impl Model for Passed {
    ghost use Rattle.gsl_meaning.specs.Expressions.{Passed as Named};
    ghost use Rattle.gsl_values.specs.contracts.value.Value as value_row;
    ghost use Rattle.std.specs.Coded.{codes};

    ghost Value = { Named };

    ghost coded = { Prim.hlevel (codes, value_row.the_row.coded) };

    ghost view = { λ p. record { value = p.value; back = p.back } };
}
