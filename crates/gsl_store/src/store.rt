ghost use Rattle.std.specs.Prelude.{◌≡◌};

use gsl_values::{Choices, Values};
use std::marker::Model;
use std::mem::replace;

/// What a shader works on while it runs. Contracts see it as the `State` of `gsl_meaning`.
#[derive(Drop)]
pub struct Store {
    pub globals: Values,
    pub blocks: Values,
    pub interfaces: Values,
    pub params: Values,
    pub locals: Values,
    pub choices: Choices,
}

impl Model for Store {
    ghost use Rattle.gsl_meaning.specs.State.{State};
    ghost use Rattle.gsl_values.specs.contracts.value.Value as value;
    ghost use Rattle.std.specs.Coded.{codes};

    ghost Value = { State };

    ghost coded = { Prim.hlevel (codes, value.the_row.coded) };

    ghost view = { λ s. record { globals = s.globals; blocks = s.blocks; interfaces = s.interfaces; params = s.params; locals = s.locals; choices = s.choices } };
}

/// The parameters and local variables of a caller.
#[derive(Drop)]
pub struct Caller {
    pub params: Values,
    pub locals: Values,
}

impl Store {
    /// A call begins with these parameters and local variables; those of the caller are kept.
    pub fn enter(&mut self, params: Values, locals: Values) -> Caller
        ensures state { self.new ≡ record self.old { params = params; locals = locals } }
        ensures caller { result ≡ record { params = self.old.params; locals = self.old.locals } }
    {
        Caller {
            params: replace(&mut self.params, params),
            locals: replace(&mut self.locals, locals),
        }
    }

    /// A call is left: the caller has its own parameters and local variables again. Those of the call are given.
    pub fn leave(&mut self, caller: Caller) -> Values
        ensures state { self.new ≡ record self.old { params = caller.params; locals = caller.locals } }
        ensures params { result ≡ self.old.params }
    {
        let Caller { params, locals } = caller;
        self.locals = locals;
        replace(&mut self.params, params)
    }
}
