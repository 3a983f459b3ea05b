//! What stays as a shader runs.

ghost use Rattle.std.specs.Prelude.{◌≡◌, IfOk};
ghost use Rattle.gsl_perform.specs.Framed.{Framed};

use gsl_base::{Input, Memory};
use gsl_shapes::Shapes;
use gsl_tree::Program;
use std::alloc::Global;
use std::marker::Model;

/// A program and its input, with the shapes of its structs. Contracts see the program and the input.
#[derive(Drop)]
pub struct Frame<'a> {
    pub(crate) program: &'a Program,
    pub(crate) input: &'a Input,
    pub(crate) shapes: Shapes<'a>,
}

impl<'a> Model for Frame<'a> {
    ghost use Rattle.std.specs.Prelude.{◌≡◌};
    ghost use Rattle.std.specs.Coded.{codes};
    ghost use Rattle.gsl_base.specs.contracts.input.Input as input_row;
    ghost use Rattle.gsl_tree.specs.contracts.program.Program as program_row;
    ghost use Rattle.gsl_perform.specs.Framed.{Framed};

    ghost Value = { Framed };

    ghost coded = { Prim.hlevel (codes, program_row.the_row.coded, input_row.the_row.coded) };

    ghost view = { λ f. record { program = f.program.now; input = f.input.now } };

    ghost invariant = { λ f. f.shapes ≡ f.program.now.structs };
}

impl<'a> Frame<'a> {
    /// What stays as a program runs on an input.
    pub fn new(alloc: Global, program: &'a Program, input: &'a Input) -> Result<Frame<'a>, Memory>
        ensures { IfOk result (λ f. f ≡ record { program = program.now; input = input.now }) }
    {
        let shapes = Shapes::new(alloc, &program.structs)?;
        Ok(Frame {
            program,
            input,
            shapes,
        })
    }

    /// The program.
    pub fn program(&self) -> &'a Program
        ensures { result.now ≡ self.now.program }
    {
        self.program
    }
}
