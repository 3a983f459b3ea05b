ghost use Rattle.std.specs.Prelude.{◌≡◌, ◌+◌, ◌^◌, ◌<◌, [], ◌∷◌, ◌++◌, OnOk};
ghost use Rattle.gsl_instr.specs.Strings.{string_words};

use gsl_base::Memory;
use gsl_words::Instrs;
use std::alloc::Global;

/// Instructions as they are put, and the next id that is free.
#[derive(Debug, Drop)]
pub struct Code {
    pub instrs: Instrs,
    pub next: u32,
}

impl Code {
    /// No instructions, and `next` as the first free id.
    pub fn new(alloc: Global, next: u32) -> Code
        ensures instrs { result.instrs ≡ [] }
        ensures next { result.next ≡ next }
    {
        Code {
            instrs: Instrs::new(alloc),
            next,
        }
    }

    /// Takes the next id.
    pub fn id(&mut self) -> u32
        requires { self.old.next + 1 < 2 ^ 32 }
        ensures id { result ≡ self.old.next }
        ensures next { self.new.next ≡ self.old.next + 1 }
        ensures instrs { self.new.instrs ≡ self.old.instrs }
    {
        let id = self.next;
        self.next += 1;
        id
    }

    /// Puts an instruction at the end.
    pub fn put(&mut self, op: u16, args: &[u32]) -> Result<(), Memory>
        ensures { OnOk result (self.new ≡ record self.old { instrs = self.old.instrs ++ record { op = op; args = args.now } ∷ [] }) }
    {
        self.instrs.put(op, args)
    }

    /// Puts an instruction whose last operand is a text.
    pub fn put_text(&mut self, op: u16, args: &[u32], text: &str) -> Result<(), Memory>
        ensures { OnOk result (self.new ≡ record self.old { instrs = self.old.instrs ++ record { op = op; args = args.now ++ string_words text.now } ∷ [] }) }
    {
        self.instrs.put_text(op, args, text)
    }
}
