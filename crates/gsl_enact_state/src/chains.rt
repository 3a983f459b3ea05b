//! Where chains of indexes lead.

ghost use Rattle.std.specs.Prelude.{◌≡◌, ◌∷◌, ℕ, IfOk};
ghost use Rattle.gsl_enact_memory.specs.Reaching as reach;
ghost use Rattle.gsl_enact_state.specs.Seen as seen;
ghost use Rattle.gsl_machine.specs.Memory as spec;
ghost use Rattle.gsl_machine.specs.State.{Outcome, Pointer as To};

use crate::globals::Globals;
use crate::state::State;
use gsl_base::{Input, Memory};
use gsl_compute::word_in;
use gsl_enact_memory::{Pointer, Reached, into};
use std::alloc::Global;

impl<'a> Globals<'a> {
    /// What a chain of indexes leads to.
    #[cycle(along)]
    pub fn along(
        &self,
        alloc: Global,
        input: &Input,
        state: &State<'_>,
        from: Pointer,
        indexes: &[u32],
    ) -> Result<Reached, Memory>
        ensures { IfOk result (λ r. (place : ℕ) (go : To → Outcome) → reach.reaching r place go ≡ spec.along self.now input.now place (seen.state_seen self.now state.now) (reach.pointer_seen from) indexes.now go) }
    {
        match indexes {
            [] => Ok(Reached::To(from)),
            [index, rest @ ..] => self.along_one(alloc, input, state, from, *index, rest),
        }
    }

    #[cycle(along)]
    fn along_one(
        &self,
        alloc: Global,
        input: &Input,
        state: &State<'_>,
        from: Pointer,
        index: u32,
        rest: &[u32],
    ) -> Result<Reached, Memory>
        ensures { IfOk result (λ r. (place : ℕ) (go : To → Outcome) → reach.reaching r place go ≡ spec.along self.now input.now place (seen.state_seen self.now state.now) (reach.pointer_seen from) (index ∷ rest.now) go) }
    {
        match self.value(alloc, state, index)? {
            None => Ok(Reached::Nowhere),
            Some(value) => {
                let reached = self.into(input, state, from, word_in(&value))?;
                match reached {
                    Reached::To(to) => self.along(alloc, input, state, to, rest),
                    Reached::Strays => Ok(Reached::Strays),
                    Reached::Nowhere => Ok(Reached::Nowhere),
                }
            }
        }
    }

    /// What one index leads to.
    fn into(
        &self,
        input: &Input,
        state: &State<'_>,
        from: Pointer,
        index: u32,
    ) -> Result<Reached, Memory>
        ensures { IfOk result (λ r. (place : ℕ) (go : To → Outcome) → reach.reaching r place go ≡ spec.into self.now input.now place (seen.state_seen self.now state.now) (reach.pointer_seen from) index go) }
    {
        let reached = into(
            self.decorations(),
            input,
            &state.buffers,
            &state.variables,
            from,
            index,
        )?;
        Ok(reached)
    }
}
