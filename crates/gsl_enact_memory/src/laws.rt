//! The words over buffers and variables alone are those of the machine: calls that do nothing, whose contracts are the laws.

ghost use Rattle.std.specs.Prelude.{◌≡◌, ℕ, List, slice_get};
ghost use Rattle.gsl_base.specs.declared.input.Input.{Input};
ghost use Rattle.gsl_enact_memory.specs.Reaching as reach;
ghost use Rattle.gsl_machine.specs.Memory as machine;
ghost use Rattle.gsl_machine.specs.State.{InBlock, InVariable, Outcome, Pointer as To, State, on};
ghost use Rattle.gsl_values.specs.declared.value.Value.{Value};
ghost use Rattle.gsl_words.specs.declared.module.Module.{Module};

/// What indexes lead to and what is loaded, stored and counted are what the machine goes on with.
pub fn words_are_the_machines()
    ensures indexes { (m : Module) (input : Input) (place : ℕ) (state : State) (from : To) (index : ℕ) (go : To → Outcome) → machine.into m input place state from index go ≡ reach.into_in m input state.buffers state.variables place from index go }
    ensures loads { (m : Module) (input : Input) (state : State) (from : To) (go : Value → Outcome) → machine.loading m input state from go ≡ on (reach.loaded_in m input state.buffers state.variables from) go }
    ensures blocks { (m : Module) (input : Input) (state : State) (variable offset pointee : ℕ) (v : Value) (go : State → Outcome) → machine.storing m input state (InBlock variable offset pointee) v go ≡ on (reach.block_stored m input state.buffers variable offset v) (λ buffers. go (record state { buffers = buffers })) }
    ensures variables { (m : Module) (input : Input) (state : State) (number : ℕ) (path : List ℕ) (v : Value) (go : State → Outcome) → machine.storing m input state (InVariable number path) v go ≡ on (reach.variable_stored state.variables number path v (slice_get state.variables number)) (λ variables. go (record state { variables = variables })) }
    ensures counts { (m : Module) (input : Input) (state : State) (from : To) (member : ℕ) (go : ℕ → Outcome) → machine.counting m input state from member go ≡ on (reach.counted_in m input state.buffers from member) go }
{}
