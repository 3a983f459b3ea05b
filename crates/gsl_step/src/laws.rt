//! Laws of the definitions: calls that do nothing, whose contracts are the laws.

ghost use Rattle.std.specs.Prelude.{◌≡◌, ◌+◌, ◌<◌, ◌≤◌, ◌∷◌, List, ℕ, Some, drop, length, take, true};
ghost use Rattle.gsl_base.specs.declared.input.Input.{Input};
ghost use Rattle.gsl_frames.specs.Frames.{place};
ghost use Rattle.gsl_instr.specs.Instructions.{result_of};
ghost use Rattle.gsl_instr.specs.declared.instruction.Instruction.{Instruction};
ghost use Rattle.gsl_machine.specs.State.{State, Whole, give};
ghost use Rattle.gsl_operands.specs.Operands.{stands};
ghost use Rattle.gsl_region.specs.Flat.{flat};
ghost use Rattle.gsl_sound.specs.Sound.{Good};
ghost use Rattle.gsl_sound_types.specs.Typed.{Typed};
ghost use Rattle.gsl_sound_values.specs.Shaped.{is_shaped};
ghost use Rattle.gsl_step.specs.Machine.{IsShown, Puts};
ghost use Rattle.gsl_step.specs.declared.machine.Machine.{Machine};
ghost use Rattle.gsl_valid.specs.Instruction.{read};
ghost use Rattle.gsl_valid.specs.Kinds.{Gives, kind_of, type_of};
ghost use Rattle.gsl_valid.specs.Placed.{Placed};
ghost use Rattle.gsl_valid.specs.Types.{defined_as};
ghost use Rattle.gsl_valid.specs.Valid.{Valid};
ghost use Rattle.gsl_values.specs.declared.value.Value.{Value};
ghost use Rattle.gsl_words.specs.declared.module.Module.{Module};

/// In a valid module, where a machine shows a state, the words of the value that an id of a type stands for are those that stand where the words of the operand do.
pub fn operands_stand_in_slots()
    ensures bound { (m : Module) (id type : ℕ) → Valid m → type_of (defined_as m id) ≡ Some type → id < m.bound }
    ensures words { (m : Module) (input : Input) (machine : Machine) (state : State) (id type : ℕ) (v : Value) → Valid m → Typed m state → IsShown m machine state → type_of (defined_as m id) ≡ Some type → state.ids id ≡ Some (Whole v) → take (length (flat v)) (drop (stands m machine.standing.slots id) machine.slots) ≡ flat v }
{}

/// In a valid module, where a machine shows a state in which an instruction is next that gives an id of its block a value of its type, there is room for the words of the value at the place of
/// the id, and with them put there the machine shows the state behind the instruction, whatever choices are left.
pub fn values_are_put()
    ensures room { (m : Module) (input : Input) (machine : Machine) (state : State) (p : Placed) (more : List Placed) (d : Instruction) (id type : ℕ) (v : Value) → Valid m → Good m input state → Typed m state → IsShown m machine state → state.rest ≡ p ∷ more → read p.instr ≡ Some d → kind_of d ≡ Gives type → result_of d ≡ Some id → is_shaped m type v ≡ true → machine.standing.slots + place m id + length (flat v) ≤ length machine.slots }
    ensures shown { (m : Module) (input : Input) (machine next : Machine) (state : State) (p : Placed) (more : List Placed) (d : Instruction) (id type : ℕ) (v : Value) (later : List ℕ) → Valid m → Good m input state → Typed m state → IsShown m machine state → state.rest ≡ p ∷ more → read p.instr ≡ Some d → kind_of d ≡ Gives type → result_of d ≡ Some id → is_shaped m type v ≡ true → Puts machine (machine.standing.slots + place m id) (flat v) later next → IsShown m next (record state { rest = more; ids = give state.ids id (Whole v); choices = later }) }
{}
