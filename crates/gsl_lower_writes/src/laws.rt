//! Laws of the definitions: calls that do nothing, whose contracts are the laws.

ghost use Rattle.std.specs.Prelude.{◌≡◌, ℕ, false, length, true};
ghost use Rattle.gsl_base.specs.declared.input.Input.{Input};
ghost use Rattle.gsl_types.specs.Known.{AreStructs, IsSound};
ghost use Rattle.gsl_types.specs.declared.ty.Ty.{Ty};
ghost use Rattle.gsl_words.specs.declared.module.Module.{Module};
ghost use Rattle.gsl_values.specs.declared.value.Value.{Value};
ghost use Rattle.gsl_tree.specs.Around.{Around};
ghost use Rattle.gsl_tree.specs.Values.{is_value_of};
ghost use Rattle.gsl_tree.specs.declared.program.Program.{Program};
ghost use Rattle.gsl_meaning.specs.Accesses.{Access, stored};
ghost use Rattle.gsl_meaning.specs.Running.{Got, Strays};
ghost use Rattle.gsl_meaning.specs.State as shader;
ghost use Rattle.gsl_machine.specs.State.{State};
ghost use Rattle.gsl_spv.specs.Sections.{Sections};
ghost use Rattle.gsl_lower_places.specs.declared.reached.Reached.{Reached};
ghost use Rattle.gsl_lower_law.specs.Values.{Stands};
ghost use Rattle.gsl_lower_holders.specs.Flow.{Flow};
ghost use Rattle.gsl_lower_expr.specs.Parts.{stores};
ghost use Rattle.gsl_lower_follows.specs.Frames.{Frame, Good};
ghost use Rattle.gsl_lower_follows.specs.Giving.{Does, none_waits};
ghost use Rattle.gsl_lower_reads.specs.OfReaching.{IsOwnTrail, Start};
ghost use Rattle.gsl_lower_reads.specs.OfReaching.{IsInside, IsOutside, Trail};
ghost use Rattle.gsl_lower_writes.specs.Written.{IsWritten};

/// A value of whatever type is stored where an expression leads in a variable: whole variables, members, elements, and the components that are picked by positions or by
/// a word, of which the others stay. Where it leads out of bounds, the store strays.
pub fn places_are_stored()
    ensures inside { (m : Module) (input : Input) (sections : Sections) (f : Frame m input sections) (p : Program) (around : Around) (loose : Start) (t : Ty) (value : ℕ) (v : Value) (a : Access) (l : Trail) (r : Reached) (units : ℕ) (b : Flow) (s : shader.State) (state : State) → AreStructs p.structs → IsSound (length p.structs) t → Good m input sections f p around b s state → IsOwnTrail m input sections f p around false loose b state r l → IsInside p.structs p.blocks true t a l → is_value_of p.structs t v ≡ true → Stands state.ids value v → Does m input sections f p 0 units state (IsWritten m input sections f p around b state) none_waits (Got tt (stored a v s) units) (stores p.structs t r value b) }
    ensures outside { (m : Module) (input : Input) (sections : Sections) (f : Frame m input sections) (p : Program) (around : Around) (loose : Start) (t : Ty) (value : ℕ) (v : Value) (l : Trail) (r : Reached) (units : ℕ) (b : Flow) (s : shader.State) (state : State) → AreStructs p.structs → IsSound (length p.structs) t → Good m input sections f p around b s state → IsOwnTrail m input sections f p around false loose b state r l → IsOutside p.structs p.blocks true t l → is_value_of p.structs t v ≡ true → Stands state.ids value v → Does m input sections f p 0 units state (IsWritten m input sections f p around b state) none_waits Strays (stores p.structs t r value b) }
{}
