//! Laws of the definitions: calls that do nothing, whose contracts are the laws.

ghost use Rattle.std.specs.Prelude.{◌≡◌, ℕ, Some, false, length, true};
ghost use Rattle.gsl_base.specs.declared.input.Input.{Input};
ghost use Rattle.gsl_types.specs.Known.{AreStructs, IsSound};
ghost use Rattle.gsl_types.specs.declared.ty.Ty.{Ty};
ghost use Rattle.gsl_words.specs.declared.module.Module.{Module};
ghost use Rattle.gsl_values.specs.declared.value.Value.{Value};
ghost use Rattle.gsl_tree.specs.Around.{Around};
ghost use Rattle.gsl_tree.specs.Shapes.{Shape, shape_of};
ghost use Rattle.gsl_tree.specs.Values.{is_value_of};
ghost use Rattle.gsl_tree.specs.declared.program.Program.{Program};
ghost use Rattle.gsl_meaning.specs.Accesses.{Access, stored};
ghost use Rattle.gsl_meaning.specs.Running.{Got, Strays};
ghost use Rattle.gsl_meaning.specs.State as shader;
ghost use Rattle.gsl_machine.specs.State.{State};
ghost use Rattle.gsl_spv.specs.Sections.{Sections};
ghost use Rattle.gsl_lower_places.specs.Pointed.{to_renew};
ghost use Rattle.gsl_lower_places.specs.declared.reached.Reached.{Reached};
ghost use Rattle.gsl_lower_law.specs.Values.{Stands};
ghost use Rattle.gsl_lower_holders.specs.Flow.{Emit, Flow, lift};
ghost use Rattle.gsl_lower_expr.specs.Parts.{stores};
ghost use Rattle.gsl_lower_follows.specs.Frames.{Frame, Good};
ghost use Rattle.gsl_lower_follows.specs.Giving.{Adds, Does, none_waits};
ghost use Rattle.gsl_lower_law_spread.specs.OfLawStored.{KnowsBuffers};
ghost use Rattle.gsl_lower_law_spread.specs.OfReaching.{IsTrail, Start};
ghost use Rattle.gsl_lower_law_spread.specs.OfReaching.{OfBlock};
ghost use Rattle.gsl_lower_law_spread.specs.OfReaching.{IsInside, IsOutside, Trail};
ghost use Rattle.gsl_lower_law_renewed.specs.OfWrites.{IsReady};
ghost use Rattle.gsl_lower_law_renewed.specs.OfWrites.{IsWritten};
ghost use Rattle.gsl_lower_stores.specs.Making.{ready_for};

/// A value of whatever type is stored where an expression leads that may be written: in a variable, or in a block whose buffers are known. Where it leads out of bounds, the store strays.
pub fn places_are_written()
    ensures inside { (m : Module) (input : Input) (sections : Sections) (f : Frame m input sections) (p : Program) (around : Around) (loose : Start) (t : Ty) (value : ℕ) (v : Value) (a : Access) (l : Trail) (r : Reached) (units : ℕ) (b : Flow) (s : shader.State) (state : State) → AreStructs p.structs → (loose ≡ OfBlock → KnowsBuffers m input sections f p) → IsSound (length p.structs) t → Good m input sections f p around b s state → IsTrail m input sections f p around false loose b state r l → IsInside p.structs p.blocks true t a l → is_value_of p.structs t v ≡ true → Stands state.ids value v → Does m input sections f p 0 units state (IsWritten m input sections f p around b state) none_waits (Got tt (stored a v s) units) (stores p.structs t r value b) }
    ensures outside { (m : Module) (input : Input) (sections : Sections) (f : Frame m input sections) (p : Program) (around : Around) (loose : Start) (t : Ty) (value : ℕ) (v : Value) (l : Trail) (r : Reached) (units : ℕ) (b : Flow) (s : shader.State) (state : State) → AreStructs p.structs → IsSound (length p.structs) t → Good m input sections f p around b s state → IsTrail m input sections f p around false loose b state r l → IsOutside p.structs p.blocks true t l → is_value_of p.structs t v ≡ true → Stands state.ids value v → Does m input sections f p 0 units state (IsWritten m input sections f p around b state) none_waits Strays (stores p.structs t r value b) }
{}

/// Where a scalar or vector, or components of one, may be written, it is made ready to be read and stored, before `op=`, `++` and `--`. Where the expression leads out of bounds, what is made ready strays, or what is done with it does.
pub fn places_are_made_ready()
    ensures inside { (m : Module) (input : Input) (sections : Sections) (f : Frame m input sections) (p : Program) (around : Around) (loose : Start) (t : Ty) (shape : Shape) (a : Access) (l : Trail) (r : Reached) (units : ℕ) (b : Flow) (s : shader.State) (state : State) → AreStructs p.structs → (loose ≡ OfBlock → KnowsBuffers m input sections f p) → IsSound (length p.structs) t → shape_of t ≡ Some shape → Good m input sections f p around b s state → IsTrail m input sections f p around false loose b state r l → IsInside p.structs p.blocks true t a l → Does m input sections f p 0 units state (IsReady m input sections f p around t a b s state) none_waits (Got tt s units) (lift (to_renew shape r) b) }
    ensures outside { (m : Module) (input : Input) (sections : Sections) (f : Frame m input sections) (p : Program) (around : Around) (loose : Start) (t : Ty) (shape : Shape) (l : Trail) (r : Reached) (next : Reached → Emit (Unit {0})) (units : ℕ) (b : Flow) (s : shader.State) (state : State) → AreStructs p.structs → IsSound (length p.structs) t → shape_of t ≡ Some shape → Good m input sections f p around b s state → IsTrail m input sections f p around false loose b state r l → IsOutside p.structs p.blocks true t l → ((to : Reached) → Adds (next to)) → Does m input sections f p 0 units state (IsWritten m input sections f p around b state) none_waits Strays (next r b) → Does m input sections f p 0 units state (IsWritten m input sections f p around b state) none_waits Strays (ready_for shape r next b) }
{}
