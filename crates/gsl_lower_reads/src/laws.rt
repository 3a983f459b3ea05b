//! Laws of the definitions: calls that do nothing, whose contracts are the laws.

ghost use Rattle.std.specs.Prelude.{◌≡◌, ℕ, Bool, None, true, false, length};
ghost use Rattle.gsl_base.specs.declared.input.Input.{Input};
ghost use Rattle.gsl_types.specs.Known.{AreStructs, IsSound};
ghost use Rattle.gsl_types.specs.declared.ty.Ty.{Ty};
ghost use Rattle.gsl_words.specs.declared.module.Module.{Module};
ghost use Rattle.gsl_values.specs.declared.value.Value.{Value};
ghost use Rattle.gsl_tree.specs.Around.{Around};
ghost use Rattle.gsl_tree.specs.Shapes.{shape_of};
ghost use Rattle.gsl_tree.specs.Values.{is_value_of};
ghost use Rattle.gsl_tree.specs.declared.program.Program.{Program};
ghost use Rattle.gsl_meaning.specs.Accesses.{Access};
ghost use Rattle.gsl_meaning.specs.Running.{Got, Run, Strays};
ghost use Rattle.gsl_meaning.specs.State as shader;
ghost use Rattle.gsl_machine.specs.State.{State};
ghost use Rattle.gsl_spv.specs.Sections.{Sections};
ghost use Rattle.gsl_lower_places.specs.declared.reached.Reached.{Reached};
ghost use Rattle.gsl_lower_holders.specs.Flow.{Emit, Flow, lift};
ghost use Rattle.gsl_lower_holders.specs.Waiting.{fetch_reached, hold_reached};
ghost use Rattle.gsl_lower_expr.specs.Parts.{accessed, probe};
ghost use Rattle.gsl_lower_follows.specs.Frames.{Frame, Good};
ghost use Rattle.gsl_lower_follows.specs.Giving.{Does, GivesValue, none_waits};
ghost use Rattle.gsl_lower_elements.specs.OfReaching.{GivesPlace, IsTrail, Start};
ghost use Rattle.gsl_lower_elements.specs.OfReaching.{OfBlock};
ghost use Rattle.gsl_lower_elements.specs.OfReaching.{IsInside, IsOutside, Trail};
ghost use Rattle.gsl_lower_reads.specs.Accessing.{accessed_means};
ghost use Rattle.gsl_lower_reads.specs.Testing.{IsTested};
ghost use Rattle.gsl_lower_reads.specs.Waiting.{IsKept};

/// What leads to a variable, a value, a block or a part of one gives the value that is read there, and strays where it leads out of bounds: whatever its type outside blocks, and scalars and vectors of blocks.
pub fn places_give()
    ensures { (m : Module) (input : Input) (sections : Sections) (f : Frame m input sections) (p : Program) (around : Around) (splits : Bool) (loose : Start) (writes : Bool) (t : Ty) (reach : Emit Reached) (run : Run Access) → AreStructs p.structs → IsSound (length p.structs) t → (shape_of t ≡ None → loose ≡ OfBlock → ⊥) → GivesPlace m input sections f p around splits loose writes t reach run → GivesValue m input sections f p around splits t (accessed p.structs t reach) (accessed_means p.structs t run) }
{}

/// Where an expression leads waits while blocks end: the ids in it are kept in holders, and nothing else is done.
pub fn places_wait()
    ensures { (m : Module) (input : Input) (sections : Sections) (f : Frame m input sections) (p : Program) (around : Around) (waits : Bool) (loose : Start) (r : Reached) (l : Trail) (units : ℕ) (b : Flow) (s : shader.State) (state : State) → Good m input sections f p around b s state → IsTrail m input sections f p around false loose b state r l → Does m input sections f p 0 units state (IsKept m input sections f p around waits loose l s b state) none_waits (Got tt s units) (hold_reached waits r b) }
{}

/// It is there again.
pub fn places_are_fetched()
    ensures { (m : Module) (input : Input) (sections : Sections) (f : Frame m input sections) (p : Program) (around : Around) (waits : Bool) (loose : Start) (r : Reached) (l : Trail) (units : ℕ) (b : Flow) (s : shader.State) (state : State) → Good m input sections f p around b s state → IsTrail m input sections f p around waits loose b state r l → Does m input sections f p 0 units state (IsKept m input sections f p around false loose l s b state) none_waits (Got tt s units) (fetch_reached waits r b) }
{}

/// Indexes on the way to a place are tested there: where all are in bounds, nothing is done, and else the module strays at once.
pub fn places_are_tested()
    ensures inside { (m : Module) (input : Input) (sections : Sections) (f : Frame m input sections) (p : Program) (around : Around) (loose : Start) (writes : Bool) (t : Ty) (r : Reached) (l : Trail) (units : ℕ) (b : Flow) (s : shader.State) (state : State) (calls : Bool) (a : Access) → AreStructs p.structs → IsSound (length p.structs) t → Good m input sections f p around b s state → IsTrail m input sections f p around false loose b state r l → IsInside p.structs p.blocks writes t a l → Does m input sections f p 0 units state (IsTested m input sections f p around b s state) none_waits (Got tt s units) (lift (probe p.structs calls t r) b) }
    ensures outside { (m : Module) (input : Input) (sections : Sections) (f : Frame m input sections) (p : Program) (around : Around) (loose : Start) (writes : Bool) (t : Ty) (r : Reached) (l : Trail) (units : ℕ) (b : Flow) (s : shader.State) (state : State) (v : Value) → AreStructs p.structs → IsSound (length p.structs) t → Good m input sections f p around b s state → IsTrail m input sections f p around false loose b state r l → IsOutside p.structs p.blocks writes t l → is_value_of p.structs t v ≡ true → Does m input sections f p 0 units state (IsTested m input sections f p around b s state) none_waits Strays (lift (probe p.structs true t r) b) }
{}
