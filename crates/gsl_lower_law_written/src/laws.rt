//! Laws of the definitions: calls that do nothing, whose contracts are the laws.

ghost use Rattle.std.specs.Prelude.{Bool, Some, false, length, true, ℕ, ◌≡◌};
ghost use Rattle.gsl_base.specs.declared.input.Input.{Input};
ghost use Rattle.gsl_types.specs.Known.{AreStructs, IsSound};
ghost use Rattle.gsl_types.specs.declared.ty.Ty.{Ty};
ghost use Rattle.gsl_words.specs.declared.module.Module.{Module};
ghost use Rattle.gsl_values.specs.declared.value.Value.{Value};
ghost use Rattle.gsl_tree.specs.Around.{Around};
ghost use Rattle.gsl_tree.specs.Shapes.{Shape, shape_of};
ghost use Rattle.gsl_tree.specs.Values.{is_value_of};
ghost use Rattle.gsl_tree.specs.WellTyped.{is_push};
ghost use Rattle.gsl_tree.specs.declared.program.Program.{Program};
ghost use Rattle.gsl_meaning.specs.Accesses.{Access, stored};
ghost use Rattle.gsl_meaning.specs.Running.{Got, Strays};
ghost use Rattle.gsl_meaning.specs.State as shader;
ghost use Rattle.gsl_machine.specs.State.{State};
ghost use Rattle.gsl_spv.specs.Sections.{Sections};
ghost use Rattle.gsl_lower_holders.specs.Flow.{Flow};
ghost use Rattle.gsl_lower_places.specs.declared.reached.Reached.{Reached};
ghost use Rattle.gsl_lower_expr.specs.Parts.{stores};
ghost use Rattle.gsl_lower_law.specs.Values.{Stands};
ghost use Rattle.gsl_lower_follows.specs.Frames.{Frame, Good};
ghost use Rattle.gsl_lower_follows.specs.Giving.{After, Does, none_waits};
ghost use Rattle.gsl_lower_law_stored.specs.Buffers.{KnowsBuffers};
ghost use Rattle.gsl_lower_writes.specs.OfReaching.{IsBlockTrail, Start};
ghost use Rattle.gsl_lower_writes.specs.OfReaching.{IsInside, IsOutside, MayWrite, Trail};

/// A scalar or vector, or components of one by positions or by a word, are stored where a trail leads in a block that is none of push constants, where no component is stored twice: the module's state is that of the shader then, in the same block, ids stand for what they did, and the holders that were in use are as they were. Where the trail leads
/// out of bounds, the store strays.
pub fn shapes_of_blocks_are_written()
    ensures inside { (m : Module) (input : Input) (sections : Sections) (f : Frame m input sections) (p : Program) (around : Around) → AreStructs p.structs → KnowsBuffers m input sections f p → (start : Start) (b : Flow) (s : shader.State) (state : State) (r : Reached) (l : Trail) → Good m input sections f p around b s state → (x : IsBlockTrail m input sections f p around false start b state r l) → is_push x.begins.block.kind ≡ false → (t : Ty) (a : Access) (shape : Shape) → IsSound (length p.structs) t → shape_of t ≡ Some shape → (writes : Bool) → IsInside p.structs p.blocks writes t a l → MayWrite true l.picks → (value : ℕ) (v : Value) → is_value_of p.structs t v ≡ true → Stands state.ids value v → (units : ℕ) → Does m input sections f p 0 units state (λ done later one u last. After m input sections f p around false b state later u last) none_waits (Got (tt {0}) (stored a v s) units) (stores p.structs t r value b) }
    ensures outside { (m : Module) (input : Input) (sections : Sections) (f : Frame m input sections) (p : Program) (around : Around) → AreStructs p.structs → (start : Start) (b : Flow) (s : shader.State) (state : State) (r : Reached) (l : Trail) → Good m input sections f p around b s state → (x : IsBlockTrail m input sections f p around false start b state r l) → (t : Ty) (shape : Shape) → IsSound (length p.structs) t → shape_of t ≡ Some shape → (writes : Bool) → IsOutside p.structs p.blocks writes t l → MayWrite true l.picks → (value : ℕ) (v : Value) → is_value_of p.structs t v ≡ true → Stands state.ids value v → (units : ℕ) → Does m input sections f p 0 units state (λ done later (one : Unit {0}) u last. After m input sections f p around false b state later u last) none_waits Strays (stores p.structs t r value b) }
{}
