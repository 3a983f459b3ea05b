//! Laws of the definitions: calls that do nothing, whose contracts are the laws.

ghost use Rattle.std.specs.Prelude.{Bool, Some, false, length, true, ℕ, ◌≡◌};
ghost use Rattle.gsl_base.specs.declared.input.Input.{Input};
ghost use Rattle.gsl_types.specs.Known.{AreStructs, IsSound};
ghost use Rattle.gsl_types.specs.declared.ty.Ty.{Ty};
ghost use Rattle.gsl_words.specs.declared.module.Module.{Module};
ghost use Rattle.gsl_tree.specs.Around.{Around};
ghost use Rattle.gsl_tree.specs.Shapes.{Shape, shape_of};
ghost use Rattle.gsl_tree.specs.WellTyped.{is_push};
ghost use Rattle.gsl_tree.specs.declared.program.Program.{Program};
ghost use Rattle.gsl_meaning.specs.Accesses.{Access};
ghost use Rattle.gsl_meaning.specs.Running.{Got, Strays};
ghost use Rattle.gsl_meaning.specs.State as shader;
ghost use Rattle.gsl_machine.specs.State.{State};
ghost use Rattle.gsl_spv.specs.Sections.{Sections};
ghost use Rattle.gsl_lower_places.specs.Pointed.{to_renew};
ghost use Rattle.gsl_lower_places.specs.declared.reached.Reached.{Reached};
ghost use Rattle.gsl_lower_holders.specs.Flow.{Flow, lift};
ghost use Rattle.gsl_lower_follows.specs.Frames.{Frame, Good};
ghost use Rattle.gsl_lower_follows.specs.Giving.{Does, HasGiven, none_waits};
ghost use Rattle.gsl_lower_law_written.specs.OfLawStored.{KnowsBuffers};
ghost use Rattle.gsl_lower_law_written.specs.OfReaching.{IsBlockTrail, Start};
ghost use Rattle.gsl_lower_law_written.specs.OfReaching.{IsInside, IsOutside, MayWrite, Trail};
ghost use Rattle.gsl_lower_law_written.specs.OfWrites.{IsReady};
ghost use Rattle.gsl_lower_law_renewed.specs.Renewing.{renewed_read};

/// Before `op=`, `++` and `--`, a scalar or vector, or components of one, in a block that is none of push constants, where no component is picked twice, is made ready to be read and stored: whenever ids still stand for the same, what was given reads what the access does, and what is stored there is there for the shader too. Where the
/// trail leads out of bounds, what is made ready strays, or the read of it does.
pub fn places_in_blocks_are_made_ready()
    ensures inside { (m : Module) (input : Input) (sections : Sections) (f : Frame m input sections) (p : Program) (around : Around) → AreStructs p.structs → KnowsBuffers m input sections f p → (start : Start) (b : Flow) (s : shader.State) (state : State) (r : Reached) (l : Trail) → Good m input sections f p around b s state → (x : IsBlockTrail m input sections f p around false start b state r l) → is_push x.begins.block.kind ≡ false → (t : Ty) (a : Access) (shape : Shape) → IsSound (length p.structs) t → shape_of t ≡ Some shape → (writes : Bool) → IsInside p.structs p.blocks writes t a l → MayWrite true l.picks → (units : ℕ) → Does m input sections f p 0 units state (IsReady m input sections f p around t a b s state) none_waits (Got (tt {0}) s units) (lift (to_renew shape r) b) }
    ensures outside { (m : Module) (input : Input) (sections : Sections) (f : Frame m input sections) (p : Program) (around : Around) → AreStructs p.structs → (start : Start) (b : Flow) (s : shader.State) (state : State) (r : Reached) (l : Trail) → Good m input sections f p around b s state → IsBlockTrail m input sections f p around false start b state r l → (t : Ty) (shape : Shape) → shape_of t ≡ Some shape → (writes : Bool) → IsOutside p.structs p.blocks writes t l → (units : ℕ) → Does m input sections f p 0 units state (HasGiven m input sections f p around false t b state) none_waits Strays (renewed_read p.structs t shape r b) }
{}
