//! Laws of the definitions: calls that do nothing, whose contracts are the laws.

ghost use Rattle.std.specs.Prelude.{Bool, None, false, length, ℕ, ◌≡◌};
ghost use Rattle.gsl_base.specs.declared.input.Input.{Input};
ghost use Rattle.gsl_types.specs.Known.{AreStructs, IsSound};
ghost use Rattle.gsl_types.specs.declared.ty.Ty.{Ty};
ghost use Rattle.gsl_words.specs.declared.module.Module.{Module};
ghost use Rattle.gsl_tree.specs.Around.{Around};
ghost use Rattle.gsl_tree.specs.Shapes.{shape_of};
ghost use Rattle.gsl_tree.specs.declared.program.Program.{Program};
ghost use Rattle.gsl_meaning.specs.Accesses.{Access, read};
ghost use Rattle.gsl_meaning.specs.Running.{Got, Run, Strays};
ghost use Rattle.gsl_meaning.specs.State as shader;
ghost use Rattle.gsl_machine.specs.State.{State};
ghost use Rattle.gsl_valid.specs.Valid.{Valid};
ghost use Rattle.gsl_spv.specs.Sections.{Sections};
ghost use Rattle.gsl_typed_law.specs.Plain.{ArePlain};
ghost use Rattle.gsl_lower_text.specs.Written.{Written};
ghost use Rattle.gsl_lower_places.specs.declared.reached.Reached.{Reached};
ghost use Rattle.gsl_lower_holders.specs.Flow.{Emit, Flow};
ghost use Rattle.gsl_lower_expr.specs.Parts.{accessed, reads};
ghost use Rattle.gsl_lower_follows.specs.Frames.{Frame, Good};
ghost use Rattle.gsl_lower_follows.specs.Giving.{Does, GivesValue, HasGiven, none_waits};
ghost use Rattle.gsl_lower_reads.specs.OfReaching.{GivesPlace, IsInside, IsOutside, IsTrail, Start, Trail};
ghost use Rattle.gsl_lower_reads.specs.Accessing.{accessed_means};
ghost use Rattle.gsl_lower_law_gathered.specs.Gathering.{AreShaped, HasValues};

/// What leads to a variable, a value, a block or a part of one gives the value that is read there, whatever its type: a struct or an array of a block is copied leaf by leaf into a variable of the function, and is read there whole. Where it leads out of bounds, the first leaf strays.
pub fn composites_of_blocks_are_read()
    ensures { (m : Module) (input : Input) (sections : Sections) (f : Frame m input sections) (p : Program) (around : Around) → Valid m → Written m sections → AreShaped m input sections f p around → AreStructs p.structs → ArePlain p.structs → (splits : Bool) (start : Start) (writes : Bool) (t : Ty) (reach : Emit Reached) (run : Run Access) → IsSound (length p.structs) t → (shape_of t ≡ None → HasValues m p.structs f.place t) → GivesPlace m input sections f p around splits start writes t reach run → GivesValue m input sections f p around splits t (accessed p.structs t reach) (accessed_means p.structs t run) }
{}

/// So is it of what was reached, where a trail leads in a state: the value that is read there is given, and nothing else has changed. Where the trail leads out of bounds, the read strays.
pub fn trails_are_read()
    ensures inside { (m : Module) (input : Input) (sections : Sections) (f : Frame m input sections) (p : Program) (around : Around) → Valid m → Written m sections → AreShaped m input sections f p around → AreStructs p.structs → ArePlain p.structs → (start : Start) (writes : Bool) (t : Ty) → IsSound (length p.structs) t → (shape_of t ≡ None → HasValues m p.structs f.place t) → (b : Flow) (s : shader.State) (state : State) (r : Reached) (l : Trail) (a : Access) (units : ℕ) → Good m input sections f p around b s state → IsTrail m input sections f p around false start b state r l → IsInside p.structs p.blocks writes t a l → Does m input sections f p 0 units state (HasGiven m input sections f p around false t b state) none_waits (Got (read p.structs t a s) s units) (reads p.structs t r b) }
    ensures outside { (m : Module) (input : Input) (sections : Sections) (f : Frame m input sections) (p : Program) (around : Around) → Valid m → Written m sections → AreShaped m input sections f p around → AreStructs p.structs → ArePlain p.structs → (start : Start) (writes : Bool) (t : Ty) → IsSound (length p.structs) t → (shape_of t ≡ None → HasValues m p.structs f.place t) → (b : Flow) (s : shader.State) (state : State) (r : Reached) (l : Trail) (units : ℕ) → Good m input sections f p around b s state → IsTrail m input sections f p around false start b state r l → IsOutside p.structs p.blocks writes t l → Does m input sections f p 0 units state (HasGiven m input sections f p around false t b state) none_waits Strays (reads p.structs t r b) }
{}
