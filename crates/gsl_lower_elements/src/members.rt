//! Laws of the definitions: calls that do nothing, whose contracts are the laws.

ghost use Rattle.std.specs.Prelude.{◌≡◌, ℕ, Bool, true, false, Some, None, length};
ghost use Rattle.gsl_base.specs.declared.input.Input.{Input};
ghost use Rattle.gsl_types.specs.Known.{AreStructs, IsSound};
ghost use Rattle.gsl_types.specs.declared.ty.Scalar.TheVariants.{Int};
ghost use Rattle.gsl_types.specs.declared.ty.Ty.{Ty};
ghost use Rattle.gsl_types.specs.declared.ty.Ty.TheVariants.{One};
ghost use Rattle.gsl_types.specs.declared.ty.Ty.TheViews.{out-Ty};
ghost use Rattle.gsl_words.specs.declared.module.Module.{Module};
ghost use Rattle.gsl_values.specs.declared.value.Value.TheVariants.{Word};
ghost use Rattle.gsl_tree.specs.Around.{Around};
ghost use Rattle.gsl_tree.specs.Expressions.{element_of, is_runtime_layer};
ghost use Rattle.gsl_tree.specs.Operations.{length_of};
ghost use Rattle.gsl_tree.specs.Shapes.{Shape, shape_of};
ghost use Rattle.gsl_tree.specs.Values.{is_value_of};
ghost use Rattle.gsl_tree.specs.declared.program.Program.{Program};
ghost use Rattle.gsl_views.specs.Viewed.{elements};
ghost use Rattle.gsl_meaning.specs.Accesses.{Access, parts_at, read as means_read};
ghost use Rattle.gsl_meaning.specs.Expressions.{block_parts};
ghost use Rattle.gsl_meaning.specs.Running.{told_by};
ghost use Rattle.gsl_meaning.specs.State as shader;
ghost use Rattle.gsl_machine.specs.State.{Ids, State};
ghost use Rattle.gsl_spv.specs.Sections.{Sections};
ghost use Rattle.gsl_lower_places.specs.Pointed.{pointed};
ghost use Rattle.gsl_lower_places.specs.Reading.{read};
ghost use Rattle.gsl_lower_places.specs.declared.reached.Reached.{Reached};
ghost use Rattle.gsl_lower_law.specs.Computing.{Computes, Does};
ghost use Rattle.gsl_lower_law.specs.Straying.{Strays};
ghost use Rattle.gsl_lower_reaching.specs.OfLawMembers.{laid_as};
ghost use Rattle.gsl_lower_reaching.specs.OfLawMembers.{size_of};
ghost use Rattle.gsl_lower_holders.specs.Flow.{Flow};
ghost use Rattle.gsl_lower_expr.specs.Parts.{block_length};
ghost use Rattle.gsl_lower_follows.specs.Frames.{Frame, Good};
ghost use Rattle.gsl_lower_follows.specs.Giving.{GivesValue};
ghost use Rattle.gsl_lower_reaching.specs.Reaching.{IsBlockTrail, KnowsMember, Start};
ghost use Rattle.gsl_lower_reaching.specs.Trails.{IsInside, IsOutside, Trail};

/// An index into an array of a block may name as many elements as lie there in its bytes; one into a vector as many components as it has.
pub fn members_are_counted()
    ensures row { (m : Module) (input : Input) (sections : Sections) (f : Frame m input sections) (p : Program) (around : Around) (start : Start) (writes : Bool) (b : Flow) (s : shader.State) (state : State) (r : Reached) (l : Trail) (t element : Ty) (a : Access) (x : IsBlockTrail m input sections f p around false start b state r l) → AreStructs p.structs → Good m input sections f p around b s state → IsInside p.structs p.blocks writes t a l → shape_of t ≡ None → element_of t ≡ Some element → parts_at a s ≡ elements (laid_as x.begins.block.std140 p.structs l.ty) x.begins.offset (size_of m input x.begins.id) }
    ensures run { (m : Module) (input : Input) (sections : Sections) (f : Frame m input sections) (p : Program) (around : Around) (start : Start) (writes : Bool) (b : Flow) (s : shader.State) (state : State) (r : Reached) (l : Trail) (t element : Ty) (shape : Shape) (a : Access) → IsBlockTrail m input sections f p around false start b state r l → AreStructs p.structs → Good m input sections f p around b s state → IsInside p.structs p.blocks writes t a l → IsSound (length p.structs) t → shape_of t ≡ Some shape → element_of t ≡ Some element → parts_at a s ≡ length_of t }
{}

/// A scalar or vector of a block, or components that are picked of one, give what is read there, which is of the type.
pub fn members_are_read()
    ensures computes { (m : Module) (input : Input) (sections : Sections) (f : Frame m input sections) (p : Program) (around : Around) (start : Start) (writes : Bool) (b : Flow) (s : shader.State) (state : State) (r : Reached) (l : Trail) (t : Ty) (shape : Shape) (a : Access) → IsBlockTrail m input sections f p around false start b state r l → AreStructs p.structs → Good m input sections f p around b s state → IsInside p.structs p.blocks writes t a l → IsSound (length p.structs) t → shape_of t ≡ Some shape → Computes m input sections (means_read p.structs t a s, state.choices) state b.sections (read shape r) }
    ensures typed { (m : Module) (input : Input) (sections : Sections) (f : Frame m input sections) (p : Program) (around : Around) (start : Start) (writes : Bool) (b : Flow) (s : shader.State) (state : State) (r : Reached) (l : Trail) (t : Ty) (shape : Shape) (a : Access) → IsBlockTrail m input sections f p around false start b state r l → AreStructs p.structs → Good m input sections f p around b s state → IsInside p.structs p.blocks writes t a l → IsSound (length p.structs) t → shape_of t ≡ Some shape → is_value_of p.structs t (means_read p.structs t a s) ≡ true }
{}

/// Where an index was out of bounds, what is read there strays.
pub fn members_stray()
    ensures { (m : Module) (input : Input) (sections : Sections) (f : Frame m input sections) (p : Program) (around : Around) (start : Start) (writes : Bool) (b : Flow) (s : shader.State) (state : State) (r : Reached) (l : Trail) (t : Ty) (shape : Shape) → IsBlockTrail m input sections f p around false start b state r l → AreStructs p.structs → Good m input sections f p around b s state → IsOutside p.structs p.blocks writes t l → Strays m input sections state b.sections (read shape r) }
{}

/// One pointer leads to a scalar or vector of a block, or to the components that are picked of it; where an index was out of bounds, it strays.
pub fn members_are_pointed_to()
    ensures inside { (m : Module) (input : Input) (sections : Sections) (f : Frame m input sections) (p : Program) (around : Around) (start : Start) (writes : Bool) (b : Flow) (s : shader.State) (state : State) (r : Reached) (l : Trail) (t : Ty) (shape : Shape) (a : Access) → IsBlockTrail m input sections f p around false start b state r l → AreStructs p.structs → Good m input sections f p around b s state → IsInside p.structs p.blocks writes t a l → IsSound (length p.structs) t → shape_of t ≡ Some shape → Does m input sections (λ (to : Reached) (ids : Ids). Unit {0}) state.choices state b.sections (pointed shape r) }
    ensures outside { (m : Module) (input : Input) (sections : Sections) (f : Frame m input sections) (p : Program) (around : Around) (start : Start) (writes : Bool) (b : Flow) (s : shader.State) (state : State) (r : Reached) (l : Trail) (t : Ty) (shape : Shape) → IsBlockTrail m input sections f p around false start b state r l → AreStructs p.structs → Good m input sections f p around b s state → IsOutside p.structs p.blocks writes t l → Strays m input sections state b.sections (pointed shape r) }
{}

/// `.length()` of a runtime array that is a member of a block gives the count of the elements that lie in its bytes.
pub fn lengths_are_counted()
    ensures { (m : Module) (input : Input) (sections : Sections) (f : Frame m input sections) (p : Program) (around : Around) (block number : ℕ) (t : Ty) → AreStructs p.structs → KnowsMember m input sections f p around block number t → is_runtime_layer (out-Ty t) ≡ true → GivesValue m input sections f p around false (One Int) (block_length block number) (told_by (λ s. Word (block_parts block number s))) }
{}
