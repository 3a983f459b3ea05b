//! Laws of the definitions: calls that do nothing, whose contracts are the laws.

ghost use Rattle.std.specs.Prelude.{◌≡◌, ◌≢◌, ℕ, Bool, Option, false, length, true};
ghost use Rattle.gsl_base.specs.declared.input.Input.{Input};
ghost use Rattle.gsl_instr.specs.declared.enumerant.storage_class.TheConstants as storage_class;
ghost use Rattle.gsl_types.specs.Known.{AreStructs, IsSound};
ghost use Rattle.gsl_types.specs.declared.ty.Ty.{Ty};
ghost use Rattle.gsl_types.specs.declared.ty.Ty.TheVariants.{Void};
ghost use Rattle.gsl_words.specs.declared.module.Module.{Module};
ghost use Rattle.gsl_values.specs.Vectors.{components};
ghost use Rattle.gsl_values.specs.declared.lane.Lanes.{Lanes};
ghost use Rattle.gsl_values.specs.declared.value.Value.{Value};
ghost use Rattle.gsl_tree.specs.Around.{Around};
ghost use Rattle.gsl_tree.specs.Expressions.{HasPartType};
ghost use Rattle.gsl_tree.specs.Paths.{repeats};
ghost use Rattle.gsl_tree.specs.Shapes.{Shape};
ghost use Rattle.gsl_tree.specs.declared.program.Program.{Program};
ghost use Rattle.gsl_tree.specs.declared.unit.Interface.{Interface};
ghost use Rattle.gsl_meaning.specs.Accesses as access;
ghost use Rattle.gsl_meaning.specs.Accesses.{Access};
ghost use Rattle.gsl_meaning.specs.Expressions.{member_root};
ghost use Rattle.gsl_meaning.specs.Running.{Run, given};
ghost use Rattle.gsl_spv.specs.Sections.{Sections};
ghost use Rattle.gsl_lower_expr.specs.Parts.{Lower, in_block, interface_class, member, named, swizzled_by};
ghost use Rattle.gsl_lower_follows.specs.Frames as name;
ghost use Rattle.gsl_lower_follows.specs.Frames.{Frame};
ghost use Rattle.gsl_lower_follows.specs.Giving.{GivesValue};
ghost use Rattle.gsl_lower_law_names.specs.Named.{IsNamed};
ghost use Rattle.gsl_lower_reaching.specs.Reaching.{GivesPlace, KnowsMember, Start};
ghost use Rattle.gsl_lower_reaching.specs.Reaching.Start.{OfBlock, OfValue, OfVariable};
ghost use Rattle.gsl_lower_reaching.specs.Trails.{MayStore};
ghost use Rattle.gsl_lower_reaching.specs.Stepping.{Swizzles, held_code, held_means, member_means, swizzle_means};

/// The name of a local variable, a parameter, a global variable, an input or an output leads to its variable.
pub fn names_lead()
    ensures local { (m : Module) (input : Input) (sections : Sections) (f : Frame m input sections) (p : Program) (around : Around) (number : ℕ) (writes : Bool) (t : Ty) → IsNamed p around (name.Local number) t → GivesPlace m input sections f p around false OfVariable writes t (named (λ place. place.locals) storage_class.FUNCTION number) (given (access.whole (access.Local number))) }
    ensures param { (m : Module) (input : Input) (sections : Sections) (f : Frame m input sections) (p : Program) (around : Around) (number : ℕ) (writes : Bool) (t : Ty) → IsNamed p around (name.Param number) t → GivesPlace m input sections f p around false OfVariable writes t (named (λ place. place.params) storage_class.FUNCTION number) (given (access.whole (access.Param number))) }
    ensures global { (m : Module) (input : Input) (sections : Sections) (f : Frame m input sections) (p : Program) (around : Around) (number : ℕ) (writes : Bool) (t : Ty) → IsNamed p around (name.Global number) t → GivesPlace m input sections f p around false OfVariable writes t (named (λ place. place.globals) storage_class.PRIVATE number) (given (access.whole (access.Global number))) }
    ensures interface { (m : Module) (input : Input) (sections : Sections) (f : Frame m input sections) (p : Program) (around : Around) (number : ℕ) (i : Option Interface) (writes : Bool) (t : Ty) → IsNamed p around (name.Interface number) t → GivesPlace m input sections f p around false OfVariable writes t (named (λ place. place.interfaces) (interface_class i) number) (given (access.whole (access.Interface number))) }
{}

/// The name of a member of a block leads to that member, where the module and the function know the block. It may be written where the block is none of push constants.
pub fn blocks_lead()
    ensures { (m : Module) (input : Input) (sections : Sections) (f : Frame m input sections) (p : Program) (around : Around) (block number : ℕ) (writes : Bool) (t : Ty) → KnowsMember m input sections f p around block number t → (writes ≡ true → MayStore p.blocks (access.Block block)) → GivesPlace m input sections f p around false OfBlock writes t (in_block block number) (given (member_root block number)) }
{}

/// What gives a value leads to that value, which is in no variable, and is not written.
pub fn values_lead()
    ensures { (m : Module) (input : Input) (sections : Sections) (f : Frame m input sections) (p : Program) (around : Around) (t : Ty) (e : Lower) (run : Run Value) → t ≢ Void → IsSound (length p.structs) t → GivesValue m input sections f p around e.traits.splits t e.value run → GivesPlace m input sections f p around e.traits.splits OfValue false t (held_code t e) (held_means run) }
{}

/// A member leads to that member of what the struct leads to.
pub fn members_lead()
    ensures { (m : Module) (input : Input) (sections : Sections) (f : Frame m input sections) (p : Program) (around : Around) (splits : Bool) (loose : Start) (writes : Bool) (t : Ty) (number : ℕ) (a : Lower) (run : Run Access) → AreStructs p.structs → HasPartType p.structs a.ty number t → IsSound (length p.structs) t → GivesPlace m input sections f p around splits loose writes a.ty a.reach run → GivesPlace m input sections f p around splits loose writes t (member a number) (member_means number run) }
{}

/// A swizzle leads to the components at its positions of what the scalar or vector leads to, which may itself be a swizzle or a component; it may be written where
/// no component is picked twice.
pub fn swizzles_lead()
    ensures { (m : Module) (input : Input) (sections : Sections) (f : Frame m input sections) (p : Program) (around : Around) (splits : Bool) (loose : Start) (writes written : Bool) (t : Ty) (shape : Shape) (lanes : Lanes) (a : Lower) (run : Run Access) → Swizzles a.ty t shape (components lanes) → (written ≡ true → (writes ≡ true) × (repeats (components lanes) ≡ false)) → GivesPlace m input sections f p around splits loose writes a.ty a.reach run → GivesPlace m input sections f p around splits loose written t (swizzled_by a lanes) (swizzle_means lanes run) }
{}
