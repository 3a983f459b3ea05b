//! Laws of the definitions: calls that do nothing, whose contracts are the laws.

ghost use Rattle.std.specs.Prelude.{◌≡◌, ◌≢◌, ◌||◌, Bool, true};
ghost use Rattle.gsl_base.specs.declared.input.Input.{Input};
ghost use Rattle.gsl_types.specs.Known.{AreStructs};
ghost use Rattle.gsl_types.specs.declared.ty.Ty.{Ty};
ghost use Rattle.gsl_types.specs.declared.ty.Ty.TheVariants.{Void};
ghost use Rattle.gsl_words.specs.declared.module.Module.{Module};
ghost use Rattle.gsl_values.specs.declared.value.Value.{Value};
ghost use Rattle.gsl_tree.specs.Around.{Around};
ghost use Rattle.gsl_tree.specs.declared.program.Program.{Program};
ghost use Rattle.gsl_meaning.specs.Accesses.{Access};
ghost use Rattle.gsl_meaning.specs.Running.{Run};
ghost use Rattle.gsl_spv.specs.Sections.{Sections};
ghost use Rattle.gsl_lower_traits.specs.Traits.{spills};
ghost use Rattle.gsl_lower_expr.specs.Parts.{Lower, indexed, known_of};
ghost use Rattle.gsl_lower_follows.specs.Frames.{Frame};
ghost use Rattle.gsl_lower_follows.specs.Giving.{GivesValue};
ghost use Rattle.gsl_lower_reads.specs.OfElements.{Indexes, indexed_means};
ghost use Rattle.gsl_lower_reads.specs.OfReaching.{GivesPlace, Start, is_of_value};
ghost use Rattle.gsl_lower_indexes.specs.Computed.{CanTest, IsComputed, MayCall, spilled_to};

/// An index that is computed, and calls no function of the program, leads to that element or component of what the array or vector leads to, which is held where the
/// index has blocks, and put into a holder where it is an array in no variable. Where the index is out of bounds, the module strays: at once in a swizzle, and else as soon
/// as something is read or stored there.
pub fn indexes_lead()
    ensures { (m : Module) (input : Input) (sections : Sections) (f : Frame m input sections) (p : Program) (around : Around) (splits writes : Bool) (start : Start) (t : Ty) (a i : Lower) (run : Run Access) (index : Run Value) → AreStructs p.structs → is_of_value start ≡ a.traits.is_loose → Indexes p a.ty t → a.ty ≢ Void → i.ty ≢ Void → IsComputed i index → GivesValue m input sections f p around i.traits.splits i.ty i.value index → GivesPlace m input sections f p around splits start writes a.ty a.reach run → GivesPlace m input sections f p around (splits || i.traits.splits) (spilled_to (spills (known_of a) i.traits) start) writes t (indexed p.structs a i) (indexed_means run index) }
{}

/// An index that is computed leads so as well where it calls functions of the program, and may then end the invocation or never come to its end: before it calls, what is indexed is tested, and
/// the module strays where that leads out of bounds.
pub fn indexes_that_call_lead()
    ensures { (m : Module) (input : Input) (sections : Sections) (f : Frame m input sections) (p : Program) (around : Around) (splits writes : Bool) (start : Start) (t : Ty) (a i : Lower) (run : Run Access) (index : Run Value) → AreStructs p.structs → is_of_value start ≡ a.traits.is_loose → Indexes p a.ty t → a.ty ≢ Void → i.ty ≢ Void → MayCall i index → (i.traits.calls ≡ true → CanTest p a.ty run) → GivesValue m input sections f p around i.traits.splits i.ty i.value index → GivesPlace m input sections f p around splits start writes a.ty a.reach run → GivesPlace m input sections f p around (splits || i.traits.splits) (spilled_to (spills (known_of a) i.traits) start) writes t (indexed p.structs a i) (indexed_means run index) }
{}
