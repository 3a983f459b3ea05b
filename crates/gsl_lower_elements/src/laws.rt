//! Laws of the definitions: calls that do nothing, whose contracts are the laws.

ghost use Rattle.std.specs.Prelude.{◌≡◌, ◌<◌, ◌||◌, ℕ, Bool, false, true};
ghost use Rattle.gsl_base.specs.declared.input.Input.{Input};
ghost use Rattle.gsl_types.specs.Known.{AreStructs};
ghost use Rattle.gsl_types.specs.declared.ty.Ty.{Ty};
ghost use Rattle.gsl_words.specs.declared.module.Module.{Module};
ghost use Rattle.gsl_values.specs.declared.value.Value.{Value};
ghost use Rattle.gsl_tree.specs.Around.{Around};
ghost use Rattle.gsl_tree.specs.Operations.{has_fixed_length, length_of};
ghost use Rattle.gsl_tree.specs.declared.program.Program.{Program};
ghost use Rattle.gsl_meaning.specs.Accesses.{Access};
ghost use Rattle.gsl_meaning.specs.Running.{Run};
ghost use Rattle.gsl_spv.specs.Sections.{Sections};
ghost use Rattle.gsl_lower_expr.specs.Parts.{Lower, indexed};
ghost use Rattle.gsl_lower_follows.specs.Frames.{Frame};
ghost use Rattle.gsl_lower_reaching.specs.Reaching.{GivesPlace, Start};
ghost use Rattle.gsl_lower_elements.specs.Indexes.{Indexes, IsLiteral, indexed_means};

/// An index that is a literal, and in range where the type tells a length, leads to that element or component of what the array or vector leads to, which may itself be a swizzle.
pub fn literals_lead()
    ensures { (m : Module) (input : Input) (sections : Sections) (f : Frame m input sections) (p : Program) (around : Around) (splits : Bool) (loose : Start) (writes : Bool) (t : Ty) (number : ℕ) (a i : Lower) (run : Run Access) (index : Run Value) → AreStructs p.structs → Indexes p a.ty t → IsLiteral i number index → (has_fixed_length a.ty ≡ true → number < length_of a.ty) → GivesPlace m input sections f p around splits loose writes a.ty a.reach run → GivesPlace m input sections f p around (splits || false) loose writes t (indexed p.structs a i) (indexed_means run index) }
{}
