//! Laws of the definitions: calls that do nothing, whose contracts are the laws.

ghost use Rattle.std.specs.Prelude.{◌≡◌, ℕ, None, false, length, true};
ghost use Rattle.gsl_base.specs.declared.input.Input.{Input};
ghost use Rattle.gsl_types.specs.Known.{IsSound};
ghost use Rattle.gsl_types.specs.declared.ty.Ty.{Ty};
ghost use Rattle.gsl_words.specs.declared.module.Module.{Module};
ghost use Rattle.gsl_tree.specs.Around.{Around};
ghost use Rattle.gsl_tree.specs.Shapes.{shape_of};
ghost use Rattle.gsl_tree.specs.Values.{is_value_of, zero_value};
ghost use Rattle.gsl_tree.specs.declared.program.Program.{Program};
ghost use Rattle.gsl_meaning.specs.Running.{given};
ghost use Rattle.gsl_valid.specs.Valid.{Valid};
ghost use Rattle.gsl_machine.specs.State.{Ids};
ghost use Rattle.gsl_spv.specs.Sections.{Sections};
ghost use Rattle.gsl_lower_expr.specs.Calls.{zeros};
ghost use Rattle.gsl_lower_text.specs.Written.{Lasts, Written};
ghost use Rattle.gsl_lower_follows.specs.Frames as name;
ghost use Rattle.gsl_lower_follows.specs.Frames.{Frame};
ghost use Rattle.gsl_lower_follows.specs.Giving.{GivesValue};
ghost use Rattle.gsl_lower_law_stmt.specs.OfLawNames.{IsNamed};
ghost use Rattle.gsl_lower_law_stmt.specs.Doing.{DoesStatement, declared, declared_means};
ghost use Rattle.gsl_lower_law_zeros.specs.Nulls.{KnowsZeros, Nulls};

/// In a valid module constants of null stand for zeros while a function runs.
pub fn nulls_are_said()
    ensures { (m : Module) (s : Sections) (own : Ids) → Valid m → Written m s → Lasts m own → Nulls m s own }
{}

/// Zeros of a type give the value of the type whose leaves are all zero.
pub fn zeros_give()
    ensures { (m : Module) (input : Input) (sections : Sections) (f : Frame m input sections) (p : Program) (around : Around) (t : Ty) → Nulls m sections f.own → (shape_of t ≡ None → KnowsZeros m p.structs t f.place) → IsSound (length p.structs) t → is_value_of p.structs t (zero_value p.structs t) ≡ true → GivesValue m input sections f p around false t (zeros t) (given (zero_value p.structs t)) }
{}

/// A local variable without an initialiser begins as zeros.
pub fn variables_begin_as_zeros()
    ensures { (m : Module) (input : Input) (sections : Sections) (f : Frame m input sections) (p : Program) (around : Around) (number : ℕ) (t : Ty) → Nulls m sections f.own → (shape_of t ≡ None → KnowsZeros m p.structs t f.place) → IsNamed p around (name.Local number) t → is_value_of p.structs t (zero_value p.structs t) ≡ true → DoesStatement m input sections f p around false (declared number (zeros t)) (declared_means number (given (zero_value p.structs t))) }
{}
