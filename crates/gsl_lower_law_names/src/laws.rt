//! Laws of the definitions: calls that do nothing, whose contracts are the laws.

ghost use Rattle.std.specs.Prelude.{◌≡◌, ℕ, Option, Some, false};
ghost use Rattle.gsl_base.specs.declared.input.Input.{Input};
ghost use Rattle.gsl_instr.specs.declared.enumerant.storage_class.TheConstants as storage_class;
ghost use Rattle.gsl_types.specs.declared.ty.Ty.{Ty};
ghost use Rattle.gsl_words.specs.declared.module.Module.{Module};
ghost use Rattle.gsl_values.specs.declared.value.Value.{Value};
ghost use Rattle.gsl_tree.specs.Around.{Around};
ghost use Rattle.gsl_tree.specs.Shapes.{Shape, shape_of};
ghost use Rattle.gsl_tree.specs.declared.program.Program.{Program};
ghost use Rattle.gsl_tree.specs.declared.unit.Interface.{Interface};
ghost use Rattle.gsl_meaning.specs.Accesses as access;
ghost use Rattle.gsl_meaning.specs.Running.{Run};
ghost use Rattle.gsl_spv.specs.Sections.{Sections};
ghost use Rattle.gsl_lower_traits.specs.declared.traits.Traits.{Traits};
ghost use Rattle.gsl_lower_law_expr.specs.OfExpr.{leading};
ghost use Rattle.gsl_lower_law_expr.specs.OfExpr.{Lower, accessed, assigned, interface_class, named};
ghost use Rattle.gsl_lower_follows.specs.Frames as name;
ghost use Rattle.gsl_lower_follows.specs.Frames.{Frame};
ghost use Rattle.gsl_lower_follows.specs.Giving.{GivesValue};
ghost use Rattle.gsl_lower_law_names.specs.Named.{IsNamed, assign_means, named_means};

/// The name of a local variable, a parameter, a global variable, an input or an output gives the value of its variable, whatever its type.
pub fn names_give()
    ensures local { (m : Module) (input : Input) (sections : Sections) (f : Frame m input sections) (p : Program) (around : Around) (number : ℕ) (t : Ty) → IsNamed p around (name.Local number) t → GivesValue m input sections f p around false t (accessed p.structs t (named (λ place. place.locals) storage_class.FUNCTION number)) (named_means p.structs t (access.Local number)) }
    ensures param { (m : Module) (input : Input) (sections : Sections) (f : Frame m input sections) (p : Program) (around : Around) (number : ℕ) (t : Ty) → IsNamed p around (name.Param number) t → GivesValue m input sections f p around false t (accessed p.structs t (named (λ place. place.params) storage_class.FUNCTION number)) (named_means p.structs t (access.Param number)) }
    ensures global { (m : Module) (input : Input) (sections : Sections) (f : Frame m input sections) (p : Program) (around : Around) (number : ℕ) (t : Ty) → IsNamed p around (name.Global number) t → GivesValue m input sections f p around false t (accessed p.structs t (named (λ place. place.globals) storage_class.PRIVATE number)) (named_means p.structs t (access.Global number)) }
    ensures interface { (m : Module) (input : Input) (sections : Sections) (f : Frame m input sections) (p : Program) (around : Around) (number : ℕ) (i : Option Interface) (t : Ty) → IsNamed p around (name.Interface number) t → GivesValue m input sections f p around false t (accessed p.structs t (named (λ place. place.interfaces) (interface_class i) number)) (named_means p.structs t (access.Interface number)) }
{}

/// An assignment to a variable of a scalar or vector type by its name stores the value of the right side, wherever it stands.
pub fn names_are_assigned()
    ensures local { (m : Module) (input : Input) (sections : Sections) (f : Frame m input sections) (p : Program) (around : Around) (number : ℕ) (t : Ty) (shape : Shape) (traits : Traits) (right : Lower) (y : Run Value) → IsNamed p around (name.Local number) t → shape_of t ≡ Some shape → right.ty ≡ t → GivesValue m input sections f p around right.traits.splits right.ty right.value y → GivesValue m input sections f p around right.traits.splits t (assigned p.structs (leading p.structs t (named (λ place. place.locals) storage_class.FUNCTION number) traits) right) (assign_means (access.Local number) y) }
    ensures param { (m : Module) (input : Input) (sections : Sections) (f : Frame m input sections) (p : Program) (around : Around) (number : ℕ) (t : Ty) (shape : Shape) (traits : Traits) (right : Lower) (y : Run Value) → IsNamed p around (name.Param number) t → shape_of t ≡ Some shape → right.ty ≡ t → GivesValue m input sections f p around right.traits.splits right.ty right.value y → GivesValue m input sections f p around right.traits.splits t (assigned p.structs (leading p.structs t (named (λ place. place.params) storage_class.FUNCTION number) traits) right) (assign_means (access.Param number) y) }
    ensures global { (m : Module) (input : Input) (sections : Sections) (f : Frame m input sections) (p : Program) (around : Around) (number : ℕ) (t : Ty) (shape : Shape) (traits : Traits) (right : Lower) (y : Run Value) → IsNamed p around (name.Global number) t → shape_of t ≡ Some shape → right.ty ≡ t → GivesValue m input sections f p around right.traits.splits right.ty right.value y → GivesValue m input sections f p around right.traits.splits t (assigned p.structs (leading p.structs t (named (λ place. place.globals) storage_class.PRIVATE number) traits) right) (assign_means (access.Global number) y) }
    ensures interface { (m : Module) (input : Input) (sections : Sections) (f : Frame m input sections) (p : Program) (around : Around) (number : ℕ) (i : Option Interface) (t : Ty) (shape : Shape) (traits : Traits) (right : Lower) (y : Run Value) → IsNamed p around (name.Interface number) t → shape_of t ≡ Some shape → right.ty ≡ t → GivesValue m input sections f p around right.traits.splits right.ty right.value y → GivesValue m input sections f p around right.traits.splits t (assigned p.structs (leading p.structs t (named (λ place. place.interfaces) (interface_class i) number) traits) right) (assign_means (access.Interface number) y) }
{}
