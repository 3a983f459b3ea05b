//! Laws of the definitions: calls that do nothing, whose contracts are the laws.

ghost use Rattle.std.specs.Prelude.{◌≡◌, ℕ, ◌+◌, [], ◌∷◌, List, Option, Some, None};
ghost use Rattle.gsl_words.specs.declared.module.Module.{Module};
ghost use Rattle.gsl_spv.specs.Calls.{declare, decorate, decorating, glsl_set, intern, name, naming, put, take};
ghost use Rattle.gsl_spv.specs.Declarations.{Declaration, defining, instr};
ghost use Rattle.gsl_spv.specs.Finished.{module_of};
ghost use Rattle.gsl_spv.specs.Sections.{Sections, empty};
ghost use Rattle.gsl_lower_values.specs.Building.{Step, behind, giving, id_by, putting};
ghost use Rattle.gsl_valid.specs.Search.{passed};
ghost use Rattle.gsl_base.specs.declared.stage.Stage.{Stage};
ghost use Rattle.gsl_words.specs.declared.target.Target.{Target};
ghost use Rattle.gsl_fitting_sections.specs.Sections.{AreSound, IsDeclaration, IsDecoration, IsName};
ghost use Rattle.gsl_fitting.specs.Fits.{Frame};
ghost use Rattle.gsl_fitting_steps.specs.Keeping.{DefinesOwed, Fine, IsWhole, Keeps, MayDeclare, Works, defined_by};

/// Two steps that keep the judgement do so in a row.
pub fn steps_join()
    ensures { (m : Module) (rank : ℕ → ℕ) (f : Frame) (given : List ℕ) (first : Step ℕ) (next : ℕ → Step ℕ) (between now : ℕ → List ℕ) (before : Sections) → Keeps m rank f given between before (first before) → ((a : ℕ) (s : Sections) → Keeps m rank f (between a) now s (next a s)) → Keeps m rank f given now before (behind (first before) next) }
{}

/// An instruction that gives a value under a new id, and one that gives none.
pub fn instructions_keep()
    ensures giving { (m : Module) (rank : ℕ → ℕ) (f : Frame) (given : List ℕ) (op : ℕ) (operands : List ℕ) (type : ℕ) (s : Sections) → Works m rank f given (instr op (type ∷ (s.last + 1) ∷ operands)) (Some (s.last + 1)) → Keeps m rank f given (λ id. id ∷ given) s (giving op operands type s) }
    ensures putting { (m : Module) (rank : ℕ → ℕ) (f : Frame) (given : List ℕ) (op : ℕ) (operands : List ℕ) (s : Sections) → Works m rank f given (instr op operands) None → Keeps m rank f given (λ nothing. given) s (putting op operands s) }
{}

/// Types and constants, which are declared once.
pub fn declarations_keep()
    ensures { (m : Module) (rank : ℕ → ℕ) (f : Frame) (given : List ℕ) (d : Declaration) (s : Sections) → MayDeclare m d s → Keeps m rank f given (λ id. given) s (id_by (intern d) s) }
{}

/// What a builder holds is fine at first, and stays so where an id is taken, where a label or another instruction is put that defines
/// nothing or an id that is owed, where something is declared anew, named or decorated, and where the extended instructions are imported.
pub fn builders_stay_fine()
    ensures begun { (m : Module) (stage : Stage) (target : Target) → Fine m (empty stage target) }
    ensures taking { (m : Module) (s : Sections) → Fine m s → Fine m (take s).sections }
    ensures putting { (m : Module) (op : ℕ) (args : List ℕ) (s : Sections) → DefinesOwed s (defined_by (instr op args)) → Fine m s → Fine m (put op args s) }
    ensures declaring { (m : Module) (d : Declaration) (s : Sections) → defined_by (defining d (s.last + 1)) ≡ Some (s.last + 1) → IsDeclaration m (passed [] s.globals) (defining d (s.last + 1)) → Fine m s → Fine m (declare d s).sections }
    ensures naming { (m : Module) (target : ℕ) (member : Option ℕ) (text : List ℕ) (s : Sections) → IsName m (naming target member text) → Fine m s → Fine m (name target member text s) }
    ensures decorating { (m : Module) (target : ℕ) (member : Option ℕ) (what : ℕ) (literal : Option ℕ) (s : Sections) → IsDecoration m (passed [] s.decorations) (decorating target member what literal) → Fine m s → Fine m (decorate target member what literal s) }
    ensures importing { (m : Module) (s : Sections) → Fine m s → Fine m (glsl_set s).sections }
{}

/// Sections that are fine in the module that they make, and whole, are sound.
pub fn fine_sections_are_sound()
    ensures { (s : Sections) (main : ℕ) (local_size : List ℕ) → Fine (module_of s main local_size) s → IsWhole s main local_size → AreSound s main local_size }
{}
