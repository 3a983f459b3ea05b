//! Laws of the definitions: calls that do nothing, whose contracts are the laws.

ghost use Rattle.std.specs.Prelude.{◌≡◌, ◌<◌, ◌≤◌, ◌^◌, ℕ, List, [], ◌∷◌, length, Option, Some};
ghost use Rattle.std.specs.List.{AllByRecursion, Contains};
ghost use Rattle.gsl_instr.specs.Strings.{IsText};
ghost use Rattle.gsl_words.specs.declared.module.Instr.{Instr};
ghost use Rattle.gsl_words.specs.Instructions.{HasFile, IsInTable};
ghost use Rattle.gsl_spv.specs.declared.plain.PlainType.{PlainType};
ghost use Rattle.gsl_spv.specs.declared.plain.PlainType.TheVariants as plain;
ghost use Rattle.gsl_spv.specs.declared.plain.PlainConst.{PlainConst};
ghost use Rattle.gsl_spv.specs.Calls as calls;
ghost use Rattle.gsl_spv.specs.Declarations as d;
ghost use Rattle.gsl_spv.specs.Declarations.{Declaration, defining};
ghost use Rattle.gsl_spv.specs.Once.{IsOnce, id_of, interface_of};
ghost use Rattle.gsl_spv.specs.Sections.{Sections};
ghost use Rattle.gsl_spv.specs.Growing.{AreOnce, Defines, Extends, IsDefined, all_of};
ghost use Rattle.gsl_spv.specs.Finished.{module_of};

/// Plain types, function types and constants are declared once.
pub fn what_is_once()
    ensures plain_type { (ty : PlainType) → IsOnce (d.plain_type ty) }
    ensures function_type { (returned : ℕ) (params : List ℕ) → IsOnce (d.function_type returned params) }
    ensures constant { (what : PlainConst) (truths : ℕ) → IsOnce (calls.constant_by what truths) }
    ensures composite { (ty : ℕ) (parts : List ℕ) → IsOnce (d.composite ty parts) }
{}

/// Where nothing is declared twice, equal types and constants have one id.
pub fn one_id()
    ensures { (code : List Instr) (d : Declaration) (a b : ℕ) → AreOnce code → IsOnce d → Contains code (defining d a) → Contains code (defining d b) → a ≡ b }
{}

/// Sections that grew grow on.
pub fn growing_on()
    ensures { (before between after : Sections) → Extends before between → Extends between after → Extends before after }
{}

/// What is defined stays so, in the module that is made too; what is declared once is found under its id from then
/// on.
pub fn definitions_last()
    ensures extends { (before after : Sections) (id : ℕ) (i : Instr) → Extends before after → Defines (all_of before) id i → Defines (all_of after) id i }
    ensures interned { (d : Declaration) (s : Sections) → IsOnce d → id_of d (calls.intern d s).sections.globals ≡ Some (calls.intern d s).id }
    ensures known { (before after : Sections) (d : Declaration) (id : ℕ) → Extends before after → id_of d before.globals ≡ Some id → id_of d after.globals ≡ Some id }
    ensures finish { (s : Sections) (main : ℕ) (local_size : List ℕ) (id : ℕ) (i : Instr) → Defines (all_of s) id i → Defines (module_of s main local_size).instrs id i }
{}

/// What each call answers is defined in the sections then.
pub fn answers_are_defined()
    ensures plain_type { (ty : PlainType) (s : Sections) → IsDefined (d.plain_type ty) (calls.plain_type ty s) }
    ensures function_type { (returned : ℕ) (params : List ℕ) (s : Sections) → IsDefined (d.function_type returned params) (calls.function_type returned params s) }
    ensures array_type { (element length : ℕ) (stride : Option ℕ) (s : Sections) → IsDefined (d.array_type element length) (calls.array_type element length stride s) }
    ensures runtime_type { (element stride : ℕ) (s : Sections) → IsDefined (d.runtime_type element) (calls.runtime_type element stride s) }
    ensures struct_type { (members : List ℕ) (s : Sections) → IsDefined (d.struct_type members) (calls.struct_type members s) }
    ensures constant { (what : PlainConst) (s : Sections) → IsDefined (calls.constant_by what (calls.plain_type plain.Bool s).id) (calls.constant what s) }
    ensures composite { (ty : ℕ) (parts : List ℕ) (s : Sections) → IsDefined (d.composite ty parts) (calls.composite ty parts s) }
    ensures global { (pointer class : ℕ) (init : Option ℕ) (s : Sections) → IsDefined (d.variable pointer class init) (calls.global pointer class init s) }
{}

/// The table of instructions has room for what each call adds, and a module has a file where it has room for all
/// that its builder holds and there are few input and output variables.
pub fn modules_have_files()
    ensures finish { (s : Sections) (main x y z : ℕ) → AllByRecursion IsInTable (all_of s) → length (interface_of s.globals) < 2 ^ 15 → HasFile (module_of s main (x ∷ y ∷ z ∷ [])) }
    ensures plain_type { (ty : PlainType) (id : ℕ) → IsInTable (defining (d.plain_type ty) id) }
    ensures function_type { (returned : ℕ) (params : List ℕ) (id : ℕ) → length params < 2 ^ 15 → IsInTable (defining (d.function_type returned params) id) }
    ensures array_type { (element count id : ℕ) → IsInTable (defining (d.array_type element count) id) }
    ensures runtime_type { (element id : ℕ) → IsInTable (defining (d.runtime_type element) id) }
    ensures struct_type { (members : List ℕ) (id : ℕ) → 1 ≤ length members → length members < 2 ^ 15 → IsInTable (defining (d.struct_type members) id) }
    ensures constant { (what : PlainConst) (truths id : ℕ) → IsInTable (defining (calls.constant_by what truths) id) }
    ensures composite { (ty : ℕ) (parts : List ℕ) (id : ℕ) → 1 ≤ length parts → length parts < 2 ^ 15 → IsInTable (defining (d.composite ty parts) id) }
    ensures global { (pointer class : ℕ) (init : Option ℕ) (id : ℕ) → IsInTable (defining (d.variable pointer class init) id) }
    ensures decorate { (target : ℕ) (member : Option ℕ) (what : ℕ) (literal : Option ℕ) → IsInTable (calls.decorating target member what literal) }
    ensures name { (target : ℕ) (member : Option ℕ) (text : List ℕ) → IsText text → length text ≤ 1024 → IsInTable (calls.naming target member text) }
    ensures glsl_set { (id : ℕ) → IsInTable (calls.importing id) }
{}
