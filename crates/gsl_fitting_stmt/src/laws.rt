//! Laws of the definitions: calls that do nothing, whose contracts are the laws.

ghost use Rattle.std.specs.Prelude.{◌≡◌, ℕ, suc, Bool, List, [], ◌++◌, map, None, Some, false, slice_get, true};
ghost use Rattle.gsl_instr.specs.declared.enumerant.execution_model.TheConstants as execution_model;
ghost use Rattle.gsl_instr.specs.declared.op.TheConstants as op;
ghost use Rattle.gsl_tree.specs.Shapes.{flag};
ghost use Rattle.gsl_valid.specs.EntryRules.{model_of};
ghost use Rattle.gsl_valid.specs.ReturnRules.{gives_void};
ghost use Rattle.gsl_spv.specs.Sections.{Sections};
ghost use Rattle.gsl_lower_needs.specs.Bodies.{any_leaves};
ghost use Rattle.gsl_lower_holders.specs.Flow.{Emit, Flow, behind, putting_here};
ghost use Rattle.gsl_lower_stmt.specs.Lowering.{forked};
ghost use Rattle.gsl_lower_stmt.specs.Parts.{LowerStmt, begins_with, in_turn, leave_by, returned, stepped};
ghost use Rattle.gsl_lower_stmt.specs.declared.exits.Exits.{Exits};
ghost use Rattle.gsl_fitting.specs.Fits.{Frame};
ghost use Rattle.gsl_fitting_types.specs.Making.{AreSorted, IsTypeOf, made};
ghost use Rattle.gsl_fitting_flow.specs.Flowing.{IsHolder};
ghost use Rattle.gsl_fitting_expr.specs.Evaluating.{Evaluates};
ghost use Rattle.gsl_fitting_stmt.specs.Doing.{MayReturn, RunEach, Runs};

/// Statements in a row, where each of them runs.
pub fn rows_run()
    ensures { (whole : Sections) (main : ℕ) (local_size : List ℕ) (rank : ℕ → ℕ) (f : Frame) → AreSorted whole → (s : Flow) (deep : ℕ) (exits : Exits) (ss : List LowerStmt) (asks : List ℕ) → RunEach whole main local_size rank f s deep exits ss asks → Runs whole main local_size rank f s asks deep (any_leaves (map (λ (x : LowerStmt). x.leaves) ss)) exits (in_turn ss exits) }
{}

/// `if`, with `else` or without, where its condition evaluates and both statements run.
pub fn ifs_run()
    ensures { (whole : Sections) (main : ℕ) (local_size : List ℕ) (rank : ℕ → ℕ) (f : Frame) → AreSorted whole → (s : Flow) (tests asks more : List ℕ) (deep truth : ℕ) (splits : Bool) (exits : Exits) (test : Emit ℕ) (first other : LowerStmt) → IsTypeOf whole flag truth → Evaluates whole main local_size rank f s tests (suc deep) splits truth test → Runs whole main local_size rank f s asks deep first.leaves exits (first.run exits) → Runs whole main local_size rank f s more deep other.leaves exits (other.run exits) → Runs whole main local_size rank f s (tests ++ (asks ++ more)) (suc deep) false exits (forked test first other exits) }
{}

/// Statements without statements in them.
pub fn statements_run()
    ensures values { (whole : Sections) (main : ℕ) (local_size : List ℕ) (rank : ℕ → ℕ) (f : Frame) → AreSorted whole → (s : Flow) (asks : List ℕ) (deep : ℕ) (splits : Bool) (exits : Exits) (type : ℕ) (value : Emit ℕ) → Evaluates whole main local_size rank f s asks deep splits type value → Runs whole main local_size rank f s asks deep false exits (stepped (Some value)) }
    ensures declarations { (whole : Sections) (main : ℕ) (local_size : List ℕ) (rank : ℕ → ℕ) (f : Frame) → AreSorted whole → (s : Flow) (asks : List ℕ) (deep : ℕ) (splits : Bool) (exits : Exits) (number type : ℕ) (value : Emit ℕ) → ((id : ℕ) → slice_get s.place.locals number ≡ Some id → IsHolder whole main local_size rank f type id) → Evaluates whole main local_size rank f s asks deep splits type value → Runs whole main local_size rank f s asks deep false exits (λ u. behind (value u) (begins_with number)) }
    ensures breaks { (whole : Sections) (main : ℕ) (local_size : List ℕ) (rank : ℕ → ℕ) (f : Frame) → AreSorted whole → (s : Flow) (deep : ℕ) (exits : Exits) → Runs whole main local_size rank f s [] deep true exits (leave_by exits.break_to) }
    ensures continues { (whole : Sections) (main : ℕ) (local_size : List ℕ) (rank : ℕ → ℕ) (f : Frame) → AreSorted whole → (s : Flow) (deep : ℕ) (exits : Exits) → Runs whole main local_size rank f s [] deep true exits (leave_by exits.continue_to) }
    ensures returns { (whole : Sections) (main : ℕ) (local_size : List ℕ) (rank : ℕ → ℕ) (f : Frame) → AreSorted whole → (s : Flow) (deep : ℕ) (exits : Exits) → gives_void (made whole main local_size rank f) (Some f.function) ≡ true → Runs whole main local_size rank f s [] deep true exits (returned None) }
    ensures returns_values { (whole : Sections) (main : ℕ) (local_size : List ℕ) (rank : ℕ → ℕ) (f : Frame) → AreSorted whole → (s : Flow) (asks : List ℕ) (deep : ℕ) (splits : Bool) (exits : Exits) (type : ℕ) (value : Emit ℕ) → MayReturn whole main local_size rank f type → Evaluates whole main local_size rank f s asks deep splits type value → Runs whole main local_size rank f s asks deep true exits (returned (Some value)) }
    ensures discards { (whole : Sections) (main : ℕ) (local_size : List ℕ) (rank : ℕ → ℕ) (f : Frame) → AreSorted whole → (s : Flow) (deep : ℕ) (exits : Exits) → model_of (made whole main local_size rank f).instrs ≡ execution_model.FRAGMENT → Runs whole main local_size rank f s [] deep true exits (putting_here op.KILL []) }
{}
