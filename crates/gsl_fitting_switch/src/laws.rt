//! A law of the definitions: a call that does nothing, whose contract is the law.

ghost use Rattle.std.specs.Prelude.{◌≡◌, ℕ, suc, Bool, List, ◌++◌, length, nat_le, Some, false, true};
ghost use Rattle.gsl_blocks.specs.Targets.{all_differ};
ghost use Rattle.gsl_valid.specs.LimitRules.{most_pairs};
ghost use Rattle.gsl_valid.specs.Types.{is_int_type};
ghost use Rattle.gsl_spv.specs.Sections.{Sections};
ghost use Rattle.gsl_lower_holders.specs.Flow.{Emit, Flow};
ghost use Rattle.gsl_lower_stmt.specs.Lowering.{switched, words_of};
ghost use Rattle.gsl_lower_stmt.specs.Parts.{LowerArm};
ghost use Rattle.gsl_lower_stmt.specs.declared.exits.Exits.{Exits};
ghost use Rattle.gsl_fitting.specs.Fits.{Frame};
ghost use Rattle.gsl_fitting_types.specs.Making.{AreSorted, made};
ghost use Rattle.gsl_fitting_expr.specs.Evaluating.{Evaluates};
ghost use Rattle.gsl_fitting_stmt.specs.Doing.{Runs};
ghost use Rattle.gsl_fitting_switch.specs.Choosing.{ArmsRun, HaveLiterals, all_literals};

/// `switch` over integers, whose literals differ and are not too many, where its arms run.
pub fn switches_run()
    ensures { (whole : Sections) (main : ℕ) (local_size : List ℕ) (rank : ℕ → ℕ) (f : Frame) → AreSorted whole → (s : Flow) (tests asks : List ℕ) (deep : ℕ) (splits : Bool) (type : ℕ) (exits : Exits) (value : Emit ℕ) (arms : List LowerArm) → is_int_type (made whole main local_size rank f) (Some type) ≡ true → Evaluates whole main local_size rank f s tests (suc deep) splits type value → HaveLiterals arms → all_differ (all_literals (words_of arms)) ≡ true → nat_le (length (all_literals (words_of arms))) most_pairs ≡ true → ArmsRun whole main local_size rank f s deep arms asks → Runs whole main local_size rank f s (tests ++ asks) (suc deep) false exits (switched value arms exits) }
{}
