//! A law of the definitions: a call that does nothing, whose contract is the law.

ghost use Rattle.std.specs.Prelude.{◌≤◌, ℕ, suc, Bool, List, ◌++◌, Option, false};
ghost use Rattle.gsl_spv.specs.Sections.{Sections};
ghost use Rattle.gsl_lower_holders.specs.Flow.{Emit, Flow};
ghost use Rattle.gsl_lower_stmt.specs.Parts.{LowerStmt, looped};
ghost use Rattle.gsl_lower_stmt.specs.declared.exits.Exits.{Exits};
ghost use Rattle.gsl_fitting.specs.Fits.{Frame};
ghost use Rattle.gsl_fitting_types.specs.Making.{AreSorted};
ghost use Rattle.gsl_fitting_stmt.specs.Doing.{Runs};
ghost use Rattle.gsl_fitting_loops.specs.Turning.{Drops, Turns};

/// Loops, tested before their body, behind it or not at all, where the body runs and what is evaluated on the way does.
pub fn loops_run()
    ensures { (whole : Sections) (main : ℕ) (local_size : List ℕ) (rank : ℕ → ℕ) (f : Frame) → AreSorted whole → (s : Flow) (inner : ℕ) (last : Bool) (test step : Option (Emit ℕ)) (body : LowerStmt) (firsts asks steps lasts : List ℕ) (exits : Exits) → f.first ≤ s.sections.last → Turns whole main local_size rank f s inner last test firsts lasts → Drops whole main local_size rank f s inner step steps → ((exits : Exits) → Runs whole main local_size rank f s asks inner body.leaves exits (body.run exits)) → Runs whole main local_size rank f s (firsts ++ (asks ++ (steps ++ lasts))) (suc inner) false exits (looped last test step body) }
{}
