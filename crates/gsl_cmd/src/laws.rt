//! Laws of the definitions: calls that do nothing, whose contracts are the laws.

ghost use Rattle.std.specs.Prelude.{◌≡◌, List, ℕ};
ghost use Rattle.gsl_base.specs.declared.fault.Fault.{Fault};
ghost use Rattle.gsl_base.specs.declared.stage.Stage.{Stage};
ghost use Rattle.gsl_base.specs.Checked.{Checked};
ghost use Rattle.gsl_host.specs.Outside.{Files};
ghost use Rattle.gsl_words.specs.declared.module.Module.{Module};
ghost use Rattle.gsl_words.specs.declared.target.Target.{Target};
ghost use Rattle.gsl_cmd.specs.Job.{Job, IsJob};
ghost use Rattle.gsl_plan.specs.Plan.{Plan};
ghost use Rattle.gsl_cmd.specs.Verdict.{Judges};

use gsl_exec::{one_owed, one_owed_of_valid};

/// The rules give one module or one first fault, whatever the sources are.
pub fn one_verdict()
    ensures some { (target : Target) (stage : Stage) (sources : List (List ℕ)) → (verdict : Checked Module) × Judges target stage sources verdict }
    ensures one { (target : Target) (stage : Stage) (sources : List (List ℕ)) (v w : Checked Module) → Judges target stage sources v → Judges target stage sources w → v ≡ w }
{}

/// A command has one job over any files.
pub fn one_job()
    ensures some { (plan : Plan) (files : Files) → (job : Job) × IsJob plan files job }
    ensures one { (plan : Plan) (files : Files) (j k : Job) → IsJob plan files j → IsJob plan files k → j ≡ k }
{
    one_owed();
    one_owed_of_valid();
}
