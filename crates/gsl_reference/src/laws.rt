//! A law of the definitions: a call that does nothing, whose contract is the law.

ghost use Rattle.std.specs.Prelude.{◌≡◌};
ghost use Rattle.gsl_host.specs.Outside.{Files};
ghost use Rattle.gsl_cmd.specs.Job.{Job};
ghost use Rattle.gsl_reference.specs.Asked.{Asked};
ghost use Rattle.gsl_reference.specs.Owed.{IsJob};

use gsl_manifest::one_reading;

/// What the words ask for is one job over any files.
pub fn one_job()
    ensures some { (asked : Asked) (files : Files) → (job : Job) × IsJob asked files job }
    ensures one { (asked : Asked) (files : Files) (j k : Job) → IsJob asked files j → IsJob asked files k → j ≡ k }
{
    one_reading();
}
