//! Laws of the definitions: calls that do nothing, whose contracts are the laws.

ghost use Rattle.std.specs.Prelude.{◌≡◌, ◌≢◌, ◌+◌, ℕ};
ghost use Rattle.gsl_base.specs.declared.input.Input.{Input};
ghost use Rattle.gsl_tree.specs.declared.program.Program.{Program};
ghost use Rattle.gsl_meaning.specs.Shader.{Going, shader};

/// A shader that ended or strayed within some turns of loops and calls comes to the same with more of them: there is one outcome at most.
pub fn more_units_change_nothing()
    ensures { (p : Program) (units more : ℕ) (input : Input) → shader p units input ≢ Going → shader p (units + more) input ≡ shader p units input }
{}
