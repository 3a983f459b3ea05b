//! A law of the definitions: a call that does nothing, whose contract is the law.

ghost use Rattle.std.specs.Prelude.{◌≡◌, ◌==◌, List, ℕ, Some, true};
ghost use Rattle.std.specs.List.{list_any};
ghost use Rattle.gsl_chains.specs.Chains.{calls_of};
ghost use Rattle.gsl_machine.specs.Functions.{function_at};
ghost use Rattle.gsl_positions.specs.Positions.{left};
ghost use Rattle.gsl_step.specs.declared.machine.Machine.{Machine};
ghost use Rattle.gsl_step_calls.specs.Calling.{HasRoomToCall};
ghost use Rattle.gsl_step_room.specs.Stacked.{HasRoomForChains};
ghost use Rattle.gsl_valid.specs.Placed.{Placed};
ghost use Rattle.gsl_valid.specs.Valid.{Valid};
ghost use Rattle.gsl_words.specs.declared.module.Module.{Module};

/// In a valid module, where there is room for what chains of calls take from the first function of a run on, there is room for each function that the one calls that runs.
pub fn chains_have_room()
    ensures { (m : Module) (machine : Machine) (entry function : ℕ) (body : List Placed) → Valid m → HasRoomForChains m machine entry → list_any (λ other. other == function) (calls_of (left m machine.standing.body)) ≡ true → function_at m function ≡ Some body → HasRoomToCall m machine (left m machine.standing.body) body }
{}
