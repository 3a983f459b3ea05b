//! Laws of the definitions: calls that do nothing, whose contracts are the laws.

ghost use Rattle.std.specs.Prelude.{◌≡◌, ◌==◌, ◌+◌, ◌<◌, ◌≤◌, List, ℕ, length, suc, true};
ghost use Rattle.std.specs.List.{list_any};
ghost use Rattle.gsl_chains.specs.Chains.{AreChained, IsReached, body_of, calls_of, in_chains, most_functions, taken_by_all};
ghost use Rattle.gsl_frames.specs.declared.taken.Taken.{Taken};
ghost use Rattle.gsl_frames.specs.Frames.{frame};
ghost use Rattle.gsl_valid.specs.Placed.{Placed};
ghost use Rattle.gsl_valid.specs.Types.{defined_as, function_begins};
ghost use Rattle.gsl_valid.specs.Valid.{Valid};
ghost use Rattle.gsl_words.specs.declared.module.Module.{Module};

/// Functions of which each calls the next take no more than is taken at most, and some take as much.
pub fn chains_take_no_more()
    ensures bounds { (m : Module) (of : Taken → ℕ) (body : List Placed) (bodies : List (List Placed)) (more : ℕ) → AreChained m body bodies → length bodies < more → taken_by_all m of bodies + of (frame m body) ≤ in_chains m of more body }
    ensures reached { (m : Module) (of : Taken → ℕ) (body : List Placed) (more : ℕ) → IsReached m of body more }
{}

/// What a function takes leaves room for what is taken in chains of those that it calls.
pub fn calls_leave_room()
    ensures { (m : Module) (of : Taken → ℕ) (body : List Placed) (id more : ℕ) → list_any (λ other. other == id) (calls_of body) ≡ true → of (frame m body) + in_chains m of more (body_of m id) ≤ in_chains m of (suc more) body }
{}

/// In a valid module no more than 65 functions call each the next, from any function on: what chains of so many take is what any take.
pub fn chains_are_short()
    ensures { (m : Module) (id : ℕ) (bodies : List (List Placed)) → Valid m → function_begins (defined_as m id) ≡ true → AreChained m (body_of m id) bodies → length bodies < most_functions }
{}
