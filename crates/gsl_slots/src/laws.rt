//! Laws of the definitions: calls that do nothing, whose contracts are the laws.

ghost use Rattle.std.specs.Prelude.{◌≡◌, ◌+◌, ◌≤◌, List, ℕ, length};
ghost use Rattle.gsl_machine.specs.State.{Held, Ids, give};
ghost use Rattle.gsl_region.specs.Showing.{with_words};
ghost use Rattle.gsl_slots.specs.Holding.{Holds};

/// With the words of what an id gets put at the top, which is its place, the slots hold what ids stand for then, and the top is behind them.
pub fn an_id_is_given()
    ensures { (words : Held → List ℕ) (place : ℕ → ℕ) (slots : List ℕ) (top : ℕ) (ids : Ids) (id : ℕ) (held : Held) → Holds words place slots top ids → place id ≡ top → top + length (words held) ≤ length slots → Holds words place (with_words slots top (words held)) (top + length (words held)) (give ids id held) }
{}

/// What is put at the top or behind it changes nothing of what is held: a block that begins anew, and the caller of a function, find what they had.
pub fn others_are_kept()
    ensures { (words : Held → List ℕ) (place : ℕ → ℕ) (slots new : List ℕ) (top at : ℕ) (ids : Ids) → Holds words place slots top ids → top ≤ at → at ≤ length slots → Holds words place (with_words slots at new) top ids }
{}

/// What is held below a top is held below any later one.
pub fn tops_rise()
    ensures { (words : Held → List ℕ) (place : ℕ → ℕ) (slots : List ℕ) (top later : ℕ) (ids : Ids) → Holds words place slots top ids → top ≤ later → Holds words place slots later ids }
{}
