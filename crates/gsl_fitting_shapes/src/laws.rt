//! Laws of the definitions: calls that do nothing, whose contracts are the laws.

ghost use Rattle.std.specs.Prelude.{◌≡◌, ◌≢◌, ℕ, ◌<◌, ◌≤◌, true, false, nat_eq, List, ◌∷◌, ◌++◌};
ghost use Rattle.std.specs.List.{list_any};
ghost use Rattle.gsl_words.specs.declared.module.Instr.{Instr};
ghost use Rattle.gsl_words.specs.declared.module.Module.{Module};
ghost use Rattle.gsl_blocks.specs.declared.around.Around.{Around};
ghost use Rattle.gsl_blocks.specs.declared.around.Due.{Due};
ghost use Rattle.gsl_blocks.specs.Around.{in_arm, in_body, in_case, in_continue, is_exit, may_end, may_turn, outside};
ghost use Rattle.gsl_blocks.specs.Order.{cases, run};
ghost use Rattle.gsl_valid.specs.LimitRules.{most_constructs};
ghost use Rattle.gsl_valid.specs.Placed.{Code};
ghost use Rattle.gsl_fitting.specs.Fits.{Behind, Fits, Frame, In};
ghost use Rattle.gsl_fitting_shapes.specs.Fresh.{AreNew, Chooses, Fresh, Selects};

/// No label ends the run of a function's blocks; and none that is still to be taken ends an arm, a case, the body of a loop or its
/// continue part.
pub fn labels_are_fresh()
    ensures function { (least : ℕ) → Fresh outside least }
    ensures later { (c : Around) (least more : ℕ) → least ≤ more → Fresh c least → Fresh c more }
    ensures arm { (c : Around) (least merge : ℕ) → merge < least → Fresh c least → Fresh (in_arm c merge) least }
    ensures case { (c : Around) (least merge next : ℕ) → merge < least → next < least → Fresh c least → Fresh (in_case c merge next) least }
    ensures body { (c : Around) (least merge target : ℕ) → merge < least → target < least → Fresh (in_body c merge target) least }
    ensures continues { (c : Around) (least label merge : ℕ) → label < least → Fresh (in_continue c label merge) least }
{}

/// An arm ends with a branch to the merge of its selection or to an exit around it, a case to the next one or behind its switch, the body
/// of a loop to its continue part or behind it, and the continue part turns back or leaves.
pub fn runs_end()
    ensures arm { (c : Around) (merge : ℕ) → may_end (in_arm c merge) merge ≡ true }
    ensures exits { (c : Around) (merge label : ℕ) → is_exit c label ≡ true → may_end (in_arm c merge) label ≡ true }
    ensures case { (c : Around) (merge next : ℕ) → may_end (in_case c merge next) next ≡ true }
    ensures breaks { (c : Around) (merge next : ℕ) → may_end (in_case c merge next) merge ≡ true }
    ensures body { (c : Around) (merge target : ℕ) → may_end (in_body c merge target) target ≡ true }
    ensures leaves { (c : Around) (merge target : ℕ) → may_end (in_body c merge target) merge ≡ true }
    ensures turns { (c : Around) (label merge : ℕ) → may_turn (in_continue c label merge) label merge ≡ true }
    ensures back { (c : Around) (label merge : ℕ) → may_end (in_continue c label merge) label ≡ true }
{}

/// A selection with two arms, or with one arm and nothing for the other, whose labels are new, fits where its arms and then what is
/// behind its merge are the runs that are due.
pub fn selections_fit()
    ensures two { (m : Module) (rank : ℕ → ℕ) (f : Frame) (given : List ℕ) (i j : Instr) (code : Code) (c : Around) (due : List Due) (label merge on_true on_false least : ℕ) → Selects m rank f given i j merge on_true on_false → Fresh c least → least ≤ on_true → least ≤ on_false → on_true ≢ merge → on_false ≢ merge → on_true ≢ on_false → c.depth < most_constructs → Fits m rank f code (Behind (run on_true (in_arm c merge) ∷ run on_false (in_arm c merge) ∷ run merge c ∷ due)) → Fits m rank f (i ∷ j ∷ code) (In label c given due) }
    ensures one { (m : Module) (rank : ℕ → ℕ) (f : Frame) (given : List ℕ) (i j : Instr) (code : Code) (c : Around) (due : List Due) (label merge on_true least : ℕ) → Selects m rank f given i j merge on_true merge → Fresh c least → least ≤ on_true → on_true ≢ merge → c.depth < most_constructs → Fits m rank f code (Behind (run on_true (in_arm c merge) ∷ run merge c ∷ due)) → Fits m rank f (i ∷ j ∷ code) (In label c given due) }
{}

/// A switch whose labels are new fits where its arms are the runs that are due: where its default is one of the labels of literals, or
/// the merge, and where it has an arm of its own somewhere between theirs.
pub fn switches_fit()
    ensures named { (m : Module) (rank : ℕ → ℕ) (f : Frame) (given : List ℕ) (i j : Instr) (code : Code) (c : Around) (due : List Due) (label merge default least : ℕ) (targets labels : List ℕ) → Chooses m rank f given i j merge default targets labels → Fresh c least → AreNew least merge labels → list_any (nat_eq default) labels ≡ true → c.depth < most_constructs → Fits m rank f code (Behind (cases c merge merge labels (run merge c ∷ due))) → Fits m rank f (i ∷ j ∷ code) (In label c given due) }
    ensures none { (m : Module) (rank : ℕ → ℕ) (f : Frame) (given : List ℕ) (i j : Instr) (code : Code) (c : Around) (due : List Due) (label merge least : ℕ) (targets labels : List ℕ) → Chooses m rank f given i j merge merge targets labels → Fresh c least → AreNew least merge labels → c.depth < most_constructs → Fits m rank f code (Behind (cases c merge merge labels (run merge c ∷ due))) → Fits m rank f (i ∷ j ∷ code) (In label c given due) }
    ensures apart { (m : Module) (rank : ℕ → ℕ) (f : Frame) (given : List ℕ) (i j : Instr) (code : Code) (c : Around) (due : List Due) (label merge default least : ℕ) (targets before behind : List ℕ) → Chooses m rank f given i j merge default targets (before ++ behind) → Fresh c least → AreNew least merge (default ∷ (before ++ behind)) → list_any (nat_eq default) (before ++ behind) ≡ false → c.depth < most_constructs → Fits m rank f code (Behind (cases c merge merge (before ++ (default ∷ behind)) (run merge c ∷ due))) → Fits m rank f (i ∷ j ∷ code) (In label c given due) }
{}
