//! Laws of the definitions: calls that do nothing, whose contracts are the laws.

ghost use Rattle.std.specs.Prelude.{◌≡◌, ◌≤◌, ℕ, Bool, List, [], ◌∷◌, ◌++◌, ◌==◌, if◌then◌else◌, false, true};
ghost use Rattle.gsl_base.specs.declared.input.Input.{Input};
ghost use Rattle.gsl_types.specs.declared.ty.Ty.{Ty};
ghost use Rattle.gsl_instr.specs.declared.op.TheConstants as op;
ghost use Rattle.gsl_words.specs.declared.module.Instr.{Instr};
ghost use Rattle.gsl_words.specs.declared.module.Module.{Module};
ghost use Rattle.gsl_values.specs.declared.value.Value.{Value};
ghost use Rattle.gsl_tree.specs.Around.{Around};
ghost use Rattle.gsl_tree.specs.Operations.{Given};
ghost use Rattle.gsl_tree.specs.Values.{word_in};
ghost use Rattle.gsl_tree.specs.declared.program.Program.{Program};
ghost use Rattle.gsl_typed_law.specs.Given.{AreChoices, Gives};
ghost use Rattle.gsl_meaning.specs.Running.{Got, drawing};
ghost use Rattle.gsl_meaning.specs.State as shader;
ghost use Rattle.gsl_valid.specs.Instruction.{read};
ghost use Rattle.gsl_valid.specs.Placed.{Code, Placed};
ghost use Rattle.gsl_machine.specs.State.{Going, Outcome, State, on};
ghost use Rattle.gsl_machine.specs.Steps.{act, branching};
ghost use Rattle.gsl_spv.specs.Calls.{put};
ghost use Rattle.gsl_spv.specs.Growing.{Extends};
ghost use Rattle.gsl_spv.specs.Sections.{Sections};
ghost use Rattle.gsl_lower_values.specs.Building.{Step};
ghost use Rattle.gsl_lower_law.specs.Computing.{Computes};
ghost use Rattle.gsl_lower_law.specs.Values.{Stands};
ghost use Rattle.gsl_lower_holders.specs.Flow.{Flow, lift};
ghost use Rattle.gsl_lower_holders.specs.Waiting.{fetch, hold};
ghost use Rattle.gsl_lower_holders.specs.Ways.{join};
ghost use Rattle.gsl_lower_holders.specs.declared.blocks.Fork.{Fork};
ghost use Rattle.gsl_lower_follows.specs.Frames.{Frame, Good, HeldAs, Inside, Kept, Waits, body, coming};
ghost use Rattle.gsl_lower_follows.specs.Giving.{After, Does, GivesValue, Met, none_waits};
ghost use Rattle.gsl_lower_follows.specs.Stretching.{Stretch};

/// Two stretches one behind the other are one.
pub fn stretches_compose()
    ensures { (m : Module) (input : Input) (lent back given units left last : ℕ) (state between : State) (outcome : Outcome) → Stretch m input lent back units state left (Going between) → Stretch m input back given left between last outcome → Stretch m input lent given units state last outcome }
{}

/// A step of the builder that computes a value gives that of an expression.
pub fn computed_values_are_given()
    ensures { (m : Module) (input : Input) (whole : Sections) (f : Frame m input whole) (p : Program) (around : Around) (ty : Ty) (answer : List ℕ → Given) (step : Step ℕ) → ((choices : List ℕ) → AreChoices choices → Gives p.structs ty (answer choices)) → ((state : State) (before : Sections) → Computes m input whole (answer state.choices) state before step) → (state : State) → GivesValue m input whole f p around false ty (lift step) (drawing answer) }
{}

/// A value that has to wait is kept in a holder, and the state is that of the shader all the same.
pub fn values_wait_in_holders()
    ensures { (m : Module) (input : Input) (whole : Sections) (f : Frame m input whole) (p : Program) (around : Around) (waits : Bool) (value : ℕ) (v : Value) (units : ℕ) (b : Flow) (s : shader.State) (state : State) → Good m input whole f p around b s state → Stands state.ids value v → Does m input whole f p 0 units state (λ kept later (r : Unit {0}) t last. After m input whole f p around false b state later t last × HeldAs m input whole f waits kept v later last) none_waits (Got tt s units) (hold waits value b) }
{}

/// What was held is there again.
pub fn values_are_fetched()
    ensures { (m : Module) (input : Input) (whole : Sections) (f : Frame m input whole) (p : Program) (around : Around) (waits : Bool) (ty : Ty) (kept : ℕ) (v : Value) (units : ℕ) (b : Flow) (s : shader.State) (state : State) → Good m input whole f p around b s state → HeldAs m input whole f waits kept v b state → Does m input whole f p 0 units state (λ id later (r : Unit {0}) t last. After m input whole f p around false b state later t last × Stands last.ids id v) none_waits (Got tt s units) (fetch waits ty kept b) }
{}

/// An instruction that branches to a label leads behind it.
pub fn branches_lead_to_labels()
    ensures { (m : Module) (input : Input) (whole : Sections) (f : Frame m input whole) (i : Instr) (label : ℕ) (b before : Sections) (state : State) (units : ℕ) → Inside m input whole f b → Inside m input whole f before → Inside m input whole f (put op.LABEL (label ∷ []) before) → state.rest ≡ coming m input whole f b → state.body ≡ body m input whole f → state.own ≡ f.own → (rest : Code) → before.functions ≡ b.functions ++ (i ∷ rest) → ((at : ℕ) (more : List Placed) → on (read i) (act m input at (record state { rest = more })) ≡ branching (record state { rest = more }) label) → Stretch m input 0 0 units state units (Going (record state { rest = coming m input whole f (put op.LABEL (label ∷ []) before); ids = f.own })) }
{}

/// A branch of two ways leads behind the label that its condition chooses.
pub fn choices_lead_to_labels()
    ensures { (m : Module) (input : Input) (whole : Sections) (f : Frame m input whole) (b : Sections) (end x on_true on_false : ℕ) (v : Value) (label : ℕ) (before : Sections) (state : State) (units : ℕ) → (if word_in v == 0 then on_false else on_true) ≡ label → Stands state.ids x v → Inside m input whole f b → Inside m input whole f (put op.LABEL (label ∷ []) before) → Extends (put op.BRANCH_CONDITIONAL (x ∷ on_true ∷ on_false ∷ []) (put op.SELECTION_MERGE (end ∷ 0 ∷ []) b)) before → state.rest ≡ coming m input whole f b → state.body ≡ body m input whole f → state.own ≡ f.own → Stretch m input 0 0 units state units (Going (record state { rest = coming m input whole f (put op.LABEL (label ∷ []) before); ids = f.own })) }
{}

/// Where two ways meet, the value of the one that was gone is there.
pub fn ways_meet()
    ensures { (m : Module) (input : Input) (whole : Sections) (f : Frame m input whole) (p : Program) (around : Around) (count : ℕ) (t : Ty) (ways : Fork) (value : ℕ) (v old : Value) (units : ℕ) (b : Flow) (s : shader.State) (start state : State) → Good m input whole f p around b s state → Kept m input whole f count start state → (waits : Waits m input whole f b.place.used ways.holder old state) → count ≤ waits.holder → Stands state.ids value v → Does m input whole f p 0 units state (Met m input whole f p around count v start) none_waits (Got tt s units) (join t ways value b) }
{}
