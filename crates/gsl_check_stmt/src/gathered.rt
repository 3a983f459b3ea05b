//! The body of a `switch`, as it is read from left to right.

ghost use Rattle.std.specs.Prelude.{◌≡◌, OnOk};
ghost use Rattle.gsl_base.specs.Checked.{Gives, GivesBy};
ghost use Rattle.gsl_check_stmt.specs.Switches as spec;

use gsl_base::{Code, List, Memory, Place, Refusal};
use gsl_compute::word_in;
use gsl_fold::constant;
use gsl_tree::{Arm, Arms, Folded, Labels, Stmt, Stmts};
use gsl_types::Ty;
use gsl_typing::{Part, Scene, is_unread, refuse, serves_as};
use std::alloc::Global;
use std::mem::replace;

/// Arms of a `switch`: those that have ended, and the one that is read.
#[derive(Drop)]
pub struct Gathered {
    pub arms: Arms,
    /// The words of the labels of the arm that is read.
    pub labels: Labels,
    /// Whether `default` stands among them.
    pub is_default: bool,
    /// The statements behind them.
    pub body: Stmts,
    /// The words of all labels.
    pub words: Labels,
    /// Whether `default` stands among all labels.
    pub has_default: bool,
}

impl Gathered {
    /// No arm, and no label.
    pub fn new(alloc: Global) -> Gathered
        ensures { result ≡ spec.nothing }
    {
        Gathered {
            arms: List::new(alloc),
            labels: List::new(alloc),
            is_default: false,
            body: List::new(alloc),
            words: List::new(alloc),
            has_default: false,
        }
    }

    /// Ends the arm that is read.
    fn end_arm(&mut self, alloc: Global) -> Result<(), Memory>
        ensures { OnOk result (self.new ≡ spec.behind_arm self.old) }
    {
        let labels = replace(&mut self.labels, List::new(alloc));
        let body = replace(&mut self.body, List::new(alloc));
        self.arms.push(Arm {
            labels,
            is_default: self.is_default,
            body,
        })?;
        self.is_default = false;
        Ok(())
    }

    /// Ends the arm that is read, if a label ends it.
    fn reach_label(&mut self, alloc: Global) -> Result<(), Memory>
        ensures { OnOk result (self.new ≡ spec.at_label self.old) }
    {
        if self.body.is_empty() {
            return Ok(());
        }
        self.end_arm(alloc)
    }

    /// Adds a label of a word.
    #[tactic(auto, unfolding(crate::specs::Switches::with_case))]
    pub fn add_case(&mut self, alloc: Global, word: u32) -> Result<(), Memory>
        ensures { OnOk result (self.new ≡ spec.with_case self.old word) }
    {
        self.reach_label(alloc)?;
        self.labels.push(word)?;
        self.words.push(word)?;
        Ok(())
    }

    /// Adds `default`.
    #[tactic(auto, unfolding(crate::specs::Switches::with_default))]
    pub fn add_default(&mut self, alloc: Global) -> Result<(), Memory>
        ensures { OnOk result (self.new ≡ spec.with_default self.old) }
    {
        self.reach_label(alloc)?;
        self.is_default = true;
        self.has_default = true;
        Ok(())
    }

    /// Adds a statement.
    #[tactic(auto, unfolding(crate::specs::Switches::with_stmt))]
    pub fn add_stmt(&mut self, s: Stmt) -> Result<(), Memory>
        ensures { OnOk result (self.new ≡ spec.with_stmt self.old s) }
    {
        self.body.push(s)?;
        Ok(())
    }

    /// Whether neither a label nor a statement stands in the arm that is read.
    fn is_blank(&self) -> bool
        ensures { result ≡ spec.is_blank self.now }
    {
        self.labels.is_empty() && !self.is_default && self.body.is_empty()
    }

    /// Ends the last arm, if there is one.
    #[tactic(auto, unfolding(crate::specs::Switches::all_arms))]
    pub fn finish(&mut self, alloc: Global) -> Result<(), Memory>
        ensures { OnOk result ((self.new.arms ≡ spec.all_arms self.old) × (self.new.words ≡ self.old.words) × (self.new.has_default ≡ self.old.has_default)) }
    {
        if self.is_blank() {
            return Ok(());
        }
        self.end_arm(alloc)
    }
}

/// Whether an earlier label has this word.
fn has_word(words: &[u32], word: u32) -> bool
    ensures { result ≡ spec.has_word words.now word }
{
    words.iter().any(|other| *other == word)
}

/// The word of a `case`, beside a selector of a type.
#[tactic(auto, unfolding(crate::specs::Switches::case_word))]
pub fn case_word(
    alloc: Global,
    scene: &Scene,
    selector: &Ty,
    g: &Gathered,
    place: Place,
    x: &Part,
) -> Result<u32, Refusal>
    ensures { Gives result (spec.case_word scene.now selector.now g.now place x.now) }
{
    if !serves_as(&x.expr.ty, selector) {
        return Err(refuse(place, Code::E0504));
    }
    if is_unread(scene, x) {
        return Err(refuse(place, Code::E0507));
    }
    constant_word(alloc, scene, g.words.as_slice(), place, x)
}

/// The word of a constant that no earlier label has.
pub fn constant_word(
    alloc: Global,
    scene: &Scene,
    words: &[u32],
    place: Place,
    x: &Part,
) -> Result<u32, Refusal>
    ensures { Gives result (spec.constant_word scene.now words.now place x.now) }
{
    let word = match constant(alloc, &scene.structs, &scene.consts, &x.expr)? {
        Folded::Known(value) => word_in(&value),
        Folded::NotConstant => return Err(refuse(place, Code::E0601)),
        Folded::Free => return Err(refuse(place, Code::E0602)),
    };
    if has_word(words, word) {
        return Err(refuse(place, Code::E0511));
    }
    Ok(word)
}

/// Adds `default`, which may stand once.
#[tactic(auto, unfolding(crate::specs::Switches::default_label))]
pub fn default_label(alloc: Global, g: &mut Gathered, place: Place) -> Result<(), Refusal>
    ensures { GivesBy (λ _. g.new) result (spec.default_label g.old place) }
{
    if g.has_default {
        return Err(refuse(place, Code::E0511));
    }
    Ok(g.add_default(alloc)?)
}

/// A `case` that may not stand there.
#[tactic(auto, unfolding(crate::specs::Switches::misplaced_case))]
pub fn misplaced_case(scene: &Scene, place: Place, x: &Part) -> Result<Stmt, Refusal>
    ensures { Gives result (spec.misplaced_case scene.now place x.now) }
{
    if is_unread(scene, x) {
        return Err(refuse(place, Code::E0507));
    }
    Err(refuse(place, Code::E0511))
}

/// A `default` that may not stand there.
#[tactic(auto, unfolding(crate::specs::Switches::misplaced_default))]
pub fn misplaced_default(place: Place) -> Result<Stmt, Refusal>
    ensures { Gives result (spec.misplaced_default place) }
{
    Err(refuse(place, Code::E0511))
}

/// Whether each arm begins with a label and has a statement.
#[tactic(auto, unfolding(crate::specs::Switches::are_arms))]
pub fn are_arms(arms: &[Arm]) -> bool
    ensures { result ≡ spec.are_arms arms.now }
{
    arms.iter().all(|arm| is_arm(arm))
}

fn is_arm(arm: &Arm) -> bool
    ensures { result ≡ spec.is_arm arm.now }
{
    (!arm.labels.is_empty() || arm.is_default) && !arm.body.is_empty()
}

/// Whether there are more labels than a `switch` may have.
#[tactic(auto, unfolding(crate::specs::Switches::has_many))]
pub fn has_many(words: &[u32], has_default: bool) -> bool
    ensures { result ≡ spec.has_many words.now has_default }
{
    if has_default {
        words.len() >= 16383
    } else {
        words.len() > 16383
    }
}
