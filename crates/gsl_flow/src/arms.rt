//! Where a `switch` is entered.

ghost use Rattle.std.specs.Prelude.{◌≡◌, ◌==◌, drop};
ghost use Rattle.gsl_flow.specs.Arms as spec;

use gsl_tree::{Arm, Arms, Labels};

/// Whether a label is that of a word.
fn is_label(word: u32, label: u32) -> bool
    ensures { result ≡ (label == word) }
{
    label == word
}

/// Whether a word is among some labels.
#[tactic(auto, using(gsl_compute::proofs::Loops::opened))]
fn is_among(word: u32, labels: &Labels) -> bool
    ensures { result ≡ spec.is_among word labels.now }
{
    for k in 0..labels.len() {
        if is_label(word, labels[k]) {
            return true;
        }
    }
    false
}

/// Whether an arm has the label of a word.
#[tactic(auto, unfolding(crate::specs::Arms::has_label))]
fn has_label(word: u32, arm: &Arm) -> bool
    ensures { result ≡ spec.has_label word arm.now }
{
    is_among(word, &arm.labels)
}

/// Whether `default` stands among the labels of an arm.
#[tactic(auto, unfolding(crate::specs::Arms::is_default))]
fn is_default(arm: &Arm) -> bool
    ensures { result ≡ spec.is_default arm.now }
{
    arm.is_default
}

/// The number of the first arm that is the default, or of all.
#[tactic(auto, using(gsl_compute::proofs::Loops::opened))]
fn default_arm(arms: &Arms) -> usize
    ensures { drop result arms.now ≡ spec.from_default arms.now }
{
    for k in 0..arms.len() {
        if is_default(&arms[k]) {
            return k;
        }
    }
    arms.len()
}

/// The number of the first arm that is entered with a word, or of all.
#[tactic(auto, using(gsl_compute::proofs::Loops::opened))]
pub(crate) fn entered(word: u32, arms: &Arms) -> usize
    ensures { drop result arms.now ≡ spec.from_label word arms.now (spec.from_default arms.now) }
{
    for k in 0..arms.len() {
        if has_label(word, &arms[k]) {
            return k;
        }
    }
    default_arm(arms)
}
