//! The targets of a switch.

ghost use Rattle.std.specs.Prelude.{ℕ, List as Plain, ◌≡◌, ◌<◌, [], ◌∷◌, ◌++◌, length, nat_eq, filter, IfOk, OnOk, MatchOption};
ghost use Rattle.gsl_instr.specs.Instructions.{seconds};
ghost use Rattle.gsl_blocks.specs.Reading as reading;
ghost use Rattle.gsl_blocks.specs.Around.{needs_run as needed};
ghost use Rattle.gsl_blocks.specs.Targets as spec;

use crate::around::{Around, needs_run};
use gsl_base::{List, Memory};
use indexmap::IndexSet;
use std::alloc::Global;

/// The literal and the label of the first pair, and the words behind it.
fn first_pair(targets: &[u32]) -> Option<(u32, u32, &[u32])>
    ensures { MatchOption result ((spec.firsts targets.now ≡ []) × (seconds targets.now ≡ [])) (λ p. (spec.firsts targets.now ≡ p.0 ∷ spec.firsts p.2.now) × (seconds targets.now ≡ p.1 ∷ seconds p.2.now) × (length p.2.now < length targets.now)) }
{
    match targets {
        [literal, label, behind @ ..] => Some((*literal, *label, behind)),
        _ => None,
    }
}

/// Whether the literals of a switch differ.
pub(crate) fn literals_differ(alloc: Global, targets: &[u32]) -> Result<bool, Memory>
    ensures { IfOk result (λ differ. differ ≡ spec.all_differ (spec.firsts targets.now)) }
{
    let mut literals: IndexSet<u32> = IndexSet::new(alloc);
    let mut rest = targets;
    while let Some((literal, _, behind)) = first_pair(rest) {
        let (_, added) = literals.insert_full(literal)?;
        if !added {
            return Ok(false);
        }
        rest = behind;
    }
    Ok(true)
}

/// The targets of a switch's literals, each once, in the order of their first mention.
pub(crate) fn targets_once(alloc: Global, targets: &[u32]) -> Result<IndexSet<u32>, Memory>
    ensures { IfOk result (λ labels. labels.keys ≡ spec.once (seconds targets.now)) }
{
    let mut labels = IndexSet::new(alloc);
    let mut rest = targets;
    while let Some((_, label, behind)) = first_pair(rest) {
        labels.insert(label)?;
        rest = behind;
    }
    Ok(labels)
}

/// Whether one label stands before another.
fn stands_before(labels: &IndexSet<u32>, a: u32, b: u32) -> bool
    ensures { result ≡ reading.stands_before labels.now.keys a b }
{
    match (labels.get_index_of(&a), labels.get_index_of(&b)) {
        (None, _) => false,
        (Some(_), None) => true,
        (Some(i), Some(j)) => i < j,
    }
}

/// Adds the default that waits for its place, if it stands before a target, and answers whether it goes on
/// to wait.
fn push_default(
    arms: &mut List<u32>,
    waiting: Option<u32>,
    labels: &IndexSet<u32>,
    target: u32,
) -> Result<Option<u32>, Memory>
    ensures { IfOk result (λ left. (targets : Plain ℕ) → arms.new ++ target ∷ reading.put_in labels.now.keys left targets ≡ arms.old ++ reading.put_in labels.now.keys waiting (target ∷ targets)) }
{
    let Some(default) = waiting else {
        return Ok(None);
    };
    if !stands_before(labels, default, target) {
        return Ok(waiting);
    }
    arms.push(default)?;
    Ok(None)
}

/// Adds the targets that have runs, in the order of their runs.
fn push_arms(
    arms: &mut List<u32>,
    labels: &IndexSet<u32>,
    around: Around,
    merge: u32,
    lone: Option<u32>,
    targets: &[u32],
) -> Result<(), Memory>
    ensures { OnOk result (arms.new ≡ arms.old ++ reading.put_in labels.now.keys lone (filter (needed around merge) targets.now)) }
{
    let mut waiting = lone;
    for target in targets {
        if needs_run(around, merge, *target) {
            waiting = push_default(arms, waiting, labels, *target)?;
            arms.push(*target)?;
        }
    }
    if let Some(default) = waiting {
        arms.push(default)?;
    }
    Ok(())
}

/// The default of a switch, if it needs a run of its own and is the target of no literal.
fn lone_default(around: Around, merge: u32, default: u32, targets: &IndexSet<u32>) -> Option<u32>
    ensures { result ≡ spec.lone_among around merge default targets.now.keys }
{
    if needs_run(around, merge, default) && !targets.contains(&default) {
        Some(default)
    } else {
        None
    }
}

/// The targets of a switch that have runs, in the order of their runs.
pub(crate) fn arms_of(
    alloc: Global,
    labels: &IndexSet<u32>,
    around: Around,
    merge: u32,
    default: u32,
    targets: &[u32],
) -> Result<List<u32>, Memory>
    ensures { IfOk result (λ arms. arms ≡ reading.arms_of labels.now.keys around merge default targets.now) }
{
    let named = targets_once(alloc, targets)?;
    let lone = lone_default(around, merge, default, &named);
    let mut arms = List::new(alloc);
    push_arms(&mut arms, labels, around, merge, lone, named.as_slice())?;
    Ok(arms)
}
