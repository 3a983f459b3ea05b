//! A `switch` over its selector and its body.

ghost use Rattle.gsl_base.specs.Checked.{Gives, GivesBy};
ghost use Rattle.std.specs.Prelude.{◌≡◌, not, ◌&&◌, ◌∷◌, [], Ok};
ghost use Rattle.gsl_base.specs.declared.fault.Code.TheVariants.{E0507, E0511, E0908};
ghost use Rattle.gsl_tree.specs.declared.stmt.Stmt.TheVariants.{Switch as switch_of};
ghost use Rattle.gsl_typing.specs.Rows.{unless};
ghost use Rattle.gsl_typing.specs.Uses.{is_unread as unread};
ghost use Rattle.gsl_makers.specs.Paths as paths;
ghost use Rattle.gsl_check_stmt.specs.Statements as spec;
ghost use Rattle.gsl_check_stmt.specs.Switches as switches;

use gsl_base::{Code, Place, Refusal};
use gsl_check_decl::SoundEnv;
use gsl_check_stmt::{Gathered, are_arms, has_many};
use gsl_makers::is_index;
use gsl_tree::{Arms, Stmt};
use gsl_typing::{Part, Scene, is_unread, refuse};
use std::alloc::Global;

/// A `switch` over arms that have all ended.
fn over_arms(scene: &Scene, place: Place, selector: Part, g: Gathered) -> Result<Stmt, Refusal>
    ensures { Gives result (unless place ((E0507, unread scene.now selector) ∷ (E0511, not (paths.is_index selector && switches.are_arms g.arms)) ∷ (E0908, switches.has_many g.words g.has_default) ∷ []) (Ok (switch_of selector.expr g.arms))) }
{
    if is_unread(scene, &selector) {
        give_up(selector, g);
        return Err(refuse(place, Code::E0507));
    }
    if !(is_index(&selector) && are_arms(g.arms.as_slice())) {
        give_up(selector, g);
        return Err(refuse(place, Code::E0511));
    }
    if has_many(g.words.as_slice(), g.has_default) {
        give_up(selector, g);
        return Err(refuse(place, Code::E0908));
    }
    Ok(Stmt::Switch(selector.expr, only_arms(g)))
}

/// Gives up a selector.
pub fn give_up_selector(selector: Part) {
    let Part { expr, .. } = selector;
    drop(expr);
}

/// Gives up what was gathered, part by part.
pub fn give_up_gathered(g: Gathered) {
    drop(only_arms(g));
}

/// Gives up a selector and what was gathered behind it.
fn give_up(selector: Part, g: Gathered) {
    give_up_selector(selector);
    give_up_gathered(g);
}

/// The arms of what was gathered.
fn only_arms(g: Gathered) -> Arms
    ensures { result ≡ g.arms }
{
    let Gathered {
        arms,
        labels,
        body,
        words,
        ..
    } = g;
    drop(labels);
    drop(body);
    drop(words);
    arms
}

/// A `switch` over the arms of its body.
#[tactic(auto, unfolding(gsl_check_stmt::specs::Switches::switched))]
fn switched(
    alloc: Global,
    scene: &Scene,
    place: Place,
    selector: Part,
    g: Gathered,
) -> Result<Stmt, Refusal>
    ensures { Gives result (switches.switched scene.now place selector g) }
{
    let mut g = g;
    match g.finish(alloc) {
        Ok(()) => over_arms(scene, place, selector, g),
        Err(_) => {
            give_up(selector, g);
            Err(Refusal::Memory)
        }
    }
}

/// A `switch` behind its selector and its body, whose scope ends.
#[tactic(auto, unfolding(gsl_check_stmt::specs::Statements::arms))]
pub fn arms(
    alloc: Global,
    env: &mut SoundEnv,
    place: Place,
    selector: Part,
    g: Gathered,
) -> Result<Stmt, Refusal>
    ensures { GivesBy (λ s. (s, env.new)) result (spec.arms place selector g env.old) }
{
    let s = switched(alloc, &env.get().scene, place, selector, g)?;
    env.close(alloc);
    Ok(s)
}
