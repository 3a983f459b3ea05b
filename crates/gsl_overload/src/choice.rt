ghost use Rattle.std.specs.Prelude.{◌≡◌, ◌+◌, ◌<◌, ◌↔◌, IsTrue, length};
ghost use Rattle.gsl_overload.specs.Best.{FitsAt, IsBest, at_place, beats as beats_by, chosen};
ghost use Rattle.gsl_overload.specs.Favourite.{FavouriteBelow};

use crate::fits::{beats, fits};
use gsl_base::List;
use gsl_types::{Direction, Ty, Types};

/// The parameters of a function in their order: which way the argument goes, and the type.
pub type Params = List<(Direction, Ty)>;

/// The parameters of each of the functions that a call may mean.
pub type Signatures = List<Params>;

/// Why no function is chosen.
#[derive(Clone, Copy, Debug, PartialEq, Eq)]
pub enum Choice {
    /// No candidate fits the arguments.
    NoMatch,
    /// Some fit, and none beats all others that do.
    Ambiguous,
}

/// The place of the candidate that a call with arguments of these types chooses (GLSL 4.50, 6.1). A candidate fits
/// where it has as many parameters and each argument fits its parameter: an `in` argument exactly or converted to the
/// parameter's type, an `out` argument exactly or by a conversion of the parameter to it, an `inout` argument exactly.
/// One beats another where no argument is worse at it and one is better, exact being better than converted. The one
/// that beats all others that fit is chosen.
pub fn choose(candidates: &Signatures, args: &Types) -> Result<usize, Choice>
    ensures { result ≡ chosen candidates.now args.now }
{
    match favourite(candidates, args) {
        None => Err(Choice::NoMatch),
        Some(place) => {
            if is_best(candidates, args, place) {
                Ok(place)
            } else {
                Err(Choice::Ambiguous)
            }
        }
    }
}

/// The only candidate that may be the best; none where none fits.
fn favourite(candidates: &Signatures, args: &Types) -> Option<usize>
    ensures { FavouriteBelow candidates.now args.now (length candidates.now) result }
{
    let mut found: Option<usize> = None;
    for k in 0..candidates.len() {
        found = overtaken(candidates, args, found, k);
    }
    found
}

/// The favourite behind one more candidate.
fn overtaken(candidates: &Signatures, args: &Types, found: Option<usize>, k: usize) -> Option<usize>
    requires there { k < length candidates.now }
    requires found { FavouriteBelow candidates.now args.now k found }
    ensures { FavouriteBelow candidates.now args.now (k + 1) result }
{
    if !fits(args, &candidates[k]) {
        return found;
    }
    match found {
        None => Some(k),
        Some(j) => {
            if beats_at(candidates, args, k, j) {
                Some(k)
            } else {
                Some(j)
            }
        }
    }
}

/// Whether one candidate that fits beats another.
fn beats_at(candidates: &Signatures, args: &Types, first: usize, second: usize) -> bool
    requires first { FitsAt candidates.now args.now first }
    requires second { FitsAt candidates.now args.now second }
    ensures { result ≡ beats_by args.now (at_place candidates.now first) (at_place candidates.now second) }
{
    beats(args, &candidates[first], &candidates[second])
}

/// Whether a candidate that fits beats all others that fit.
fn is_best(candidates: &Signatures, args: &Types, place: usize) -> bool
    requires { FitsAt candidates.now args.now place }
    ensures { IsTrue result ↔ IsBest candidates.now args.now place }
{
    for k in 0..candidates.len() {
        if k != place && fits(args, &candidates[k]) && !beats_at(candidates, args, place, k) {
            return false;
        }
    }
    true
}
