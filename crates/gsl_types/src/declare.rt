ghost use Rattle.std.specs.Prelude.{◌≡◌, ◌<◌, ◌++◌, ◌∷◌, [], length, min};
ghost use Rattle.std.specs.List.{AllByRecursion};
ghost use Rattle.gsl_types.specs.Known.{AreStructs, IsSound};
ghost use Rattle.gsl_types.specs.Leaves.{counting, leaves_together, most_leaves};
ghost use Rattle.gsl_types.specs.Structs.{members_meaning};

use crate::queries::{MOST_LEAVES, leaves};
use crate::ty::{Members, StructType, Structs};
use gsl_base::Text;

/// The leaves of members together, at most 2^40.
fn leaves_of_all(structs: &Structs, members: &Members) -> u64
    requires known { AreStructs structs.now }
    requires sound { AllByRecursion (λ member. IsSound (length structs.now) member.ty) members.now }
    ensures { result ≡ min (leaves_together (members_meaning counting structs.now members.now)) most_leaves }
{
    let mut total = 0;
    for k in 0..members.len() {
        total = (total + leaves(structs, &members[k].ty)).min(MOST_LEAVES);
    }
    total
}

/// The struct of a name and members that stands next behind some structs, with its leaves counted.
pub fn next_struct(structs: &Structs, name: Text, members: Members) -> StructType
    requires known { AreStructs structs.now }
    requires some { 0 < length members }
    requires sound { AllByRecursion (λ member. IsSound (length structs.now) member.ty) members }
    ensures name { result.name ≡ name }
    ensures members { result.members ≡ members }
    ensures known { AreStructs (structs.now ++ result ∷ []) }
{
    let leaves = leaves_of_all(structs, &members);
    StructType {
        name,
        members,
        leaves,
    }
}
