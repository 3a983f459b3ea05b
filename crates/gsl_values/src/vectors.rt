ghost use Rattle.std.specs.Prelude.{◌≡◌};
ghost use Rattle.gsl_values.specs.Vectors.{IsLanes, lanes_answer};

use crate::choices::Choices;
use crate::lane::Lanes;
use crate::op::BinaryOp;
use crate::operators::binary;

/// What an operator gives on vectors of one size, component by component from the lowest on; each
/// component that the language leaves open draws from the choices that those before it left.
#[tactic(auto, unfolding(crate::specs::Vectors::lanes_answer))]
pub fn lanes(op: BinaryOp, signed: bool, a: &Lanes, b: &Lanes, choices: &mut Choices) -> Lanes
    requires lanes { IsLanes a.now }
    requires counts { b.now.count ≡ a.now.count }
    ensures lanes { result ≡ (lanes_answer op signed a.now b.now choices.old).0 }
    ensures left { choices.new ≡ (lanes_answer op signed a.now b.now choices.old).1 }
    ensures count { result.count ≡ a.now.count }
{
    let mut words = [0; 4];
    for i in 0..a.count as usize {
        words[i] = binary(op, signed, a.words[i], b.words[i], choices);
    }
    Lanes {
        words,
        count: a.count,
    }
}
