ghost use Rattle.std.specs.Prelude.{◌≡◌};
ghost use Rattle.gsl_tree.specs.Values.{same_value as same_value_of};

use gsl_values::Value;

/// Whether two values are equal, part by part.
pub fn same_value(a: &Value, b: &Value) -> bool
    ensures { result ≡ same_value_of a.now b.now }
{
    match (a, b) {
        (Value::Word(x), Value::Word(y)) => x == y,
        (Value::Many(xs), Value::Many(ys)) => {
            if xs.len() != ys.len() {
                return false;
            }
            for k in 0..xs.len() {
                if !same_value(&xs[k], &ys[k]) {
                    return false;
                }
            }
            true
        }
        _ => false,
    }
}
