use gsl_overload::{chosen_is_best, identical, identical_is_equal, one_best};
use gsl_types::{Scalar, Ty};

#[test]
fn laws_can_be_called(rt: HostRuntime) {
    chosen_is_best();
    one_best();
    identical_is_equal();
    assert!(rt; identical(&Ty::One(Scalar::Int), &Ty::One(Scalar::Int)));
}
