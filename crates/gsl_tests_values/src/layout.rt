use gsl_layout::{Laid, Rules, Std140, Std430};
use std::test::Fail;

#[test]
fn a_runtime_array_has_any_stride_of_whole_words(rt: HostRuntime) -> Result<(), Fail> {
    let laid = Laid::array(rt.alloc(), 2_147_483_648, None, Laid::leaf(1))?;
    assert_eq!(rt;
        [laid.stride(), laid.size(), laid.need()],
        [2_147_483_648, 0, 0]
    );
    Ok(())
}

#[test]
fn rules_raise_alignments(rt: HostRuntime) {
    assert_eq!(rt;
        [Std140.raise(4), Std140.raise(16), Std140.raise(3)],
        [16, 16, 16]
    );
    assert_eq!(rt;
        [Std430.raise(4), Std430.raise(8), Std430.raise(3)],
        [4, 8, 3]
    );
}
