ghost use Rattle.std.specs.Prelude.{◌≡◌};
ghost use Rattle.gsl_layout.specs.Measures.{components_align};

use crate::laid::Laid;

/// A type's base alignment and size in bytes, with its layout.
#[derive(Debug, Drop)]
pub(crate) struct Measured {
    pub(crate) align: u32,
    pub(crate) size: u32,
    pub(crate) laid: Laid,
}

/// The alignment of so many components.
pub(crate) fn components_align(count: u32) -> u32
    ensures { result ≡ components_align count }
{
    if count <= 1 {
        4
    } else if count <= 2 {
        8
    } else {
        16
    }
}
