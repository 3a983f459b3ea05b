ghost use Rattle.std.specs.Prelude.{◌≤◌, ◌<◌, ◌+◌, ◌^◌, length};
ghost use Rattle.gsl_layout.specs.Layout.{need};

use gsl_layout::Laid;

/// Bytes that can be changed, seen through a layout.
#[derive(Debug, Drop)]
pub struct ViewMut<'a> {
    pub(crate) bytes: &'a mut [u8],
    /// Where the layout stands in the bytes.
    pub(crate) start: usize,
    pub(crate) laid: &'a Laid,
    ghost fits: { start + need laid.now ≤ length bytes.now },
    ghost small: { length bytes.now < 2 ^ 32 },
}
