ghost use Rattle.std.specs.Prelude.{◌≤◌, ◌<◌, ◌+◌, ◌^◌, length};
ghost use Rattle.gsl_layout.specs.Layout.{need};

use gsl_layout::Laid;

/// Bytes seen through a layout.
#[derive(Clone, Copy, Debug)]
pub struct View<'a> {
    pub(crate) bytes: &'a [u8],
    /// Where the layout stands in the bytes.
    pub(crate) start: usize,
    pub(crate) laid: &'a Laid,
    ghost fits: { start + need laid.now ≤ length bytes.now },
    ghost small: { length bytes.now < 2 ^ 32 },
}
