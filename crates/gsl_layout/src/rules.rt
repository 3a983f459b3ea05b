ghost use Rattle.std.specs.Prelude.{◌≡◌, ℕ};
ghost use Rattle.gsl_layout.specs.Rules.{IsAlignment, Raises, raise_std140, raise_std430};
ghost use Rattle.gsl_layout.specs.Raising.{std140_raises, std430_raises};

/// A layout rule: what it makes of the alignment of arrays and structs (GLSL 4.50, 4.4.5).
pub trait Rules {
    ghost raised: { Self → ℕ → ℕ };

    /// The alignment of an array or a struct whose element or largest member has this one.
    fn raise(&self, align: u32) -> u32
        ensures { result ≡ raised self.now align };

    /// At 4, 8 and 16 it is one of these and a multiple of the argument, and raising it again gives it.
    ghost raises: { (rules : Self) (align : ℕ) → IsAlignment align → Raises (raised rules) align };
}

/// The layout std140: arrays and structs are aligned to 16 bytes.
#[derive(Clone, Copy, Debug)]
pub struct Std140;

impl Rules for Std140 {
    ghost raised = { λ _. raise_std140 };

    fn raise(&self, _align: u32) -> u32 {
        16
    }

    ghost raises = { λ _. std140_raises };
}

/// The layout std430: arrays and structs keep the alignment of their elements and members.
#[derive(Clone, Copy, Debug)]
pub struct Std430;

impl Rules for Std430 {
    ghost raised = { λ _. raise_std430 };

    fn raise(&self, align: u32) -> u32 {
        align
    }

    ghost raises = { λ _. std430_raises };
}
