//! The versions of SPIR-V.

ghost use Rattle.std.specs.Prelude.{◌≡◌};
ghost use Rattle.gsl_words.specs.Versions.{version_of, target_of};

/// The version word of SPIR-V 1.0.
pub const VERSION_1_0: u32 = 0x0001_0000;

/// The version word of SPIR-V 1.3.
pub const VERSION_1_3: u32 = 0x0001_0300;

/// The version of SPIR-V that a module is written for.
#[derive(Clone, Copy, Debug, PartialEq, Eq)]
pub enum Target {
    V10,
    V13,
}

impl Target {
    /// The version word of its modules.
    pub fn version(self) -> u32
        ensures { result ≡ version_of self }
    {
        match self {
            Target::V10 => VERSION_1_0,
            Target::V13 => VERSION_1_3,
        }
    }

    /// The target that a version word names.
    pub fn of_version(version: u32) -> Option<Target>
        ensures { result ≡ target_of version }
    {
        match version {
            VERSION_1_0 => Some(Target::V10),
            VERSION_1_3 => Some(Target::V13),
            _ => None,
        }
    }
}
