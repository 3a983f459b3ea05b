//! Modules that are known to be valid.

ghost use Rattle.std.specs.Prelude.{◌≡◌, ◌^◌, ◌<◌, IfOk};
ghost use Rattle.gsl_valid.specs.Placed.{count_of_words};
ghost use Rattle.gsl_valid.specs.Valid.{Valid as IsValid};

use gsl_base::Memory;
use gsl_words::Module;
use std::alloc::Global;
use std::marker::Model;

/// A valid module (SPIR-V 1.0, 2.16): it keeps the rules V1 to V18, and its file has fewer than 2^32 words. Contracts see the module.
#[derive(Drop)]
pub struct Valid {
    module: Module,
}

impl Model for Valid {
    ghost use Rattle.std.specs.Prelude.{◌^◌, ◌<◌};
    ghost use Rattle.gsl_words.specs.declared.module.Module.{Module as OneModule};
    ghost use Rattle.gsl_valid.specs.Placed.{count_of_words};
    ghost use Rattle.gsl_valid.specs.Valid.{Valid as IsValid};

    ghost Value = { OneModule };

    ghost view = { λ valid. valid.module };

    ghost invariant = { λ valid. IsValid valid.module × (count_of_words valid.module < 2 ^ 32) };
}

impl Valid {
    /// A module that is valid by how it was made. Nothing is tested.
    pub fn from_proved(_alloc: Global, module: Module) -> Result<Valid, Memory>
        requires valid { IsValid «module» }
        requires words { count_of_words «module» < 2 ^ 32 }
        ensures { IfOk result (λ valid. valid ≡ «module») }
    {
        Ok(Valid::proved(module))
    }

    /// The same, where it needs no memory.
    pub(crate) fn proved(module: Module) -> Valid
        requires valid { IsValid «module» }
        requires words { count_of_words «module» < 2 ^ 32 }
        ensures { result ≡ «module» }
    {
        Valid { module }
    }

    /// The module.
    pub fn module(&self) -> &Module
        ensures is { result.now ≡ self.now }
        ensures valid { IsValid self.now }
        ensures words { count_of_words self.now < 2 ^ 32 }
    {
        &self.module
    }
}
