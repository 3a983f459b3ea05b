//! A law of the definitions: a call that does nothing, whose contract is the law.

ghost use Rattle.std.specs.Prelude.{List, ℕ, ◌≡◌};
ghost use Rattle.gsl_base.specs.Proper.{IsProper};
ghost use Rattle.gsl_base.specs.Ranges.{FitsTypes};
ghost use Rattle.gsl_base.specs.declared.input.Input.{Input};
ghost use Rattle.gsl_host.specs.Outside.{Files};
ghost use Rattle.gsl_manifest.specs.Manifests.{AreManifest};
ghost use Rattle.gsl_manifest.specs.declared.manifest.Manifest.{Manifest};
ghost use Rattle.gsl_given.specs.Given.{Got, given};
ghost use Rattle.gsl_given_law.specs.Files.{AreShort, HoldBytes};

use gsl_manifest::{in_their_order, spelled_and_read};

/// The input that a manifest gives over files of bytes is proper; its numbers are in the ranges of their types; and none of its files is too long.
pub fn given_inputs_are_typed()
    ensures proper { (files : Files) (lines : List (List ℕ)) (m : Manifest) (input : Input) → HoldBytes files → AreManifest lines m → given files m ≡ Got input → IsProper input }
    ensures types { (files : Files) (lines : List (List ℕ)) (m : Manifest) (input : Input) → HoldBytes files → AreManifest lines m → given files m ≡ Got input → FitsTypes input }
    ensures short { (files : Files) (lines : List (List ℕ)) (m : Manifest) (input : Input) → HoldBytes files → AreManifest lines m → given files m ≡ Got input → AreShort input }
{
    in_their_order();
    spelled_and_read();
}
