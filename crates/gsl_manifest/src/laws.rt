//! Laws of the definitions: calls that do nothing, whose contracts are the laws.

ghost use Rattle.std.specs.Prelude.{◌≡◌, ◌⊎◌, List, Some, ℕ};
ghost use Rattle.std.specs.List.{AllByRecursion};
ghost use Rattle.std.specs.List.Sorted.{IsPermutation};
ghost use Rattle.gsl_base.specs.Proper.{Ascends, IsProper};
ghost use Rattle.gsl_base.specs.declared.input.Output.{Output};
ghost use Rattle.gsl_manifest.specs.declared.manifest.Manifest.{Manifest};
ghost use Rattle.gsl_manifest.specs.declared.meaning.Meaning.{Meaning};
ghost use Rattle.gsl_text.specs.Lines.{lines_of};
ghost use Rattle.gsl_manifest.specs.Listing.{FitsOutput, SameShown, listing_of};
ghost use Rattle.gsl_manifest.specs.Manifests.{AreManifest, BreaksAt, StandOnce, IsEarlier, manifest_of, all, values_in};
ghost use Rattle.gsl_manifest.specs.Meanings.{meaning_of};
ghost use Rattle.gsl_manifest.specs.Spelling.{IsText, SpellAll, Spells};
ghost use Rattle.gsl_manifest.specs.Printing.{IsPrintable, IsWritable, manifest_text, printed};

/// Lines are one manifest, or break at one line, and not both.
pub fn one_reading()
    ensures some { (lines : List (List ℕ)) → ((m : Manifest) × AreManifest lines m) ⊎ ((n : ℕ) × BreaksAt lines n) }
    ensures one { (lines : List (List ℕ)) (m k : Manifest) → AreManifest lines m → AreManifest lines k → m ≡ k }
    ensures one_break { (lines : List (List ℕ)) (n k : ℕ) → BreaksAt lines n → BreaksAt lines k → n ≡ k }
    ensures never_both { (lines : List (List ℕ)) (m : Manifest) (n : ℕ) → AreManifest lines m → BreaksAt lines n → ⊥ }
{}

/// The input of a manifest is proper; its values are those of the lines; and its files of buffers stand in the order of their lines.
pub fn in_their_order()
    ensures proper { (lines : List (List ℕ)) (m : Manifest) → AreManifest lines m → IsProper m.input }
    ensures values { (says : List Meaning) → IsPermutation (all values_in says) (manifest_of says).input.ins }
    ensures buffers { (lines : List (List ℕ)) (m : Manifest) → AreManifest lines m → Ascends IsEarlier m.buffers }
{}

/// What a writer prints is the manifest that was meant: lines in any order, or a whole manifest.
pub fn written_and_read()
    ensures whole { (m : Manifest) → IsPrintable m → AreManifest (lines_of (manifest_text m)) m }
    ensures lines { (says : List Meaning) → AllByRecursion IsWritable says → StandOnce says → AreManifest (lines_of (printed says)) (manifest_of says) }
{}

/// A listing tells what it shows.
pub fn one_output()
    ensures { (o p : Output) → FitsOutput o → FitsOutput p → listing_of o ≡ listing_of p → SameShown o p }
{}

/// A line says just what the format lets it spell, with any gaps, forms of numbers and comments; and a text is read as its
/// lines, with either line end and with none behind the last.
pub fn spelled_and_read()
    ensures text { (bytes : List ℕ) (lines : List (List ℕ)) → IsText bytes lines → lines_of bytes ≡ lines }
    ensures no_other_text { (bytes : List ℕ) → IsText bytes (lines_of bytes) }
    ensures line { (line : List ℕ) (says : Meaning) → Spells line says → meaning_of line ≡ Some says }
    ensures no_other_line { (line : List ℕ) (says : Meaning) → meaning_of line ≡ Some says → Spells line says }
    ensures whole { (bytes : List ℕ) (lines : List (List ℕ)) (says : List Meaning) → IsText bytes lines → SpellAll lines says → StandOnce says → AreManifest (lines_of bytes) (manifest_of says) }
{}
