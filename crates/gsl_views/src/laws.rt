//! Laws of the definitions: calls that do nothing, whose contracts are the laws.

ghost use Rattle.std.specs.Prelude.{◌≡◌, ◌+◌, ◌*◌, ◌^◌, ◌<◌, ◌≤◌, List, length, slice_index, ℕ, ◌⊎◌};
ghost use Rattle.gsl_layout.specs.Layout.{IsLayout, Layout, Leaf, need};
ghost use Rattle.gsl_views.specs.Paths.{Leads, followed};
ghost use Rattle.gsl_views.specs.Seen.{changed, seen};
ghost use Rattle.gsl_words.specs.Words.{put_word};

/// What a path leads to in the tree is what is seen at the place to which it leads in the bytes.
pub fn paths_lead_alike()
    ensures { (layout part : Layout) (at place : ℕ) (path bytes : List ℕ) → Leads (length bytes) layout at path part place → followed (seen layout at bytes) path ≡ seen part place bytes }
{}

/// A word that is put at a leaf changes that leaf of the tree alone.
pub fn one_leaf_changes()
    ensures { (layout : Layout) (at place components c word : ℕ) (path bytes : List ℕ) → IsLayout layout → at + need layout ≤ length bytes → Leads (length bytes) layout at path (Leaf components) place → c < components → word < 2 ^ 32 → seen layout at (put_word bytes (place + 4 * c) word) ≡ changed (seen layout at bytes) path c word }
{}

/// A word that is put changes its four bytes alone, and there are as many as before.
pub fn four_bytes_change()
    ensures others { (bytes : List ℕ) (at word k : ℕ) → ((k < at) ⊎ (at + 4 ≤ k)) → slice_index (put_word bytes at word) k ≡ slice_index bytes k }
    ensures length { (bytes : List ℕ) (at word : ℕ) → length (put_word bytes at word) ≡ length bytes }
{}
