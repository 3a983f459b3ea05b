//! Laws of the definitions: calls that do nothing, whose contracts are the laws.

ghost use Rattle.std.specs.Prelude.{◌≡◌, ◌<◌, ◌≤◌, ◌+◌, ◌*◌, ◌^◌, ℕ, length, map, set, List};
ghost use Rattle.std.specs.List.{AllByRecursion, range_with_len};
ghost use Rattle.gsl_layout.specs.Layout.{IsLayout, Layout, Leaf, need};
ghost use Rattle.gsl_words.specs.Words.{put_word, word_at};
ghost use Rattle.gsl_tree.specs.Operations.{with_value_at};
ghost use Rattle.gsl_tree.specs.Values.{of_components};
ghost use Rattle.gsl_views.specs.Buffers.{put_words};
ghost use Rattle.gsl_views.specs.Paths.{Leads};
ghost use Rattle.gsl_views.specs.Seen.{seen};
ghost use Rattle.gsl_meaning.specs.Blocks.{value_of};

/// Where the words of a run of components were put, what is seen through the layout is the same with that scalar or vector at its path; where
/// one word was put, with that component.
pub fn stores_are_seen()
    ensures all { (l : Layout) (at offset components : ℕ) (path words bytes : List ℕ) → IsLayout l → at + need l ≤ length bytes → Leads (length bytes) l at path (Leaf components) offset → 1 ≤ components → length words ≡ components → AllByRecursion (λ word. word < 2 ^ 32) words → value_of (seen l at (put_words offset words bytes)) ≡ with_value_at (value_of (seen l at bytes)) path (of_components words) }
    ensures one { (l : Layout) (at offset components component word : ℕ) (path bytes : List ℕ) → IsLayout l → at + need l ≤ length bytes → Leads (length bytes) l at path (Leaf components) offset → component < components → word < 2 ^ 32 → value_of (seen l at (put_word bytes (offset + 4 * component) word)) ≡ with_value_at (value_of (seen l at bytes)) path (of_components (set (map (λ k. word_at bytes (offset + 4 * k)) (range_with_len 0 components)) component word)) }
{}
