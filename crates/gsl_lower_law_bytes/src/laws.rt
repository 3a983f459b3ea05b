//! Laws of the definitions: calls that do nothing, whose contracts are the laws.

ghost use Rattle.std.specs.Prelude.{◌≡◌, ◌<◌, ◌≤◌, ◌+◌, ◌*◌, ◌^◌, ℕ, Some, false, length, map, set, slice_get, List};
ghost use Rattle.std.specs.List.{AllByRecursion, range_with_len};
ghost use Rattle.gsl_base.specs.declared.input.Buffer.{Buffer};
ghost use Rattle.gsl_layout.specs.Layout.{IsLayout, Layout, Leaf, need};
ghost use Rattle.gsl_types.specs.declared.ty.StructType.{StructType};
ghost use Rattle.gsl_words.specs.Words.{word_at};
ghost use Rattle.gsl_values.specs.declared.value.Value.{Value};
ghost use Rattle.gsl_tree.specs.Laying.{layout_of};
ghost use Rattle.gsl_tree.specs.Operations.{with_value_at};
ghost use Rattle.gsl_tree.specs.Values.{of_components};
ghost use Rattle.gsl_tree.specs.WellTyped.{is_push};
ghost use Rattle.gsl_tree.specs.declared.unit.Block.{Block};
ghost use Rattle.gsl_views.specs.Buffers.{bytes_at, put_words, with_bytes};
ghost use Rattle.gsl_views.specs.Paths.{Leads};
ghost use Rattle.gsl_views.specs.Seen.{seen};
ghost use Rattle.gsl_meaning.specs.Blocks.{put_blocks, put_value, value_of};
ghost use Rattle.gsl_lower_law_components.specs.OfLawPlaces.{set_each};
ghost use Rattle.gsl_lower_law_components.specs.Putting.{put_components};
ghost use Rattle.gsl_lower_law_bytes.specs.Apart.{IsOnly, StandsAlone};

/// Where bytes are those that were given, with what is seen of them put, and a scalar or vector is stored at a path, they are those that were given, with the value put that has it at that path.
pub fn puts_are_told()
    ensures { (l : Layout) (components offset : ℕ) (path words given bytes : List ℕ) → IsLayout l → need l ≤ length bytes → length given ≡ length bytes → AllByRecursion (λ byte. byte < 256) bytes → put_value l 0 (value_of (seen l 0 bytes)) given ≡ bytes → Leads (length bytes) l 0 path (Leaf components) offset → 1 ≤ components → length words ≡ components → AllByRecursion (λ word. word < 2 ^ 32) words → put_value l 0 (with_value_at (value_of (seen l 0 bytes)) path (of_components words)) given ≡ put_words offset words bytes }
{}

/// So they are where components of a vector are stored one by one, and what is seen there is the vector with those components.
pub fn parts_are_told()
    ensures { (l : Layout) (components offset : ℕ) (path given bytes positions words : List ℕ) → IsLayout l → need l ≤ length bytes → length given ≡ length bytes → AllByRecursion (λ byte. byte < 256) bytes → put_value l 0 (value_of (seen l 0 bytes)) given ≡ bytes → Leads (length bytes) l 0 path (Leaf components) offset → 1 ≤ components → AllByRecursion (λ position. position < components) positions → AllByRecursion (λ word. word < 2 ^ 32) words → (value_of (seen l 0 (put_components offset positions words bytes)) ≡ with_value_at (value_of (seen l 0 bytes)) path (of_components (set_each positions words (map (λ k. word_at bytes (offset + 4 * k)) (range_with_len 0 components))))) × (put_value l 0 (value_of (seen l 0 (put_components offset positions words bytes))) given ≡ put_components offset positions words bytes) }
{}

/// Where one block alone has its buffer at a set and binding, and one buffer alone is there, its bytes are those that were given, with the value of the block put; and another value of the block changes these bytes alone.
pub fn buffers_are_told()
    ensures bytes { (structs : List StructType) (blocks : List Block) (number : ℕ) (block : Block) (vs : List Value) (v : Value) (buffers : List Buffer) (given : List ℕ) → is_push block.kind ≡ false → StandsAlone block.set block.binding blocks number block → IsOnly block.set block.binding buffers → bytes_at buffers block.set block.binding ≡ Some given → slice_get vs number ≡ Some v → bytes_at (put_blocks structs blocks vs buffers) block.set block.binding ≡ Some (put_value (layout_of structs block) 0 v given) }
    ensures set { (structs : List StructType) (blocks : List Block) (number : ℕ) (block : Block) (vs : List Value) (v new : Value) (buffers : List Buffer) (given : List ℕ) → is_push block.kind ≡ false → StandsAlone block.set block.binding blocks number block → IsOnly block.set block.binding buffers → bytes_at buffers block.set block.binding ≡ Some given → slice_get vs number ≡ Some v → put_blocks structs blocks (set vs number new) buffers ≡ with_bytes (put_blocks structs blocks vs buffers) block.set block.binding (put_value (layout_of structs block) 0 new given) }
{}
