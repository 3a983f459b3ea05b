//! Laws of the definitions: calls that do nothing, whose contracts are the laws.

ghost use Rattle.std.specs.Prelude.{◌≡◌, ◌<◌, ◌≤◌, ◌+◌, ◌*◌, ◌^◌, ℕ, List, Some, false, length, map, slice_get};
ghost use Rattle.std.specs.List.{AllByRecursion, range_with_len};
ghost use Rattle.gsl_base.specs.declared.input.Input.{Input};
ghost use Rattle.gsl_layout.specs.Layout.{Leaf};
ghost use Rattle.gsl_words.specs.Words.{word_at};
ghost use Rattle.gsl_words.specs.declared.module.Module.{Module};
ghost use Rattle.gsl_tree.specs.Around.{Around};
ghost use Rattle.gsl_tree.specs.Laying.{layout_of};
ghost use Rattle.gsl_tree.specs.Operations.{with_value_at};
ghost use Rattle.gsl_tree.specs.Values.{of_components};
ghost use Rattle.gsl_tree.specs.WellTyped.{is_push};
ghost use Rattle.gsl_tree.specs.declared.program.Program.{Program};
ghost use Rattle.gsl_tree.specs.declared.unit.Block.{Block};
ghost use Rattle.gsl_views.specs.Buffers.{bytes_at, put_words};
ghost use Rattle.gsl_views.specs.Paths.{Leads};
ghost use Rattle.gsl_meaning.specs.Blocks.{put_value, words_in};
ghost use Rattle.gsl_meaning.specs.State as shader;
ghost use Rattle.gsl_machine.specs.Memory.{bytes_of};
ghost use Rattle.gsl_machine.specs.State.{State};
ghost use Rattle.gsl_spv.specs.Sections.{Sections};
ghost use Rattle.gsl_lower_holders.specs.Flow.{Flow};
ghost use Rattle.gsl_lower_follows.specs.Frames.{Agrees, AreBytes, Frame, Good};
ghost use Rattle.gsl_lower_law_components.specs.Putting.{put_components};
ghost use Rattle.gsl_lower_law_members.specs.Sizes.{size_of};
ghost use Rattle.gsl_lower_law_places.specs.Storing.{set_each};
ghost use Rattle.gsl_lower_law_stored.specs.Buffers.{KnowsBuffers, with_bytes_of, with_value};

/// Where the variable of a block gets other bytes, and they are those that were given with what is seen of them put, the module's state is that of the shader in which the block has the words that are seen in them.
pub fn blocks_are_renewed()
    ensures { (m : Module) (input : Input) (whole : Sections) (f : Frame m input whole) (p : Program) (around : Around) → KnowsBuffers m input whole f p → (number id : ℕ) (block : Block) → slice_get p.blocks number ≡ Some block → slice_get f.place.blocks number ≡ Some id → is_push block.kind ≡ false → (b : Flow) (s : shader.State) (state : State) → Good m input whole f p around b s state → (given fresh : List ℕ) → bytes_at input.buffers block.set block.binding ≡ Some given → AreBytes fresh → put_value (layout_of p.structs block) 0 (words_in p.structs block fresh) given ≡ fresh → Agrees m input whole f p around (with_value s number (words_in p.structs block fresh)) (with_bytes_of m state id fresh) }
{}

/// So it is where the words of a scalar or vector are put at its offset: the block has those words at its path.
pub fn words_are_stored()
    ensures { (m : Module) (input : Input) (whole : Sections) (f : Frame m input whole) (p : Program) (around : Around) → KnowsBuffers m input whole f p → (number id : ℕ) (block : Block) → slice_get p.blocks number ≡ Some block → slice_get f.place.blocks number ≡ Some id → is_push block.kind ≡ false → (b : Flow) (s : shader.State) (state : State) → Good m input whole f p around b s state → (components offset : ℕ) (path words bytes : List ℕ) → bytes_of m input state id ≡ Some bytes → Leads (size_of m input id) (layout_of p.structs block) 0 path (Leaf components) offset → 1 ≤ components → length words ≡ components → AllByRecursion (λ word. word < 2 ^ 32) words → Agrees m input whole f p around (with_value s number (with_value_at (words_in p.structs block bytes) path (of_components words))) (with_bytes_of m state id (put_words offset words bytes)) }
{}

/// So it is where some components of a vector are put one by one.
pub fn components_are_stored()
    ensures { (m : Module) (input : Input) (whole : Sections) (f : Frame m input whole) (p : Program) (around : Around) → KnowsBuffers m input whole f p → (number id : ℕ) (block : Block) → slice_get p.blocks number ≡ Some block → slice_get f.place.blocks number ≡ Some id → is_push block.kind ≡ false → (b : Flow) (s : shader.State) (state : State) → Good m input whole f p around b s state → (components offset : ℕ) (path positions words bytes : List ℕ) → bytes_of m input state id ≡ Some bytes → Leads (size_of m input id) (layout_of p.structs block) 0 path (Leaf components) offset → 1 ≤ components → AllByRecursion (λ position. position < components) positions → AllByRecursion (λ word. word < 2 ^ 32) words → Agrees m input whole f p around (with_value s number (with_value_at (words_in p.structs block bytes) path (of_components (set_each positions words (map (λ k. word_at bytes (offset + 4 * k)) (range_with_len 0 components)))))) (with_bytes_of m state id (put_components offset positions words bytes)) }
{}
