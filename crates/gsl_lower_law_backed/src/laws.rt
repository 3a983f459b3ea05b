//! Laws of the definitions: calls that do nothing, whose contracts are the laws.

ghost use Rattle.gsl_base.specs.Proper.{IsProper};
ghost use Rattle.gsl_base.specs.declared.input.Input.{Input};
ghost use Rattle.gsl_layout.specs.Layout.{IsLayout};
ghost use Rattle.gsl_lower_follows.specs.Frames.{Frame};
ghost use Rattle.gsl_lower_holders.specs.Flow.{Flow};
ghost use Rattle.gsl_lower_law_entered.specs.Modules.{IsFrame};
ghost use Rattle.gsl_lower_law_bound.specs.OfLawInputs.{IsFitting};
ghost use Rattle.gsl_lower_law_bound.specs.OfLawOutside.{HaveOutside};
ghost use Rattle.gsl_lower_law_stored.specs.Buffers.{HasBuffer, KnowsBuffers};
ghost use Rattle.gsl_spv.specs.Finished.{module_of};
ghost use Rattle.gsl_tree.specs.Laying.{layout_of};
ghost use Rattle.gsl_tree.specs.WellTyped.{IsProgram, is_push};
ghost use Rattle.gsl_tree.specs.declared.program.Program.{Program};
ghost use Rattle.gsl_tree.specs.declared.unit.Block.{Block};
ghost use Rattle.gsl_valid.specs.Valid.{Valid};
ghost use Rattle.gsl_values.specs.declared.value.Value.{Value};
ghost use Rattle.gsl_words.specs.declared.target.Target.{Target};
ghost use Rattle.std.specs.Prelude.{List, Option, Some, false, slice_get, ℕ, ◌≡◌};

/// Each block of a program lies by a well-formed layout (GLSL 4.50, 4.4.5).
pub fn blocks_are_laid()
    ensures { (p : Program) → IsProgram p → (number : ℕ) (block : Block) → slice_get p.blocks number ≡ Some block → IsLayout (layout_of p.structs block) }
{}

/// On a proper input that fits the program, a block that is none of push constants has the one buffer at its set and binding, where no other block has its own, and it is as long as the block needs.
pub fn blocks_have_their_buffers()
    ensures { (p : Program) (input : Input) → IsProgram p → IsProper input → IsFitting p input → (number : ℕ) (block : Block) → slice_get p.blocks number ≡ Some block → is_push block.kind ≡ false → HasBuffer input p number block }
{}

/// That is known in each frame of the valid module of the program, as are the decorations of the variables of blocks.
pub fn buffers_are_known()
    ensures { (target : Target) (p : Program) (main : ℕ) (flow : Flow) → IsProgram p → Valid (module_of flow.sections main p.local_size) → (h : HaveOutside target p main flow) → (input : Input) → IsProper input → IsFitting p input → (stages : List (Option Value)) (f : Frame (module_of flow.sections main p.local_size) input flow.sections) → IsFrame (module_of flow.sections main p.local_size) input flow.sections h.place stages f → KnowsBuffers (module_of flow.sections main p.local_size) input flow.sections f p }
{}
