//! Laws of the definitions: calls that do nothing, whose contracts are the laws.

ghost use Rattle.gsl_base.specs.Proper.{IsProper};
ghost use Rattle.gsl_base.specs.Ranges.{FitsTypes};
ghost use Rattle.gsl_base.specs.declared.input.Input.{Input};
ghost use Rattle.gsl_lower_follows.specs.Frames.{AreBytes, Frame, IsSeen};
ghost use Rattle.gsl_lower_holders.specs.Flow.{Flow};
ghost use Rattle.gsl_lower_law_bound.specs.OfLawInputs.{IsFitting};
ghost use Rattle.gsl_lower_law_bound.specs.OfLawOutside.{HaveOutside};
ghost use Rattle.gsl_machine.specs.Machine.{start};
ghost use Rattle.gsl_machine.specs.Memory.{bytes_of};
ghost use Rattle.gsl_meaning.specs.Blocks.{put_blocks, words_in};
ghost use Rattle.gsl_meaning.specs.Shader.{begins};
ghost use Rattle.gsl_spv.specs.Finished.{module_of};
ghost use Rattle.gsl_spv.specs.Sections.{Sections};
ghost use Rattle.gsl_tree.specs.Around.{Around};
ghost use Rattle.gsl_tree.specs.WellTyped.{IsProgram};
ghost use Rattle.gsl_tree.specs.declared.program.Program.{Program};
ghost use Rattle.gsl_tree.specs.declared.unit.Block.{Block};
ghost use Rattle.gsl_valid.specs.Valid.{Valid};
ghost use Rattle.gsl_words.specs.declared.module.Module.{Module};
ghost use Rattle.gsl_words.specs.declared.target.Target.{Target};
ghost use Rattle.std.specs.Prelude.{List, Some, slice_get, ℕ, ◌≡◌};

/// In the valid module of a program each block has the bytes that are given for it as a run starts, and the shader begins with the words that are seen there, where the input fits the program and its numbers are in the ranges of their types.
pub fn blocks_begin()
    ensures { (target : Target) (p : Program) (main : ℕ) (flow : Flow) → IsProgram p → Valid (module_of flow.sections main p.local_size) → (h : HaveOutside target p main flow) → (input : Input) → FitsTypes input → IsFitting p input → (number id : ℕ) (block : Block) → slice_get p.blocks number ≡ Some block → slice_get h.place.blocks number ≡ Some id → (bytes : List ℕ) × (bytes_of (module_of flow.sections main p.local_size) input (start (module_of flow.sections main p.local_size) input) id ≡ Some bytes) × (slice_get (begins p input).blocks number ≡ Some (words_in p.structs block bytes)) × AreBytes bytes }
{}

/// What a shader begins with in a block is seen in bytes, where the input fits the program and its numbers are in the ranges of their types.
pub fn blocks_are_seen()
    ensures { (p : Program) (input : Input) → FitsTypes input → IsFitting p input → (m : Module) (whole : Sections) (f : Frame m input whole) (around : Around) (number : ℕ) (block : Block) → slice_get p.blocks number ≡ Some block → IsSeen m input whole f p around block (slice_get (begins p input).blocks number) }
{}

/// With the words put into them with which a shader begins, the buffers of a proper input are as they were.
pub fn buffers_stay()
    ensures { (p : Program) (input : Input) → IsProper input → FitsTypes input → input.buffers ≡ put_blocks p.structs p.blocks (begins p input).blocks input.buffers }
{}
