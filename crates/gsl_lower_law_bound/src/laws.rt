//! Laws of the definitions: calls that do nothing, whose contracts are the laws.

ghost use Rattle.gsl_base.specs.declared.input.Input.{Input};
ghost use Rattle.gsl_lower_follows.specs.Frames.{Frame};
ghost use Rattle.gsl_lower_holders.specs.Flow.{Flow};
ghost use Rattle.gsl_lower_law_bound.specs.Bound.{IsBound, IsShort};
ghost use Rattle.gsl_lower_law_inputs.specs.OfLawEntered.{IsFrame};
ghost use Rattle.gsl_lower_law_inputs.specs.OfLawOutside.{HaveOutside};
ghost use Rattle.gsl_lower_reaching.specs.Reaching.{KnowsMember};
ghost use Rattle.gsl_spv.specs.Finished.{module_of};
ghost use Rattle.gsl_tree.specs.Around.{Around};
ghost use Rattle.gsl_tree.specs.Expressions.{is_runtime_layer};
ghost use Rattle.gsl_tree.specs.WellTyped.{IsProgram};
ghost use Rattle.gsl_tree.specs.declared.program.Program.{Program};
ghost use Rattle.gsl_tree.specs.declared.unit.Block.{Block};
ghost use Rattle.gsl_tree.specs.declared.unit.BlockMember.{BlockMember};
ghost use Rattle.gsl_types.specs.declared.ty.Ty.TheViews.{out-Ty};
ghost use Rattle.gsl_valid.specs.Valid.{Valid};
ghost use Rattle.gsl_values.specs.declared.value.Value.{Value};
ghost use Rattle.gsl_words.specs.declared.target.Target.{Target};
ghost use Rattle.std.specs.Prelude.{List, Option, Some, slice_get, true, ℕ, ◌≡◌};

/// In the valid module of a program each block has a variable of its own, which holds what lies by the block's layout, at the block's set and binding.
pub fn blocks_are_bound()
    ensures { (target : Target) (p : Program) (main : ℕ) (flow : Flow) → IsProgram p → Valid (module_of flow.sections main p.local_size) → (h : HaveOutside target p main flow) → (number : ℕ) (block : Block) → slice_get p.blocks number ≡ Some block → (id : ℕ) × (slice_get h.place.blocks number ≡ Some id) × IsBound (module_of flow.sections main p.local_size) p.structs block id }
{}

/// There each function knows each member of each block. Of a runtime array it is asked that the counts of the bytes that are given are words.
pub fn members_are_known()
    ensures { (target : Target) (p : Program) (main : ℕ) (flow : Flow) → IsProgram p → Valid (module_of flow.sections main p.local_size) → (h : HaveOutside target p main flow) → (input : Input) → (stages : List (Option Value)) (f : Frame (module_of flow.sections main p.local_size) input flow.sections) → IsFrame (module_of flow.sections main p.local_size) input flow.sections h.place stages f → (around : Around) (number member : ℕ) (block : Block) (one : BlockMember) → slice_get p.blocks number ≡ Some block → slice_get block.members member ≡ Some one → (is_runtime_layer (out-Ty one.ty) ≡ true → IsShort input) → KnowsMember (module_of flow.sections main p.local_size) input flow.sections f p around number member one.ty }
{}
