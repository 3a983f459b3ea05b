use gsl_base::List;
use gsl_tree::StageVar;
use gsl_values::Builtin;

/// What a name stands for. Variables, blocks, structs and functions are named by their numbers in the lists of the unit or of
/// the function.
#[derive(Clone, Copy, Debug, PartialEq, Eq)]
pub enum Entry {
    /// A local variable, and whether it is `const`.
    Local(u32, bool),
    /// A parameter, and whether it is `const`.
    Param(u32, bool),
    /// A global variable.
    Global(u32),
    /// A member of a block without an instance name: the block, and the member.
    Member(u32, u32),
    /// The instance name of a block.
    Instance(u32),
    /// The own name of a block, which no expression uses.
    Block(u32),
    /// An input or an output.
    Interface(u32),
    Struct(u32),
    /// A function, by its prototype.
    Function(u32),
    /// A built-in function.
    Builtin(Builtin),
    /// A built-in variable of the stage.
    Stage(StageVar),
    /// `gl_WorkGroupSize`
    Size,
}

/// What several declarations stand for.
pub type Entries = List<Entry>;
