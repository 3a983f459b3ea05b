ghost use Rattle.std.specs.Prelude.{◌≡◌};
ghost use Rattle.gsl_store.specs.Roots.{root_of};
ghost use Rattle.gsl_meaning.specs.Accesses.{is_block as is_block_of};

use gsl_values::Value;

/// What an access begins at: a variable by its number, or a value that is in none.
#[derive(Drop)]
pub enum Root {
    Global(u32),
    Block(u32),
    Interface(u32),
    Param(u32),
    Local(u32),
    Loose(Value),
}

/// Whether it is a block.
pub(crate) fn is_block(root: &Root) -> bool
    ensures { result ≡ is_block_of (root_of root.now) }
{
    match root {
        Root::Block(_) => true,
        _ => false,
    }
}
