//! New numbers of what a unit declares.

use gsl_base::List;
use std::marker::Model;

/// The new numbers of what a unit declares, each list by the unit's own numbers.
#[derive(Drop)]
pub struct Numbering {
    pub structs: List<u32>,
    pub globals: List<u32>,
    pub blocks: List<u32>,
    pub interfaces: List<u32>,
    pub heads: List<u32>,
}

impl Model for Numbering {
    ghost use Rattle.gsl_link_whole.specs.Numbers.{Numbering as New};

    ghost Value = { New };

    ghost view = { λ n. record { structs = n.structs; globals = n.globals; blocks = n.blocks; interfaces = n.interfaces; heads = n.heads } };
}
