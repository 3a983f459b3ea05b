//! Tests of modules.
#![tactic(auto)]

#[cfg(test)]
mod asm;
#[cfg(test)]
mod blocks;
#[cfg(test)]
mod ids;
#[cfg(test)]
mod instr;
#[cfg(test)]
mod spv;
#[cfg(test)]
mod valid_blocks;
#[cfg(test)]
mod valid_calls;
#[cfg(test)]
mod valid_entry;
#[cfg(test)]
mod valid_layouts;
#[cfg(test)]
mod valid_order;
#[cfg(test)]
mod valid_types;
#[cfg(test)]
mod words;
