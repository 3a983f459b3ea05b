//! What does a block declare, or which is its first fault (GLSL 4.50, 4.3.9 and 4.4.5; GL_KHR_vulkan_glsl)?
//!
//! Read `specs/Blocks.antt`: one member, all of them, and then the block. `specs/Stands.antt` says what is known of the members so far, which
//! their layout asks for. Each call answers its definition, unless memory was wanting.
#![tactic(auto)]

mod declaring;
mod frame;
mod gathering;
mod member;
mod so_far;
mod standing;

pub use declaring::{
    block, block_with, frame_of, is_block_taken, kind_of, may_be_block, may_be_instance,
};
pub use frame::Frame;
pub use gathering::members_of;
pub use member::{has_member, is_misplaced_array, is_taken, may_be_member, may_stand};
pub use so_far::SoFar;
