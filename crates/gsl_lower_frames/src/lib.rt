//! Is there a frame where a function of a valid module begins?
#![tactic(auto)]

mod laws;

pub use laws::{
    called_functions_have_frames, functions_stand, functions_text, labels_are_found,
    main_has_a_frame, modules_enter_main, modules_start, numbers_are_positions,
    sections_hold_functions,
};
