use gsl_base::InputRefusal;

/// The refusal of a buffer, with its set and binding.
#[derive(Clone, Copy)]
pub struct Missed {
    pub set: u32,
    pub binding: u32,
    pub refusal: InputRefusal,
}
