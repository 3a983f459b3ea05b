//! What a machine keeps while a module runs.

use crate::callers::Callers;
use crate::standing::Standing;
use gsl_base::Buffers;
use gsl_region::Region;
use gsl_slots::Slots;
use gsl_values::Choices;

/// What a machine keeps while a module runs: where the function that runs stands, and those that wait; the words of constants, and behind them of what ids stand for; the words of
/// variables; the buffers, and the choices that are left.
#[derive(Drop)]
pub struct Machine {
    pub standing: Standing,
    pub callers: Callers,
    pub slots: Slots,
    pub words: Region,
    pub buffers: Buffers,
    pub choices: Choices,
}
