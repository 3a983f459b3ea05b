//! `#version`, which every unit begins with.

ghost use Rattle.std.specs.Prelude.{◌≡◌, codes};
ghost use Rattle.gsl_macros.specs.Expanding.{at as fault_at};
ghost use Rattle.gsl_pp.specs.Unit as spec;

use crate::word::is_word;
use gsl_base::{Code, Fault, Place, Raw, RawKind};

pub(crate) fn at(place: Place, code: Code) -> Fault
    ensures { result ≡ fault_at place code }
{
    Fault { place, code }
}

fn is_450(raw: &Raw) -> bool
    ensures { result ≡ spec.is_number (codes "450") raw.now.kind }
{
    match &raw.kind {
        RawKind::Number(number) => number.as_str() == "450",
        _ => false,
    }
}

/// Whether nothing, or the profile, stands behind the number.
fn profiled(place: Place, raws: &[Raw]) -> Result<(), Fault>
    ensures { result ≡ spec.profiled place raws.now }
{
    let [core, more @ ..] = raws else {
        return Ok(());
    };
    if !is_word(core, "core") {
        return Err(at(place, Code::E0211));
    }
    if more.is_empty() {
        Ok(())
    } else {
        Err(at(place, Code::E0201))
    }
}

fn numbered(place: Place, raws: &[Raw]) -> Result<(), Fault>
    ensures { result ≡ spec.numbered place raws.now }
{
    let [number, more @ ..] = raws else {
        return Err(at(place, Code::E0211));
    };
    if is_450(number) {
        profiled(place, more)
    } else {
        Err(at(place, Code::E0211))
    }
}

/// Whether a directive is `#version 450` or `#version 450 core`; this stands behind the `#`.
#[tactic(auto, unfolding(crate::specs::Unit::versioned))]
pub(crate) fn versioned(place: Place, raws: &[Raw]) -> Result<(), Fault>
    ensures { result ≡ spec.versioned place raws.now }
{
    let [word, more @ ..] = raws else {
        return Err(at(place, Code::E0211));
    };
    if is_word(word, "version") {
        numbered(place, more)
    } else {
        Err(at(place, Code::E0211))
    }
}
