//! Components of scalars and vectors by their letters.

ghost use Rattle.std.specs.Prelude.{◌≡◌};
ghost use Rattle.gsl_makers.specs.Swizzles as spec;

use gsl_base::Text;
use gsl_values::Lanes;

/// The three sets of letters that name components.
#[derive(Clone, Copy, Debug, PartialEq, Eq)]
pub enum Letters {
    Xyzw,
    Rgba,
    Stpq,
}

fn letter_of(byte: u8) -> Option<(Letters, u32)>
    ensures { result ≡ spec.letter_of byte }
{
    if byte == b'x' {
        Some((Letters::Xyzw, 0))
    } else if byte == b'y' {
        Some((Letters::Xyzw, 1))
    } else if byte == b'z' {
        Some((Letters::Xyzw, 2))
    } else if byte == b'w' {
        Some((Letters::Xyzw, 3))
    } else if byte == b'r' {
        Some((Letters::Rgba, 0))
    } else if byte == b'g' {
        Some((Letters::Rgba, 1))
    } else if byte == b'b' {
        Some((Letters::Rgba, 2))
    } else if byte == b'a' {
        Some((Letters::Rgba, 3))
    } else if byte == b's' {
        Some((Letters::Stpq, 0))
    } else if byte == b't' {
        Some((Letters::Stpq, 1))
    } else if byte == b'p' {
        Some((Letters::Stpq, 2))
    } else if byte == b'q' {
        Some((Letters::Stpq, 3))
    } else {
        None
    }
}

fn same_letters(a: Letters, b: Letters) -> bool
    ensures { result ≡ spec.same_letters a b }
{
    match (a, b) {
        (Letters::Xyzw, Letters::Xyzw)
        | (Letters::Rgba, Letters::Rgba)
        | (Letters::Stpq, Letters::Stpq) => true,
        _ => false,
    }
}

/// The component that a letter of one set names, among so many.
fn component_by(set: Letters, count: u32, letter: Option<(Letters, u32)>) -> Option<u32>
    ensures { result ≡ spec.component_by set count letter }
{
    match letter {
        Some((of, component)) => {
            if same_letters(set, of) && component < count {
                Some(component)
            } else {
                None
            }
        }
        None => None,
    }
}

/// The component that stands at a place of a swizzle; 0 behind its last letter.
fn component_at(set: Letters, count: u32, name: &[u8], at: usize) -> Option<u32>
    ensures { result ≡ spec.component_at set count name.now at }
{
    if at < name.len() {
        component_by(set, count, letter_of(name[at]))
    } else {
        Some(0)
    }
}

fn lanes_with(
    count: u32,
    a: Option<u32>,
    b: Option<u32>,
    c: Option<u32>,
    d: Option<u32>,
) -> Option<Lanes>
    ensures { result ≡ spec.lanes_with count a b c d }
{
    match (a, b, c, d) {
        (Some(a), Some(b), Some(c), Some(d)) => Some(Lanes {
            words: [a, b, c, d],
            count,
        }),
        _ => None,
    }
}

/// The components that a name picks of so many.
#[tactic(auto, unfolding(crate::specs::Swizzles::swizzle))]
pub fn swizzle(count: u32, name: &Text) -> Option<Lanes>
    ensures { result ≡ spec.swizzle count name.now }
{
    let bytes = name.as_str().as_bytes();
    if bytes.is_empty() || bytes.len() > 4 {
        return None;
    }
    match letter_of(bytes[0]) {
        Some((set, _)) => lanes_with(
            bytes.len() as u32,
            component_at(set, count, bytes, 0),
            component_at(set, count, bytes, 1),
            component_at(set, count, bytes, 2),
            component_at(set, count, bytes, 3),
        ),
        None => None,
    }
}
