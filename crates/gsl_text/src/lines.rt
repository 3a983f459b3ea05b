//! The lines of a text.

ghost use Rattle.std.specs.Prelude.{◌≡◌, ◌≤◌, ◌<◌, ◌==◌, not, length, ◌∷◌};
ghost use Rattle.std.specs.List.{prefix_len};
ghost use Rattle.gsl_text.specs.Lines as spec;
ghost use Rattle.gsl_text.specs.Lines.{lines_of};

/// The first line of a text that is not empty, and the bytes behind it and its end.
pub fn first_line(bytes: &[u8]) -> (&[u8], &[u8])
    requires { 0 < length bytes.now }
    ensures lines { lines_of bytes.now ≡ result.0.now ∷ lines_of result.1.now }
    ensures less { length result.1.now < length bytes.now }
{
    let (piece, rest) = bytes.split_at(piece_len(bytes));
    match rest {
        [] => (piece, rest),
        [_, more @ ..] => (without_cr(piece), more),
    }
}

/// How many bytes stand before the first LF.
fn piece_len(bytes: &[u8]) -> usize
    ensures value { result ≡ prefix_len (λ byte. not (byte == 10)) bytes.now }
    ensures within { result ≤ length bytes.now }
{
    bytes.iter().take_while(|byte| **byte != b'\n').count()
}

/// A piece without the CR at its end, if it has one.
fn without_cr(piece: &[u8]) -> &[u8]
    ensures { result.now ≡ spec.without_cr piece.now }
{
    match piece {
        [front @ .., b'\r'] => front,
        _ => piece,
    }
}
