use gsl_base::Memory;
use gsl_instr::{op, push_string};
use gsl_words::{Args, Instr, Instrs};
use std::alloc::Global;

/// Whether a label and a load are read as they were put.
fn are_read(alloc: Global) -> Result<bool, Memory> {
    let args = Args::from_slice(alloc, &[3, 5, 7])?;
    let mut instrs = Instrs::new(alloc);
    instrs.put(op::LABEL, &[4])?;
    instrs.push(Instr { op: op::LOAD, args })?;
    let words: &[u32] = &[0x0002_00f8, 4, 0x0004_003d, 3, 5, 7];
    let alike = instrs.words() == words;
    let read = (instrs.op(0), instrs.args(0), instrs.args(1));
    Ok(
        alike
            && instrs.len() == 2
            && read.0 == op::LABEL
            && read.1 == [4].as_slice()
            && read.2 == [3, 5, 7].as_slice(),
    )
}

#[test]
fn instructions_are_read_as_they_were_put(rt: HostRuntime) {
    assert_eq!(rt; are_read(rt.alloc()), Ok(true));
}

/// Whether a text has these words.
fn fills(alloc: Global, text: &str, words: &[u32]) -> Result<bool, Memory> {
    let mut args = Args::new(alloc);
    push_string(&mut args, text)?;
    Ok(args.as_slice() == words)
}

/// Texts and their words, worked out by hand: bytes least first, a zero byte at the end.
const TEXTS: [(&str, &[u32]); 4] = [
    ("", &[0]),
    ("B", &[0x42]),
    ("main", &[0x6e69_616d, 0]),
    ("block", &[0x636f_6c62, 0x6b]),
];

#[test]
fn texts_fill_whole_words(rt: HostRuntime) {
    for (text, words) in &TEXTS {
        assert_eq!(rt; fills(rt.alloc(), text, words), Ok(true), "{text}");
    }
}

/// Whether a text follows the operands.
fn follows(alloc: Global) -> Result<bool, Memory> {
    let mut instrs = Instrs::new(alloc);
    instrs.put_text(op::NAME, &[6], "B")?;
    let args = instrs.args(0);
    Ok(args == [6, 0x42].as_slice() && instrs.len() == 1)
}

#[test]
fn a_text_follows_the_operands(rt: HostRuntime) {
    assert_eq!(rt; follows(rt.alloc()), Ok(true));
}
