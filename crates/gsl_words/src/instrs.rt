//! The instructions of a module, in one list of words.

ghost use Rattle.std.specs.Prelude.{◌≡◌, ℕ, ◌+◌, ◌*◌, ◌%◌, ◌^◌, ◌<◌, ◌≤◌, [], ◌∷◌, ◌++◌, length, take, drop, slice_get, slice_index, Some, All, OnOk, OnErr, IfOk, IfErr, IsSomeAnd};
ghost use Rattle.std.specs.List.{flat_map, AllByRecursion};
ghost use Rattle.gsl_words.specs.Flat.{parts, kept_words, end_of, IsFlat};

use crate::decoding::starts_of;
use crate::fault::WordFault;
use crate::module::{Args, Instr};
use gsl_base::Memory;
use gsl_instr::push_string;
use std::alloc::Global;
use std::marker::Model;

/// The instructions of a module, in their order: all their words in one list, and where each of them
/// starts. Contracts see the list of the instructions.
#[derive(Debug, Drop)]
pub struct Instrs {
    alloc: Global,
    words: Vec<u32>,
    starts: Vec<usize>,
}

impl Model for Instrs {
    ghost use Rattle.std.specs.Prelude.{List as Plain};
    ghost use Rattle.gsl_words.specs.declared.module.Instr.{Instr};

    ghost Value = { Plain Instr };

    ghost use Rattle.gsl_words.specs.Flat.{parts, IsFlat};

    ghost view = { λ instrs. parts instrs.words.items instrs.starts.items };

    ghost invariant = { λ instrs. IsFlat instrs.words.items instrs.starts.items };
}

impl Instrs {
    ghost use Rattle.gsl_words.specs.declared.module.Instr.{Instr};
    ghost use Rattle.gsl_words.specs.Bytes.{instr_words};
    ghost use Rattle.gsl_words.specs.Instructions.{word_count, IsInTable};
    ghost use Rattle.gsl_words.specs.Faults.{Ends};
    ghost use Rattle.gsl_instr.specs.Strings.{string_words};

    /// No instructions, which takes no memory.
    pub fn new(alloc: Global) -> Instrs
        ensures { result ≡ [] }
    {
        Instrs {
            alloc,
            words: Vec::new(alloc),
            starts: Vec::new(alloc),
        }
    }

    /// The instructions that the words behind a header are, or what is wrong with them.
    pub(crate) fn read(alloc: Global, words: Vec<u32>) -> Result<Instrs, WordFault>
        requires { length words.items < 2 ^ 30 }
        ensures ok { IfOk result (λ code. All IsInTable code × (words.items ≡ flat_map instr_words code) × AllByRecursion (λ instr. instr.op < 2 ^ 16) code) }
        ensures fault { IfErr result (Ends words.items) }
    {
        let starts = starts_of(alloc, words.as_slice())?;
        Ok(Instrs {
            alloc,
            words,
            starts: starts.into_vec(),
        })
    }

    /// How many instructions there are.
    pub fn len(&self) -> usize
        ensures { result ≡ length self.now }
    {
        self.starts.len()
    }

    /// Adds an instruction at the end. After `Memory` the list is as before and the instruction is
    /// given up.
    pub fn push(&mut self, instr: Instr) -> Result<(), Memory>
        ensures ok { OnOk result (self.new ≡ self.old ++ instr ∷ []) }
        ensures memory { OnErr result (self.new ≡ self.old) }
    {
        self.put(instr.op, instr.args.as_slice())
    }

    /// Adds an instruction of this opcode and these operands at the end. After `Memory` the list is as
    /// before.
    pub fn put(&mut self, op: u16, args: &[u32]) -> Result<(), Memory>
        ensures ok { OnOk result (self.new ≡ self.old ++ record { op = op; args = args.now } ∷ []) }
        ensures memory { OnErr result (self.new ≡ self.old) }
    {
        self.words.reserve(1 + args.len())?;
        self.starts.reserve(1)?;
        let start = self.words.len();
        self.words.push(kept_first(op, 1 + args.len()))?;
        self.words.extend_from_slice(args)?;
        self.starts.push(start)?;
        Ok(())
    }

    /// Adds an instruction whose last operand is a text at the end (SPIR-V 1.0, 2.2.1). After `Memory`
    /// the list is as before.
    pub fn put_text(&mut self, op: u16, args: &[u32], text: &str) -> Result<(), Memory>
        ensures ok { OnOk result (self.new ≡ self.old ++ record { op = op; args = args.now ++ string_words text.now } ∷ []) }
        ensures memory { OnErr result (self.new ≡ self.old) }
    {
        let mut operands = Args::from_slice(self.alloc, args)?;
        push_string(&mut operands, text)?;
        self.put(op, operands.as_slice())
    }

    /// The words of all instructions in their order (SPIR-V 1.0, 2.3).
    pub fn words(&self) -> &[u32]
        requires { All (λ instr. word_count instr < 2 ^ 16) self.now }
        ensures { result.now ≡ flat_map instr_words self.now }
    {
        self.words.as_slice()
    }

    /// The opcode of an instruction.
    pub fn op(&self, i: u32) -> u16
        requires { i < length self.now }
        ensures { IsSomeAnd (slice_get self.now i) (λ instr. result ≡ instr.op) }
    {
        let part = part(self.words.as_slice(), self.starts.as_slice(), i as usize);
        (part[0] % 65536) as u16
    }

    /// The operands of an instruction.
    pub fn args(&self, i: u32) -> &[u32]
        requires { i < length self.now }
        ensures { IsSomeAnd (slice_get self.now i) (λ instr. result.now ≡ instr.args) }
    {
        let part = part(self.words.as_slice(), self.starts.as_slice(), i as usize);
        &part[1..]
    }
}

/// The words of an instruction by its number.
fn part<'a>(words: &'a [u32], starts: &[usize], i: usize) -> &'a [u32]
    requires flat { IsFlat words.now starts.now }
    requires within { i < length starts.now }
    ensures { IsSomeAnd (slice_get (parts words.now starts.now) i) (λ instr. (result.now ≡ kept_words instr) × (instr.op < 2 ^ 16)) }
{
    let start = starts[i];
    let end = part_end(words, starts, i);
    &words[start..end]
}

/// Where an instruction ends: where the next one starts, or all words do.
fn part_end(words: &[u32], starts: &[usize], i: usize) -> usize
    requires flat { IsFlat words.now starts.now }
    requires within { i < length starts.now }
    ensures value { result ≡ end_of words.now starts.now i }
    ensures some { slice_index starts.now i < result }
    ensures within { result ≤ length words.now }
{
    if i + 1 < starts.len() {
        starts[i + 1]
    } else {
        words.len()
    }
}

/// The word that an instruction of so many words begins with, as far as the count has room.
fn kept_first(op: u16, words: usize) -> u32
    ensures { result ≡ words % 65536 * 65536 + op }
{
    (words % 65536) as u32 * 65536 + u32::from(op)
}
