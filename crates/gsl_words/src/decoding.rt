//! Reading a module from the bytes of its file.

ghost use Rattle.std.specs.Prelude.{◌≡◌, ◌+◌, ◌*◌, ◌^◌, ◌<◌, ◌≤◌, length, IfOk, IfErr};
ghost use Rattle.gsl_words.specs.declared.module.Module.{Module as AnyModule};
ghost use Rattle.gsl_words.specs.Instructions.{HasFile};
ghost use Rattle.gsl_words.specs.Bytes.{bytes_of};
ghost use Rattle.gsl_words.specs.Faults as spec;
ghost use Rattle.gsl_words.specs.Faults.{AreRead, AreWhole, Breaks, Ends, FitsTypes, Gives, HasFault, HasHeader, IsHead};

use crate::encoding::MAGIC;
use crate::fault::WordFault;
use crate::instrs::Instrs;
use crate::module::Module;
use crate::target::Target;
use gsl_base::{List, Memory};
use gsl_instr::{Form, allows_words, fits_text, form_of};
use std::alloc::Global;

/// The first word where the most significant bytes come first.
const MAGIC_TURNED: u32 = 0x0302_2307;

/// How many bytes a header has.
const HEADER: usize = 20;

/// The module of a file's bytes, or why they are none.
pub fn decode(alloc: Global, bytes: &[u8]) -> Result<Module, WordFault>
    requires { length bytes.now < 2 ^ 32 }
    ensures found { IfOk result (λ m. HasFile m × FitsTypes m × (bytes.now ≡ bytes_of m)) }
    ensures only { (m : AnyModule) → HasFile m → FitsTypes m → bytes.now ≡ bytes_of m → Gives result m }
    ensures fault { IfErr result (HasFault bytes.now) }
{
    let (version, bound) = header(bytes)?;
    let words = words_of(alloc, &bytes[HEADER..])?;
    let instrs = Instrs::read(alloc, words)?;
    Ok(Module {
        version,
        bound,
        instrs,
    })
}

/// The version and the bound that a file's header has.
fn header(bytes: &[u8]) -> Result<(u32, u32), WordFault>
    ensures ok { IfOk result (λ h. AreWhole bytes.now × (spec.word_of bytes.now 0 ≡ spec.magic) × HasHeader bytes.now × (h.0 ≡ spec.word_of bytes.now 1) × (h.1 ≡ spec.word_of bytes.now 3)) }
    ensures fault { IfErr result (HasFault bytes.now) }
{
    if bytes.len() < HEADER || bytes.len() % 4 != 0 {
        return Err(WordFault::NotWhole);
    }
    let first = word(bytes, 0);
    if first == MAGIC_TURNED {
        return Err(WordFault::BigEndian);
    }
    if first != MAGIC {
        return Err(WordFault::BadMagic);
    }
    let version = word(bytes, 1);
    if Target::of_version(version).is_none() || word(bytes, 2) != 0 || word(bytes, 4) != 0 {
        return Err(WordFault::BadHeader);
    }
    Ok((version, word(bytes, 3)))
}

/// A word of a file by its place.
fn word(bytes: &[u8], k: usize) -> u32
    requires few { k < 2 ^ 32 }
    requires within { 4 * k + 4 ≤ length bytes.now }
    ensures { result ≡ spec.word_of bytes.now k }
{
    let at = 4 * k;
    u32::from_le_bytes([bytes[at], bytes[at + 1], bytes[at + 2], bytes[at + 3]])
}

/// The words of bytes, the least byte of each first.
fn words_of(alloc: Global, bytes: &[u8]) -> Result<Vec<u32>, Memory>
    ensures { IfOk result (λ words. words.items ≡ spec.words_of bytes.now) }
{
    let mut words = Vec::with_capacity(alloc, bytes.len() / 4)?;
    let mut rest = bytes;
    while let [a, b, c, d, more @ ..] = rest {
        words.push(u32::from_le_bytes([*a, *b, *c, *d]))?;
        rest = more;
    }
    Ok(words)
}

/// Where the instructions start that the words behind a header are, or what is wrong with them.
pub fn starts_of(alloc: Global, words: &[u32]) -> Result<List<usize>, WordFault>
    requires { length words.now < 2 ^ 30 }
    ensures ok { IfOk result (λ starts. AreRead words.now starts) }
    ensures fault { IfErr result (Ends words.now) }
{
    let mut starts = List::new(alloc);
    let mut at = 0;
    while at < words.len() {
        let count = head(alloc, &words[at..], at as u32 + 5)?;
        starts.push(at)?;
        at += count;
    }
    Ok(starts)
}

/// How many words the instruction has that words begin with, at a place of the file, or what is wrong with it.
fn head(alloc: Global, words: &[u32], place: u32) -> Result<usize, WordFault>
    requires { 0 < length words.now }
    ensures ok { IfOk result (IsHead words.now) }
    ensures fault { IfErr result (Breaks words.now place) }
{
    let first = words[0];
    let count = (first / 65536) as usize;
    let Some(form) = form_of((first % 65536) as u16) else {
        return Err(WordFault::UnknownOpcode(place));
    };
    if !is_counted(form, count, words.len()) {
        return Err(WordFault::BadCount(place));
    }
    if !fits_text(alloc, form, &words[1..count])? {
        return Err(WordFault::BadString(place));
    }
    Ok(count)
}

/// Whether a count of words is one of the form's, where so many are left.
fn is_counted(form: Form, count: usize, left: usize) -> bool
    ensures { result ≡ spec.is_counted form count left }
{
    1 <= count && count <= left && allows_words(form, count - 1)
}
