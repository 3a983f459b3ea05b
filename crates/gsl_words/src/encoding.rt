ghost use Rattle.std.specs.Prelude.{◌≡◌, ◌++◌, length, take, OnOk, OnErr};
ghost use Rattle.std.specs.List.{flat_map};
ghost use Rattle.std.specs.Int.{w32, to_le_bytes};
ghost use Rattle.gsl_words.specs.Instructions.{HasFile};
ghost use Rattle.gsl_words.specs.Bytes.{bytes_of};

use crate::module::Module;
use byteorder::{ByteOrder, LittleEndian};
use gsl_base::{Bytes, Memory};

/// The first word of every module (SPIR-V 1.0, 2.3).
pub const MAGIC: u32 = 0x0723_0203;

/// Adds the bytes of the module's file at the end of `out`. After `Memory`, `out` is as before.
pub fn encode(module: &Module, out: &mut Bytes) -> Result<(), Memory>
    requires { HasFile «module».now }
    ensures ok { OnOk result (out.new ≡ out.old ++ bytes_of «module».now) }
    ensures memory { OnErr result (out.new ≡ out.old) }
{
    let before = out.len();
    let answer = put_module(module, out);
    if answer.is_err() {
        out.truncate(before);
    }
    answer
}

fn put_module(module: &Module, out: &mut Bytes) -> Result<(), Memory>
    requires { HasFile «module».now }
    ensures ok { OnOk result (out.new ≡ out.old ++ bytes_of «module».now) }
    ensures kept { take (length out.old) out.new ≡ out.old }
{
    put_words(&[MAGIC, module.version, 0, module.bound, 0], out)?;
    put_words(module.instrs.words(), out)
}

fn put_words(words: &[u32], out: &mut Bytes) -> Result<(), Memory>
    ensures ok { OnOk result (out.new ≡ out.old ++ flat_map (to_le_bytes w32) words.now) }
    ensures kept { take (length out.old) out.new ≡ out.old }
{
    for word in words {
        let mut bytes = [0; 4];
        LittleEndian::write_u32(&mut bytes, *word);
        out.extend_from_slice(&bytes)?;
    }
    Ok(())
}
