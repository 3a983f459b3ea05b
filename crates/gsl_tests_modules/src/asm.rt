ghost use Rattle.std.specs.Prelude.{◌<◌, ◌^◌, length};
ghost use Rattle.gsl_words.specs.Instructions.{HasFile};

use gsl_asm::{AsmFault, assemble, show};
use gsl_base::{Bytes, Memory};
use gsl_words::{Module, encode};
use std::alloc::Global;

/// A compute shader that does nothing.
fn text() -> &'static [u8]
    ensures { length result.now < 2 ^ 32 }
{
    b"spirv 1.0 5\nOpCapability Shader\nOpMemoryModel Logical GLSL450\nOpEntryPoint GLCompute %1 \"main\"\nOpExecutionMode %1 LocalSize 1 1 1\n%2 = OpTypeVoid\n%3 = OpTypeFunction %2\n%1 = OpFunction %2 0 %3\n%4 = OpLabel\nOpReturn\nOpFunctionEnd\n"
}

/// How many bytes the file of a module has.
fn file_size(alloc: Global, of: &Module) -> Result<usize, Memory>
    requires { HasFile of.now }
{
    let mut bytes = Bytes::new(alloc);
    encode(of, &mut bytes)?;
    Ok(bytes.len())
}

/// Whether a module is shown as the text.
fn is_shown(alloc: Global, of: &Module) -> Result<bool, Memory>
    requires file { HasFile of.now }
    requires few { length of.now.instrs < 2 ^ 32 }
{
    let shown = show(alloc, of)?;
    Ok(shown.as_slice() == text())
}

/// How many instructions and bytes the module of the text has, and whether it is shown as it.
fn told(alloc: Global) -> Result<(usize, Result<usize, Memory>, Result<bool, Memory>), AsmFault> {
    let of = assemble(alloc, text())?;
    if of.instrs.len() > 1000 {
        return Err(AsmFault::Memory);
    }
    Ok((of.instrs.len(), file_size(alloc, &of), is_shown(alloc, &of)))
}

#[test]
fn a_text_and_its_module(rt: HostRuntime) {
    assert_eq!(rt; told(rt.alloc()), Ok((10, Ok(140), Ok(true))));
}

fn fault(alloc: Global, text: &[u8]) -> Option<AsmFault>
    requires { length text.now < 2 ^ 32 }
{
    assemble(alloc, text).err()
}

#[test]
fn the_line_that_is_wrong(rt: HostRuntime) {
    let alloc = rt.alloc();
    let operand = fault(alloc, b"spirv 1.0 1\nOpCapability\n");
    let surplus = fault(alloc, b"spirv 1.0 2\nOpName %1 \"a;b\"\nOpReturn 1");
    let empty = fault(alloc, b"");
    assert_eq!(rt;
        [operand, surplus, empty],
        [
            Some(AsmFault::Line(2)),
            Some(AsmFault::Line(3)),
            Some(AsmFault::Line(1))
        ]
    );
}
