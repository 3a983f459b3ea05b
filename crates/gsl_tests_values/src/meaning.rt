use gsl_base::{Buffer, Bytes, Input, InputRefusal, List, Memory, Place, Stage, Text};
use gsl_meaning::fits;
use gsl_tree::{Block, BlockKind, Program};
use std::alloc::Global;
use std::test::Fail;

// A storage buffer at set 0 and binding 3, which needs 8 bytes.
fn block(alloc: Global) -> Result<Block, Memory> {
    Ok(Block {
        name: Text::from_str(alloc, "B")?,
        instance: None,
        kind: BlockKind::Buffer,
        set: 0,
        binding: 3,
        std140: false,
        members: List::new(alloc),
        need: 8,
        place: Place { unit: 0, line: 1 },
    })
}

fn blocks(alloc: Global) -> Result<List<Block>, Memory> {
    let mut blocks = List::new(alloc);
    blocks.push(block(alloc)?)?;
    Ok(blocks)
}

// A compute shader with this block.
fn program(alloc: Global) -> Result<Program, Memory> {
    let blocks = blocks(alloc)?;
    Ok(Program {
        stage: Stage::Compute,
        structs: List::new(alloc),
        globals: List::new(alloc),
        blocks,
        interfaces: List::new(alloc),
        prototypes: List::new(alloc),
        functions: List::new(alloc),
        main: 0,
        local_size: [4, 1, 1],
    })
}

// The bytes at a binding, for an invocation of a work group.
fn input(alloc: Global, binding: u32, bytes: &[u8], local: u32) -> Result<Input, Memory> {
    let mut buffers = List::new(alloc);
    buffers.push(Buffer {
        set: 0,
        binding,
        bytes: Bytes::from_slice(alloc, bytes)?,
    })?;
    Ok(Input {
        buffers,
        push: None,
        ins: List::new(alloc),
        group: [0, 0, 0],
        local: [local, 0, 0],
        groups: [1, 1, 1],
        vertex: 0,
        instance: 0,
        choices: List::new(alloc),
    })
}

fn answer(
    alloc: Global,
    binding: u32,
    bytes: &[u8],
    local: u32,
) -> Result<Result<(), InputRefusal>, Memory> {
    Ok(fits(&program(alloc)?, &input(alloc, binding, bytes, local)?))
}

#[test]
fn an_input_fits(rt: HostRuntime) -> Result<(), Fail> {
    assert_eq!(rt; answer(rt.alloc(), 3, &[0; 8], 3)?, Ok(()));
    Ok(())
}

#[test]
fn a_buffer_is_absent_or_short(rt: HostRuntime) -> Result<(), Fail> {
    assert_eq!(rt;
        answer(rt.alloc(), 2, &[0; 8], 4)?,
        Err(InputRefusal::NoBuffer(0, 3))
    );
    assert_eq!(rt;
        answer(rt.alloc(), 3, &[0; 7], 4)?,
        Err(InputRefusal::TooShort(0, 3))
    );
    Ok(())
}

#[test]
fn an_invocation_is_of_no_group(rt: HostRuntime) -> Result<(), Fail> {
    assert_eq!(rt;
        answer(rt.alloc(), 3, &[0; 8], 4)?,
        Err(InputRefusal::BadIds)
    );
    Ok(())
}
