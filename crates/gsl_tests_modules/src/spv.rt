use gsl_base::{List, Memory, Stage, Text};
use gsl_instr::enumerant::{decoration, storage_class};
use gsl_instr::op;
use gsl_spv::{BuildRefusal, Builder, MOST_IDS, PlainConst, PlainType};
use gsl_words::{Instrs, Module, Target};
use std::alloc::Global;
use std::test::Fail;

/// The module of a builder.
fn finished(builder: Builder, main: u32) -> Result<Module, Memory> {
    if builder.are_few() {
        builder.finish(main, [1, 1, 1])
    } else {
        Err(Memory)
    }
}

/// The words of instructions, of which there are few.
fn words_of(alloc: Global, code: &Instrs) -> Result<List<u32>, Memory> {
    let mut words = List::new(alloc);
    if code.len() > 1000 {
        return Err(Memory);
    }
    for i in 0..code.len() as u32 {
        let args = code.args(i);
        let count = (args.len() % 65535) as u32 + 1;
        words.push(count * 65536 + u32::from(code.op(i)))?;
        words.extend_from_slice(args)?;
    }
    Ok(words)
}

/// The code of `void main() {}`.
fn put_main(builder: &mut Builder) -> Result<u32, BuildRefusal> {
    let main = builder.id()?;
    let void = builder.plain_type(PlainType::Void)?;
    let ty = builder.function_type(void, &[])?;
    builder.put(op::FUNCTION, &[void, main, 0, ty])?;
    let label = builder.id()?;
    builder.put(op::LABEL, &[label])?;
    builder.put(op::RETURN, &[])?;
    builder.put(op::FUNCTION_END, &[])?;
    Ok(main)
}

/// Whether the code of a module has these words.
fn has_words(alloc: Global, module: &Module, words: &[u32]) -> Result<bool, Memory> {
    let found = words_of(alloc, &module.instrs)?;
    Ok(found.as_slice() == words)
}

/// The words of a shader with an empty `main`, worked out by hand.
const EMPTY_MAIN: [u32; 30] = [
    0x0002_0011,
    1,
    0x0003_000e,
    0,
    1,
    0x0005_000f,
    5,
    1,
    0x6e69_616d,
    0,
    0x0006_0010,
    1,
    17,
    1,
    1,
    1,
    0x0002_0013,
    2,
    0x0003_0021,
    3,
    2,
    0x0005_0036,
    2,
    1,
    0,
    3,
    0x0002_00f8,
    4,
    0x0001_00fd,
    0x0001_0038,
];

fn module_of_an_empty_main(alloc: Global) -> Result<Module, Fail> {
    let mut builder = Builder::new(alloc, Stage::Compute)?;
    let main = put_main(&mut builder)?;
    let module = finished(builder, main)?;
    Ok(module)
}

#[test]
fn the_module_of_an_empty_main(rt: HostRuntime) -> Result<(), Fail> {
    let module = module_of_an_empty_main(rt.alloc())?;
    assert_eq!(rt; (module.version, module.bound), (0x0001_0000, 5));
    assert!(rt; has_words(rt.alloc(), &module, &EMPTY_MAIN)?);
    Ok(())
}

#[test]
fn equal_types_have_one_id(rt: HostRuntime) -> Result<(), Fail> {
    let mut builder = Builder::new(rt.alloc(), Stage::Compute)?;
    let ids = [
        builder.plain_type(PlainType::Int(true)),
        builder.plain_type(PlainType::Int(false)),
        builder.plain_type(PlainType::Int(true)),
        builder.plain_type(PlainType::Vector(1, 4)),
        builder.plain_type(PlainType::Pointer(2, 3)),
        builder.plain_type(PlainType::Pointer(3, 3)),
        builder.plain_type(PlainType::Vector(1, 4)),
    ];
    assert_eq!(rt; ids, [Ok(1), Ok(2), Ok(1), Ok(3), Ok(4), Ok(5), Ok(3)]);
    Ok(())
}

#[test]
fn types_of_functions_differ_by_their_parameters(rt: HostRuntime) -> Result<(), Fail> {
    let mut builder = Builder::new(rt.alloc(), Stage::Vertex)?;
    let ids = [
        builder.function_type(7, &[]),
        builder.function_type(7, &[8, 9]),
        builder.function_type(7, &[8, 9]),
        builder.function_type(7, &[9, 8]),
    ];
    assert_eq!(rt; ids, [Ok(1), Ok(2), Ok(2), Ok(3)]);
    Ok(())
}

#[test]
fn equal_constants_have_one_id(rt: HostRuntime) -> Result<(), Fail> {
    let mut builder = Builder::new(rt.alloc(), Stage::Compute)?;
    let ids = [
        builder.constant(PlainConst::True),
        builder.constant(PlainConst::False),
        builder.constant(PlainConst::Word(8, 0)),
        builder.constant(PlainConst::Word(9, 0)),
        builder.constant(PlainConst::Word(8, 0)),
        builder.constant(PlainConst::Null(8)),
        builder.constant(PlainConst::True),
    ];
    assert_eq!(rt; ids, [Ok(2), Ok(3), Ok(4), Ok(5), Ok(4), Ok(6), Ok(2)]);
    Ok(())
}

#[test]
fn equal_composites_have_one_id(rt: HostRuntime) -> Result<(), Fail> {
    let mut builder = Builder::new(rt.alloc(), Stage::Compute)?;
    let ids = [
        builder.composite(8, &[9, 9]),
        builder.composite(8, &[9, 10]),
        builder.composite(7, &[9, 10]),
        builder.composite(8, &[9, 9]),
    ];
    assert_eq!(rt; ids, [Ok(1), Ok(2), Ok(3), Ok(1)]);
    Ok(())
}

#[test]
fn arrays_and_structures_are_new_each_time(rt: HostRuntime) -> Result<(), Fail> {
    let mut builder = Builder::new(rt.alloc(), Stage::Compute)?;
    let ids = [
        builder.array_type(8, 9, Some(16)),
        builder.array_type(8, 9, None),
        builder.runtime_type(8, 4),
        builder.struct_type(&[8, 8]),
        builder.struct_type(&[8, 8]),
    ];
    assert_eq!(rt; ids, [Ok(1), Ok(2), Ok(3), Ok(4), Ok(5)]);
    Ok(())
}

/// The words of a module with two arrays, worked out by hand.
const STRIDES: [u32; 25] = [
    0x0002_0011,
    1,
    0x0003_000e,
    0,
    1,
    0x0005_000f,
    0,
    7,
    0x6e69_616d,
    0,
    0x0004_0047,
    1,
    6,
    16,
    0x0004_0047,
    2,
    6,
    4,
    0x0004_001c,
    1,
    8,
    9,
    0x0003_001d,
    2,
    8,
];

fn module_of_strides(alloc: Global) -> Result<Module, Fail> {
    let mut builder = Builder::new_for(alloc, Stage::Vertex, Target::V13)?;
    builder.array_type(8, 9, Some(16))?;
    builder.runtime_type(8, 4)?;
    let module = finished(builder, 7)?;
    Ok(module)
}

#[test]
fn strides_are_decorations(rt: HostRuntime) -> Result<(), Fail> {
    let module = module_of_strides(rt.alloc())?;
    assert_eq!(rt; module.version, 0x0001_0300);
    assert!(rt; has_words(rt.alloc(), &module, &STRIDES)?);
    Ok(())
}

/// The import, names, decorations and variables, each out of its place.
fn put_out_of_order(alloc: Global, builder: &mut Builder) -> Result<(), BuildRefusal> {
    builder.decorate(6, None, decoration::FLAT, None)?;
    builder.name(6, None, &Text::from_str(alloc, "a")?)?;
    builder.global(8, storage_class::INPUT, None)?;
    builder.global(8, storage_class::PRIVATE, Some(9))?;
    builder.glsl_set()?;
    builder.decorate(6, Some(1), decoration::OFFSET, Some(4))?;
    builder.name(6, Some(1), &Text::from_str(alloc, "b")?)?;
    builder.global(8, storage_class::OUTPUT, Some(9))?;
    builder.glsl_set()?;
    Ok(())
}

/// The words of a module with each of them in its section, worked out by hand.
const SECTIONS: [u32; 50] = [
    0x0002_0011,
    1,
    0x0006_000b,
    3,
    0x4c53_4c47,
    0x6474_732e,
    0x3035_342e,
    0,
    0x0003_000e,
    0,
    1,
    0x0007_000f,
    4,
    7,
    0x6e69_616d,
    0,
    1,
    4,
    0x0003_0010,
    7,
    7,
    0x0003_0005,
    6,
    0x61,
    0x0004_0006,
    6,
    1,
    0x62,
    0x0003_0047,
    6,
    14,
    0x0005_0048,
    6,
    1,
    35,
    4,
    0x0004_003b,
    8,
    1,
    1,
    0x0005_003b,
    8,
    2,
    6,
    9,
    0x0005_003b,
    8,
    4,
    3,
    9,
];

fn module_of_sections(alloc: Global) -> Result<Module, Fail> {
    let mut builder = Builder::new(alloc, Stage::Fragment)?;
    put_out_of_order(alloc, &mut builder)?;
    let module = finished(builder, 7)?;
    Ok(module)
}

#[test]
fn each_instruction_stands_in_its_section(rt: HostRuntime) -> Result<(), Fail> {
    let module = module_of_sections(rt.alloc())?;
    assert_eq!(rt; module.bound, 5);
    assert!(rt; has_words(rt.alloc(), &module, &SECTIONS)?);
    Ok(())
}

/// Takes all ids that are left behind the first, and gives the last.
fn take_ids(builder: &mut Builder) -> Result<u32, BuildRefusal> {
    let mut last = 1;
    for _ in 1..MOST_IDS {
        last = builder.id()?;
    }
    Ok(last)
}

#[test]
fn ids_end(rt: HostRuntime) -> Result<(), Fail> {
    let mut builder = Builder::new(rt.alloc(), Stage::Compute)?;
    let first = builder.plain_type(PlainType::Void);
    let last = take_ids(&mut builder);
    assert_eq!(rt; [first, last], [Ok(1), Ok(4_194_302)]);
    let behind = [
        builder.id(),
        builder.plain_type(PlainType::Bool),
        builder.glsl_set(),
        builder.plain_type(PlainType::Void),
    ];
    let none = Err(BuildRefusal::TooManyIds);
    assert_eq!(rt; behind, [none, none, none, Ok(1)]);
    assert_eq!(rt; builder.put(op::RETURN, &[]), Ok(()));
    Ok(())
}
