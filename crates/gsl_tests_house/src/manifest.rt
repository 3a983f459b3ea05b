use gsl_base::{Buffer, Buffers, Bytes, Comps, Input, Ins, List, Located, Memory, Output, Outs};
use gsl_manifest::{BufferLine, BufferLines, ManifestRefusal, listing, read_manifest};
use std::alloc::Global;
use std::test::Fail;

/// The line that is refused, 0 where none is.
fn refused_line(alloc: Global, bytes: &[u8]) -> Result<u32, Memory> {
    if bytes.len() > 1000 {
        return Err(Memory);
    }
    match read_manifest(alloc, bytes) {
        Ok(_) => Ok(0),
        Err(ManifestRefusal::Line(line)) => Ok(line),
        Err(ManifestRefusal::Memory) => Err(Memory),
    }
}

/// Manifests, and the line that is refused in each.
const LINES: &[(&[u8], u32)] = &[
    (b"", 0),
    (b"\n", 0),
    (b"# one\nbuffer 0 x b.bin\n", 2),
    (b"\n\n# three\nbuffer 0 x b.bin\n", 4),
    (b"push p\r\nlocal 0 0 0\r\nin 0 1", 0),
    (b"vertex 1\r", 1),
    (b"vertex 1\r\r\n", 1),
    (b"\r\n\r\n#\r\nvertex\r\n", 4),
    (b"vertex  7\ngroup 1   2 3\n", 0),
    (b"vertex 7\n instance 1\n", 2),
    (b"vertex 7 \n", 1),
    (b"vertex 7 8\n", 1),
    (b"vertex\t7\n", 1),
    (b" \n", 1),
    (b"buffer 0 0  a b .bin \n", 0),
    (b"buffer 0 0\n", 1),
    (b"buffer 0 0 \n", 1),
    (b"buffer -1 0 a\n", 1),
    (b"push \n", 1),
    (b"# \xff\n", 1),
    (b"push \xc3\xa9\n", 0),
    (b"push \xc3\n", 1),
    (b"buffer 0 0 a\nbuffer 0 1 b\nbuffer 0 0x0 c\n", 3),
    (b"push a\npush a\n", 2),
    (b"in 1 5\nin 0 5\nin 0x01 6\n", 3),
    (b"in 0\n", 1),
    (b"in 0 1 2 3 4\n", 0),
    (b"in 0 1 2 3 4 5\n", 1),
    (b"in -1 1\n", 1),
    (b"local 0 0 0\ngroup 0 0 0\nlocal 0 0 0\n", 3),
    (b"group 0 0\n", 1),
    (b"groups 1 1 1\ngroups 1 1 1\n", 2),
    (b"vertex 1\ninstance 1\nvertex 1\n", 3),
    (b"instance 1\ninstance 1\n", 2),
    (b"choice 1\nchoice 2 3\n", 0),
    (b"choice\n", 1),
    (b"steps 0\n", 0),
    (b"steps 1000000000\n", 0),
    (b"steps 1000000001\n", 1),
    (b"steps -1\n", 1),
    (b"steps -0\n", 1),
    (b"steps 0x10\n", 0),
    (b"steps 1\nsteps 1\n", 2),
    (b"Steps 1\n", 1),
    (b"step 1\n", 1),
];

#[test]
fn the_first_line_that_breaks_the_format_is_refused(rt: HostRuntime) -> Result<(), Fail> {
    for case in LINES {
        assert_eq!(rt; refused_line(rt.alloc(), case.0)?, case.1);
    }
    Ok(())
}

/// Fields, and the words that they write.
const WORDS: &[(&[u8], Option<u32>)] = &[
    (b"vertex 0", Some(0)),
    (b"vertex 00", None),
    (b"vertex 007", None),
    (b"vertex -07", None),
    (b"vertex 0x0017", Some(0x17)),
    (b"vertex 4294967295", Some(0xffff_ffff)),
    (b"vertex 4294967296", None),
    (b"vertex 99999999999999999999", None),
    (b"vertex -1", Some(0xffff_ffff)),
    (b"vertex -0", Some(0)),
    (b"vertex -2147483648", Some(0x8000_0000)),
    (b"vertex -2147483649", None),
    (b"vertex 0x0", Some(0)),
    (b"vertex 0xffffffff", Some(0xffff_ffff)),
    (b"vertex 0xFfa09", Some(0xfa09 + 0xf_0000)),
    (b"vertex 0x100000000", None),
    (b"vertex 0x", None),
    (b"vertex 0X1", None),
    (b"vertex 0xg", None),
    (b"vertex x1", None),
    (b"vertex +1", None),
    (b"vertex -0x1", None),
    (b"vertex --1", None),
    (b"vertex -", None),
    (b"vertex 1a", None),
];

/// The vertex number of a manifest, if it is one.
fn vertex_of(alloc: Global, bytes: &[u8]) -> Result<Option<u32>, Memory> {
    if bytes.len() > 1000 {
        return Err(Memory);
    }
    match read_manifest(alloc, bytes) {
        Ok(manifest) => Ok(Some(manifest.input.vertex)),
        Err(ManifestRefusal::Line(_)) => Ok(None),
        Err(ManifestRefusal::Memory) => Err(Memory),
    }
}

#[test]
fn numbers_are_words_in_three_forms(rt: HostRuntime) -> Result<(), Fail> {
    for case in WORDS {
        assert_eq!(rt; vertex_of(rt.alloc(), case.0)?, case.1);
    }
    Ok(())
}

const LINES_IN_NO_ORDER: &[u8] =
    b"# no order\nbuffer 1 0 c\nin 9 -1\npush p q\r\nbuffer 0 7 b\ngroups 2 3 4\n\nchoice 5\nin 3 1 2\nchoice 6 7\nbuffer 0 2 a\nsteps 8\n";

/// The set, the binding and the line of a buffer.
fn place(buffer: &BufferLine) -> [u32; 3] {
    [buffer.set, buffer.binding, buffer.line]
}

/// Whether the buffers are those of the lines, in their order.
fn are_in_order(buffers: &BufferLines) -> bool {
    match buffers.as_slice() {
        [first, second, third] => {
            place(first) == [1, 0, 2]
                && first.path.as_str() == "c"
                && place(second) == [0, 7, 5]
                && place(third) == [0, 2, 11]
        }
        _ => false,
    }
}

#[test]
fn buffers_stand_in_the_order_of_their_lines(rt: HostRuntime) -> Result<(), Fail> {
    let manifest = read_manifest(rt.alloc(), LINES_IN_NO_ORDER)?;
    assert!(rt; are_in_order(&manifest.buffers));
    Ok(())
}

/// Whether words stand at a location.
fn stands(one: &Located, location: u32, words: &[u32]) -> bool {
    one.location == location && one.words.as_slice() == words
}

/// Whether the inputs are those of the lines, by their locations.
fn are_by_location(ins: &Ins) -> bool {
    match ins.as_slice() {
        [low, high] => stands(low, 3, &[1, 2]) && stands(high, 9, &[0xffff_ffff]),
        _ => false,
    }
}

#[test]
fn what_lines_give_is_taken(rt: HostRuntime) -> Result<(), Fail> {
    let manifest = read_manifest(rt.alloc(), LINES_IN_NO_ORDER)?;
    let input = &manifest.input;
    assert!(rt;
        input.groups == [2, 3, 4]
            && input.group == [0, 0, 0]
            && input.choices.as_slice() == [5, 6, 7].as_slice()
            && manifest.steps == 8
            && are_by_location(&input.ins)
    );
    Ok(())
}

/// Whether an input is that of a manifest without lines.
fn is_plain(input: &Input) -> bool {
    input.local == [0, 0, 0]
        && input.groups == [1, 1, 1]
        && input.instance == 0
        && input.choices.is_empty()
}

#[test]
fn what_no_line_gives_is_zero_or_one_or_none(rt: HostRuntime) -> Result<(), Fail> {
    let manifest = read_manifest(rt.alloc(), b"")?;
    assert!(rt;
        manifest.steps == 1_000_000_000 && manifest.push.is_none() && is_plain(&manifest.input)
    );
    Ok(())
}

/// An output with one buffer of these bytes and no other value.
fn buffer_output(alloc: Global, bytes: &[u8]) -> Result<Output, Memory> {
    let mut buffers = Buffers::new(alloc);
    buffers.push(Buffer {
        set: 0,
        binding: 12,
        bytes: Bytes::from_slice(alloc, bytes)?,
    })?;
    Ok(Output {
        buffers,
        outs: Outs::new(alloc),
        killed: false,
        rest: 0,
    })
}

/// An output with these words at a location.
fn words_output(alloc: Global, words: &[u32], killed: bool) -> Result<Output, Memory> {
    let mut outs = Outs::new(alloc);
    outs.push(Located {
        location: 10,
        words: Comps::from_slice(alloc, words)?,
    })?;
    Ok(Output {
        buffers: List::new(alloc),
        outs,
        killed,
        rest: 0,
    })
}

/// Whether this is the listing of an output.
fn is_listed(alloc: Global, output: &Output, text: &[u8]) -> Result<bool, Memory> {
    let listed = listing(alloc, output)?;
    Ok(listed.as_slice() == text)
}

/// Bytes of a buffer, and its listing.
const BUFFERS: &[(&[u8], &[u8])] = &[
    (b"", b"buffer 0 12\n"),
    (b"\x01\x02\x03\xff", b"buffer 0 12\nff030201\n"),
    (b"\xab", b"buffer 0 12\nbytes ab\n"),
    (b"\x00\x10", b"buffer 0 12\nbytes 00 10\n"),
    (
        b"abcd\x0a\x0b\x0c",
        b"buffer 0 12\n64636261\nbytes 0a 0b 0c\n",
    ),
    (
        b"aaaabbbbccccddddeeeeffffgggghhhh",
        b"buffer 0 12\n61616161 62626262 63636363 64646464 65656565 66666666 67676767 68686868\n",
    ),
    (
        b"aaaabbbbccccddddeeeeffffgggghhhhiiii\xfe",
        b"buffer 0 12\n61616161 62626262 63636363 64646464 65656565 66666666 67676767 68686868\n69696969\nbytes fe\n",
    ),
];

#[test]
fn buffers_are_listed_eight_words_to_a_line(rt: HostRuntime) -> Result<(), Fail> {
    for case in BUFFERS {
        let output = buffer_output(rt.alloc(), case.0)?;
        assert_eq!(rt; is_listed(rt.alloc(), &output, case.1), Ok(true));
    }
    Ok(())
}

/// Words at a location, whether the run was discarded, and the listing.
const OUTS: &[(&[u32], bool, &[u8])] = &[
    (&[0], false, b"out 10\n00000000\n"),
    (&[1, 0xdead_beef], false, b"out 10\n00000001 deadbeef\n"),
    (&[1, 2, 3], false, b"out 10\n00000001 00000002 00000003\n"),
    (
        &[1, 2, 3, 4],
        false,
        b"out 10\n00000001 00000002 00000003 00000004\n",
    ),
    (&[1, 2], true, b"discarded\n"),
];

#[test]
fn outputs_are_listed_or_discarded(rt: HostRuntime) -> Result<(), Fail> {
    for case in OUTS {
        let output = words_output(rt.alloc(), case.0, case.1)?;
        assert_eq!(rt; is_listed(rt.alloc(), &output, case.2), Ok(true));
    }
    Ok(())
}

#[test]
fn refusals_have_texts(rt: HostRuntime) -> Result<(), Fail> {
    let text = ManifestRefusal::Line(7).to_string(rt.alloc())?;
    assert_eq!(rt; text.as_str(), "line 7 is not one of a manifest");
    Ok(())
}
