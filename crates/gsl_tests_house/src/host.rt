use gsl_base::{Bytes, Text};
use gsl_host::{FileHost, Host, HostRefusal, MemHost, ReadRefusal, Stream};
use std::alloc::Global;
use std::test::Fail;

/// Sets a file twice, by both calls that set one.
fn set_twice(alloc: Global, host: &mut MemHost, name: &Text) -> Result<(), Fail> {
    host.put_file(name, b"void")?;
    host.write_file(alloc, name, b"main")?;
    Ok(())
}

/// Whether a host has what was set last.
fn keeps_the_last(alloc: Global, host: &mut MemHost) -> Result<bool, Fail> {
    let name = Text::from_str(alloc, "a.vert")?;
    set_twice(alloc, host, &name)?;
    Ok(host.file(&name) == Some(b"main".as_slice()))
}

#[test]
fn mem_host_keeps_what_was_set_last(rt: HostRuntime) -> Result<(), Fail> {
    let alloc = rt.alloc();
    let mut host = MemHost::new(alloc, &[])?;
    assert!(rt; keeps_the_last(alloc, &mut host)?);
    assert!(rt; host.file(&Text::new(alloc)).is_none());
    Ok(())
}

/// Reads a file that is absent, then longer than what may be read, and then not.
fn read_thrice(
    alloc: Global,
    host: &mut MemHost,
    name: &Text,
) -> Result<([Option<ReadRefusal>; 2], Bytes), Fail> {
    let absent = host.read_file(alloc, name, 4).err();
    host.put_file(name, b"void")?;
    let long = host.read_file(alloc, name, 3).err();
    let bytes = host.read_file(alloc, name, 4)?;
    Ok(([absent, long], bytes))
}

/// What three reads refuse, and whether the last gives the bytes.
fn reads(alloc: Global, host: &mut MemHost) -> Result<([Option<ReadRefusal>; 2], bool), Fail> {
    let name = Text::from_str(alloc, "a.vert")?;
    let (refused, bytes) = read_thrice(alloc, host, &name)?;
    Ok((refused, bytes.as_slice() == b"void".as_slice()))
}

#[test]
fn mem_host_reads_up_to_a_length(rt: HostRuntime) -> Result<(), Fail> {
    let alloc = rt.alloc();
    let mut host = MemHost::new(alloc, &[])?;
    let (refused, same) = reads(alloc, &mut host)?;
    assert_eq!(rt;
        refused,
        [Some(ReadRefusal::Failed), Some(ReadRefusal::TooLong)]
    );
    assert_eq!(rt; (same, host.faults()), (true, 1));
    Ok(())
}

/// Prints on both streams.
fn print_thrice(alloc: Global, host: &mut MemHost) -> [Result<(), HostRefusal>; 3] {
    [
        host.print(alloc, Stream::Out, b"one"),
        host.print(alloc, Stream::Err, b"two"),
        host.print(alloc, Stream::Out, b"three"),
    ]
}

#[test]
fn mem_host_appends_to_its_streams(rt: HostRuntime) -> Result<(), Fail> {
    let alloc = rt.alloc();
    let mut host = MemHost::new(alloc, &[])?;
    let answers = print_thrice(alloc, &mut host);
    assert_eq!(rt; answers, [Ok(()), Ok(()), Ok(())]);
    assert_eq!(rt;
        [host.out(), host.err()],
        [b"onethree".as_slice(), b"two".as_slice()]
    );
    Ok(())
}

/// A read, and then a write and two lines that are printed.
fn four_calls(
    alloc: Global,
    host: &mut MemHost,
) -> (Option<ReadRefusal>, [Result<(), HostRefusal>; 3]) {
    let name = Text::new(alloc);
    let read = host.read_file(alloc, &name, 4).err();
    let answers = [
        host.write_file(alloc, &name, b"new"),
        host.print(alloc, Stream::Err, b"two"),
        host.print(alloc, Stream::Err, b"three"),
    ];
    (read, answers)
}

#[test]
fn mem_host_fails_the_planned_calls(rt: HostRuntime) -> Result<(), Fail> {
    let alloc = rt.alloc();
    let mut host = MemHost::new(alloc, &[1, 2, 4])?;
    let (read, answers) = four_calls(alloc, &mut host);
    assert_eq!(rt; read, Some(ReadRefusal::Failed));
    assert_eq!(rt;
        answers,
        [Err(HostRefusal::Failed), Ok(()), Err(HostRefusal::Failed)]
    );
    assert_eq!(rt; (host.err(), host.faults()), (b"two".as_slice(), 3));
    Ok(())
}

/// Whether a file is read as it was written, with what a shorter read refuses.
fn written_and_read<H: Host>(
    alloc: Global,
    host: &mut H,
    name: &Text,
) -> Result<(bool, Option<ReadRefusal>), Fail> {
    let bytes = vec![in alloc; 7u8; 5000]?;
    host.write_file(alloc, name, bytes.as_slice())?;
    let long = host.read_file(alloc, name, 4999).err();
    let read = host.read_file(alloc, name, 5000)?;
    Ok((read.as_slice() == bytes.as_slice(), long))
}

#[test]
fn file_host_writes_and_reads_files(rt: HostRuntime) -> Result<(), Fail> {
    let alloc = rt.alloc();
    let mut host = FileHost::new(rt, alloc);
    let name = Text::from_str(alloc, "file_host_test.tmp")?;
    let (same, long) = written_and_read(alloc, &mut host, &name)?;
    std::fs::remove_file(&rt, name.as_str())?;
    let absent = host.read_file(alloc, &name, 5000).err();
    assert!(rt; same);
    assert_eq!(rt;
        [long, absent],
        [Some(ReadRefusal::TooLong), Some(ReadRefusal::Failed)]
    );
    Ok(())
}

#[test]
fn file_host_prints(rt: HostRuntime) {
    let alloc = rt.alloc();
    let mut host = FileHost::new(rt, alloc);
    let answers = [
        host.print(alloc, Stream::Out, b"out \xff\n"),
        host.print(alloc, Stream::Err, b"err\n"),
        host.print(alloc, Stream::Err, b"\xff"),
    ];
    assert_eq!(rt; answers, [Ok(()), Ok(()), Err(HostRefusal::Failed)]);
}
