//! Whole reads and whole writes, over the fakes and over the host.
ghost use Rattle.std.specs.Prelude.{◌<◌};

use crate::{
    Failed, HostFiles, HostSink, MemFiles, MemSink, NoMemory, ReadEnd, Sink, read_whole,
    write_whole,
};
use std::alloc::Global;
use std::io::Write;
use std::test::Fail;
use std::{fs, io};

// The files `letters` of five bytes and `nothing` of none.
fn two_files(alloc: Global, failing: &[u64], chunk: usize) -> Result<MemFiles, NoMemory>
    requires { 0 < chunk }
{
    let mut files = Vec::new(alloc);
    files.push((String::from_str(alloc, "letters")?, b"abcde".to_vec(alloc)?))?;
    files.push((String::from_str(alloc, "nothing")?, Vec::new(alloc)))?;
    Ok(MemFiles::new(files, failing.to_vec(alloc)?, chunk))
}

#[test]
fn reads_whole_or_not_at_all(rt: HostRuntime) -> Result<(), Fail> {
    // name, failing calls, bytes of a read, cap, and the end with the count of failures
    let ends = [
        ("letters", 9, 3, 4, ReadEnd::TooLong(4), 0),
        ("letters", 9, 4096, 0, ReadEnd::TooLong(0), 0),
        ("absent", 9, 3, 5, ReadEnd::Fault, 0),
        ("letters", 0, 3, 5, ReadEnd::Fault, 1),
        ("letters", 1, 3, 5, ReadEnd::Fault, 1),
        ("letters", 2, 3, 5, ReadEnd::Fault, 1),
        ("letters", 3, 3, 5, ReadEnd::Fault, 1),
        ("nothing", 1, 1, 0, ReadEnd::Fault, 1),
    ];
    for (name, failing, chunk, cap, want, faults) in ends {
        let mut files = two_files(rt.alloc(), &[failing], chunk)?;
        let got = read_whole(rt.alloc(), &mut files, name, cap);
        assert_eq!(rt; got.err(), Some(want), "{name} with {failing} failing");
        assert_eq!(rt; files.faults(), faults);
    }
    for (name, failing, chunk, cap, want) in [
        ("letters", 9, 1, 5, "abcde"),
        ("letters", 9, 3, 5, "abcde"),
        ("letters", 3, 4096, 6, "abcde"),
        ("nothing", 2, 1, 0, ""),
    ] {
        let mut files = two_files(rt.alloc(), &[failing], chunk)?;
        let got = read_whole(rt.alloc(), &mut files, name, cap)
            .ok()
            .ok_or("no file")?;
        assert_eq!(rt; got.as_slice(), want.as_bytes(), "{name} by {chunk}");
        assert_eq!(rt; files.faults(), 0);
    }
    Ok(())
}

#[test]
fn writes_whole_or_a_front(rt: HostRuntime) -> Result<(), Fail> {
    let alphabet = "abcdefghijklmnopqrstuvwxyz";
    // room, failing write, bytes of a write, the bytes, whether they were all taken, and what was
    for (room, failing, chunk, bytes, is_whole, want) in [
        (5, 9, 10, "hello", true, "hello"),
        (5, 3, 2, "hello", true, "hello"),
        (9, 9, 1, "hello", true, "hello"),
        (0, 9, 1, "", true, ""),
        (4, 9, 10, "hello", false, "hell"),
        (0, 9, 10, "hello", false, ""),
        (5, 0, 10, "hello", false, ""),
        (5, 1, 2, "hello", false, "he"),
        (30, 2, 10, alphabet, false, "abcdefghijklmnopqrst"),
    ] {
        let mut sink = MemSink::new(rt.alloc(), room, [failing].to_vec(rt.alloc())?, chunk)?;
        let result = write_whole(&mut sink, bytes.as_bytes());
        assert_eq!(rt; sink.written(), want.as_bytes(), "{want} of {bytes}");
        assert_eq!(rt; result.is_ok(), is_whole);
        assert_eq!(rt; sink.faults(), u64::from(!is_whole));
    }
    Ok(())
}

/// A stream that never takes a byte.
#[derive(Drop)]
struct Stuck;

impl Write for Stuck {
    fn write(&mut self, _bytes: &[u8]) -> io::Result<usize> {
        Ok(0)
    }

    fn flush(&mut self) -> io::Result<()> {
        Ok(())
    }
}

#[test]
fn reaches_the_host(rt: HostRuntime) -> Result<(), Fail> {
    let path = "fx_io-host-file";
    fs::write(&rt, path, "on the host")?;
    let mut files = HostFiles::new(&rt);
    let got = read_whole(rt.alloc(), &mut files, path, 11)
        .ok()
        .ok_or("no file")?;
    fs::remove_file(&rt, path)?;
    assert_eq!(rt; got.as_slice(), b"on the host".as_slice());
    assert_eq!(rt; files.faults(), 0);
    let gone = read_whole(rt.alloc(), &mut files, path, 11);
    assert_eq!(rt; gone.err(), Some(ReadEnd::Fault));
    assert_eq!(rt; files.faults(), 1);

    assert!(rt; write_whole(&mut HostSink::out(&rt), b"to the output\n").is_ok());
    assert!(rt; write_whole(&mut HostSink::err(&rt), b"to the error\n").is_ok());
    let mut stuck = HostSink::new(Stuck);
    assert_eq!(rt; stuck.write(b""), Ok(0));
    assert_eq!(rt; stuck.faults(), 0);
    assert!(rt; stuck.write(b"x").is_err());
    assert_eq!(rt; stuck.faults(), 1);
    Ok(())
}

#[test]
fn says_what_failed(rt: HostRuntime) -> Result<(), Fail> {
    let failed = format!(in rt.alloc(); "{}", Failed)?;
    assert_eq!(rt; failed.as_str(), "an opening, a read or a write failed");
    for (end, want) in [
        (ReadEnd::Fault, "an opening or a read failed"),
        (ReadEnd::TooLong(7), "the file has more than 7 bytes"),
        (ReadEnd::NoMemory, "out of memory"),
    ] {
        let text = format!(in rt.alloc(); "{end}")?;
        assert_eq!(rt; text.as_str(), want);
    }
    Ok(())
}
