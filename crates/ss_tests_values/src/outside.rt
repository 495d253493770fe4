// Files and sinks in memory that fail.

use ss_io::{Files, MemFiles, MemSink, ReadStop, Sink, WriteStop};
use std::alloc::{AllocError, Global};
use std::test::Fail;

/// One file.
fn file(alloc: Global, name: &str, text: &str) -> Result<(String, Vec<u8>), AllocError> {
    let name = String::from_str(alloc, name)?;
    let bytes = text.as_bytes().to_vec(alloc)?;
    Ok((name, bytes))
}

/// Two files named `a`, of which the reads with these numbers fail.
fn two_of_one_name(alloc: Global, fail: &[u64]) -> Result<MemFiles, AllocError> {
    let mut files = Vec::new(alloc);
    files.push(file(alloc, "a", "first")?)?;
    files.push(file(alloc, "a", "second")?)?;
    Ok(MemFiles::new(alloc, files, fail.to_vec(alloc)?))
}

// Whether so many bytes at most are read of a file, and are these.
fn is_read(alloc: Global, files: &mut MemFiles, limit: usize, wanted: &str) -> bool {
    match files.read(alloc, "a", limit) {
        Ok(bytes) => bytes.as_slice() == wanted.as_bytes(),
        Err(_) => false,
    }
}

fn is_failed(alloc: Global, files: &mut MemFiles, name: &str) -> bool {
    matches!(files.read(alloc, name, 100), Err(ReadStop::Failed))
}

// The first file of a name counts, and a name that isn't there fails.
fn names(alloc: Global) -> Result<bool, AllocError> {
    let mut files = two_of_one_name(alloc, &[])?;
    Ok(
        is_read(alloc, &mut files, 100, "first")
            && is_read(alloc, &mut files, 2, "fi")
            && is_failed(alloc, &mut files, "b")
            && is_read(alloc, &mut files, 100, "first"),
    )
}

// The second read fails, as it is listed, and the one after it doesn't.
fn listed_reads(alloc: Global) -> Result<bool, AllocError> {
    let mut files = two_of_one_name(alloc, &[1])?;
    Ok(
        is_read(alloc, &mut files, 100, "first")
            && is_failed(alloc, &mut files, "a")
            && is_read(alloc, &mut files, 100, "first"),
    )
}

// A listed write fails and takes nothing.
fn listed_writes(alloc: Global) -> Result<bool, AllocError> {
    let mut sink = MemSink::new(alloc, [1].to_vec(alloc)?);
    let first = sink.write(b"one ") == Ok(());
    let second = sink.write(b"two ") == Err(WriteStop::Failed);
    let taken = sink.bytes() == "one ".as_bytes();
    let third = sink.write(b"three") == Ok(());
    Ok(first && second && taken && third && sink.bytes() == "one three".as_bytes())
}

#[test]
fn memory_fails_as_listed(rt: HostRuntime) -> Result<(), Fail> {
    let names = names(rt.alloc())?;
    let reads = listed_reads(rt.alloc())?;
    let writes = listed_writes(rt.alloc())?;
    assert_eq!(rt; [names, reads, writes], [true, true, true]);
    Ok(())
}
