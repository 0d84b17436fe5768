//! Files and sinks of `hipe_base`: that calls succeed with ample memory, and what they give where a call fails.

use hipe_base::{
    Failed, Files, MemFiles, MemSink, ReadRefusal, SafeFiles, SafeSink, Sink, put, read_file,
};
use std::alloc::{AllocError, Global};
use std::process::Abort;
use std::test::Fail;

const NAME: &str = "a";

/// The 4,096 bytes 0, 1, .., 250, 0, 1, ..
fn text(alloc: Global) -> Result<Vec<u8>, AllocError> {
    let mut bytes = Vec::new(alloc);
    for i in 0..4096u32 {
        bytes.push((i % 251) as u8)?;
    }
    Ok(bytes)
}

/// What the reading of the file with this limit says: nothing where it gives the wanted bytes, or the name of its refusal.
fn said<F: Files>(alloc: Global, files: &mut F, limit: usize, wanted: &[u8]) -> &'static str {
    match read_file(alloc, files, NAME, limit) {
        Ok(bytes) => {
            if bytes.as_slice() == wanted {
                ""
            } else {
                "other bytes"
            }
        }
        Err(ReadRefusal::Fault) => "fault",
        Err(ReadRefusal::TooLong) => "too long",
        Err(ReadRefusal::Memory(_)) => "memory",
    }
}

/// Files of which the last of the name has these bytes, read in such pieces.
fn safe_files(alloc: Global, bytes: &[u8], piece: usize) -> Result<SafeFiles, AllocError> {
    let mut files = SafeFiles::new(alloc, piece.max(1))?;
    files.add(NAME, b"old")?;
    files.add(NAME, bytes)?;
    files.add("b", b"other")?;
    Ok(files)
}

/// The bytes of a piece, the most bytes that are read, and what the reading says.
const PIECES: [(usize, usize, &str); 6] = [
    (1, 4096, ""),
    (1, 4095, "too long"),
    (1000, 5000, ""),
    (4096, 4096, ""),
    (4096, 4095, "too long"),
    (100000, 0, "too long"),
];

#[test]
fn pieces_make_no_difference(rt: HostRuntime) -> Result<(), Fail> {
    let bytes = text(rt.alloc())?;
    for (piece, limit, wanted) in PIECES.iter() {
        let mut files = safe_files(rt.alloc(), &bytes, *piece)?;
        let got = said(rt.alloc(), &mut files, *limit, &bytes);
        assert_eq!(rt; got, *wanted, "piece {piece}, limit {limit}");
    }
    Ok(())
}

const TWELVE: &[u8] = b"twelve bytes";

/// A file of twelve bytes, read three at a time, with a call that fails.
fn failing_files(alloc: Global, call: u64) -> Result<MemFiles, AllocError> {
    let mut files = MemFiles::new(alloc, 3)?;
    files.add(NAME, TWELVE)?;
    files.fail_at(call)?;
    Ok(files)
}

/// The call that fails, and what the reading says. The open is call 0; four reads of 3 bytes and one of the end follow.
const FAILING_CALLS: [(u64, &str); 5] = [
    (0, "fault"),
    (1, "fault"),
    (3, "fault"),
    (5, "fault"),
    (6, ""),
];

#[test]
fn planned_failures_of_files(rt: HostRuntime) -> Result<(), Fail> {
    for (call, wanted) in FAILING_CALLS.iter() {
        let mut files = failing_files(rt.alloc(), *call)?;
        let got = said(rt.alloc(), &mut files, 12, TWELVE);
        assert_eq!(rt; got, *wanted, "call {call}");
        assert!(rt; files.open("b").is_err());
    }
    Ok(())
}

/// A sink with room for so many bytes, which takes four at a time, with a call that fails.
fn failing_sink(alloc: Global, call: u64, room: usize) -> Result<MemSink, AllocError> {
    let mut sink = MemSink::new(alloc, 4, room)?;
    sink.fail_at(call)?;
    Ok(sink)
}

/// The call that fails, the room, and the bytes that are taken.
const FAILING_WRITES: [(u64, usize, &str); 4] = [
    (0, 100, ""),
    (1, 100, "retu"),
    (3, 100, "return 42"),
    (9, 6, "return"),
];

#[test]
fn planned_failures_of_sinks(rt: HostRuntime) -> Result<(), Fail> {
    for (call, room, taken) in FAILING_WRITES.iter() {
        let mut sink = failing_sink(rt.alloc(), *call, *room)?;
        assert!(rt; sink.write(b"") == Ok(0));
        let written = match put(&mut sink, b"return 42") {
            Ok(()) => 9,
            Err(fault) => fault.written,
        };
        assert_eq!(rt; written, taken.len());
        assert_eq!(rt; sink.bytes(), taken.as_bytes());
    }
    Ok(())
}

#[test]
fn safe_sinks_take_what_they_have_room_for(rt: HostRuntime) -> Result<(), Fail> {
    let mut sink = SafeSink::new(rt.alloc(), 2, 5)?;
    assert!(rt; put(&mut sink, b"abc").is_ok());
    assert!(rt; put(&mut sink, b"de").is_ok());
    assert!(rt; put(&mut sink, b"").is_ok());
    assert!(rt; sink.write(b"f") == Err(Failed));
    assert_eq!(rt; sink.bytes(), b"abcde".as_slice());
    Ok(())
}
