//! The files and streams of `hipe_outside`: that files of the system open and fail, and that a full writer is told.

use hipe_base::{Failed, Files, Sink};
use hipe_outside::{RealFiles, Stream};

#[test]
fn an_absent_file_fails(rt: HostRuntime) {
    let mut files = RealFiles::new(rt);
    assert_eq!(rt; files.open("no such folder/file"), Err(Failed));
    assert_eq!(rt; files.open("/dev/null"), Ok(()));
    assert_eq!(rt; files.read(&mut [0u8; 4]), Ok(0));
}

#[test]
fn a_full_writer_fails(rt: HostRuntime) {
    let mut room = [0u8; 3];
    let mut stream = Stream::new(&mut room[..]);
    assert_eq!(rt; stream.write(b"abcd"), Ok(3));
    assert_eq!(rt; stream.write(b""), Ok(0));
    assert_eq!(rt; stream.write(b"d"), Err(Failed));
}
