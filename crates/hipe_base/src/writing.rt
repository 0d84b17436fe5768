// Writing a whole piece of bytes.

ghost use Rattle.std.specs.Prelude.{◌≤◌, OnErr, length};
ghost use Rattle.hipe_base.specs.Sink.{SinkFailed};
ghost use Rattle.hipe_base.specs.Writing.{PutsBytes, FillsRoom};

use crate::outside::{Failed, Sink};

/// A sink failed after it had taken the first `written` bytes of those that it was given.
#[derive(Debug, PartialEq, Eq, Drop)]
pub struct SinkFault {
    pub written: usize,
}

/// Writes all of `bytes`.
pub fn put<S: Sink>(sink: &mut S, bytes: &[u8]) -> Result<(), SinkFault>
    ensures bytes { PutsBytes result bytes.now (S.seen sink.old).written (S.seen sink.new).written }
    ensures room { FillsRoom result (length bytes.now) (S.seen sink.old).room (S.seen sink.new).room }
    ensures failed { OnErr
        result
        (SinkFailed
        (S.seen sink.old).faults
        (S.seen sink.new).faults
        (S.seen sink.old).room
        (length bytes.now)) }
    ensures later { (S.seen sink.old).faults ≤ (S.seen sink.new).faults }
{
    let mut written = 0;
    while written < bytes.len() {
        match sink.write(&bytes[written..]) {
            Ok(n) => written += n,
            Err(Failed) => return Err(SinkFault { written }),
        }
    }
    Ok(())
}
