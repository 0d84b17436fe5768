// A sink in memory whose calls fail as they are told to.

ghost use Rattle.std.specs.Prelude.{◌≡◌, ◌≤◌, ◌<◌, IfOk, OnErr, is_ok, length, Some, if◌then◌else◌};
ghost use Rattle.hipe_base.specs.FailurePlan.{no_failures, with_failure};
ghost use Rattle.hipe_base.specs.FailingSink.{failing_write_answer, plan_after_write};
ghost use Rattle.hipe_base.specs.Sink.{SinkFailed};
ghost use Rattle.hipe_base.specs.SinkStore.{empty_sink, after_write};

use crate::failures::Failures;
use crate::outside::{Failed, Sink};
use crate::safe_sink::SafeSink;
use std::alloc::{AllocError, Global};
use std::marker::Model;

/// A sink in memory that tells its bytes and its room, and fails where it is full and at the calls
/// that it is given. Its writes are numbered from 0; a write of no bytes has no number.
#[derive(Drop)]
pub struct MemSink {
    sink: SafeSink,
    failures: Failures,
}

impl Model for MemSink {
    ghost use Rattle.hipe_base.specs.FailingSink.{FailingSink};

    ghost Value = { FailingSink };

    ghost view = { λ m. record { store = m.sink; plan = m.failures } };
}

impl MemSink {
    /// An empty sink with room for `room` bytes, of which a write takes at most `piece`.
    pub fn new(alloc: Global, piece: usize, room: usize) -> Result<MemSink, AllocError>
        requires { 0 < piece }
        ensures { IfOk result (λ s. s ≡ record { store = empty_sink piece room; plan = no_failures }) }
    {
        let sink = SafeSink::new(alloc, piece, room)?;
        Ok(MemSink {
            sink,
            failures: Failures::new(alloc),
        })
    }

    /// Lets the write number `call` fail too.
    pub fn fail_at(&mut self, call: u64) -> Result<(), AllocError>
        ensures { self.new
            ≡ (if is_ok result
            then record self.old { plan = with_failure self.old.plan call }
            else self.old) }
    {
        self.failures.fail_at(call)
    }

    /// The bytes written so far.
    pub fn bytes(&self) -> &[u8]
        ensures { result.now ≡ self.now.store.written }
    {
        self.sink.bytes()
    }
}

impl Sink for MemSink {
    ghost seen = { λ x. record { written = Some x.store.written; room = Some x.store.room; faults = x.plan.faults } };

    fn write(&mut self, from: &[u8]) -> Result<usize, Failed>
        ensures answer { result ≡ failing_write_answer self.old (length from.now) }
        ensures after { self.new
            ≡ record {
              store = after_write self.old.store from.now result;
              plan = plan_after_write self.old (length from.now);
            } }
        ensures within { IfOk result (λ n. (n ≤ length from.now) × (0 < length from.now → 0 < n)) }
        ensures failed { OnErr
            result
            (SinkFailed
            self.old.plan.faults
            self.new.plan.faults
            (Some self.old.store.room)
            (length from.now)) }
        ensures later { self.old.plan.faults ≤ self.new.plan.faults }
    {
        if from.is_empty() {
            return Ok(0);
        }
        let fails = self.failures.next();
        if fails && !self.sink.is_full() {
            self.failures.fault();
            return Err(Failed);
        }
        self.sink.write(from)
    }
}
