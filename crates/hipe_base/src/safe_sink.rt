// A sink in memory that fails only where it is full.

ghost use Rattle.std.specs.Prelude.{◌≡◌, ◌≤◌, ◌<◌, ◌==◌, IfOk, length, Some};
ghost use Rattle.hipe_base.specs.SinkStore.{empty_sink, write_answer, after_write};

use crate::outside::{Failed, Sink};
use std::alloc::{AllocError, Global};
use std::marker::Model;

/// A sink in memory that tells its bytes and its room, and fails only where it is full.
#[derive(Drop)]
pub struct SafeSink {
    buffer: Vec<u8>,
    used: usize,
    piece: usize,
}

impl Model for SafeSink {
    ghost use Rattle.std.specs.Prelude.{◌-◌, ◌<◌, ◌≤◌, take, length};
    ghost use Rattle.hipe_base.specs.SinkStore.{SinkStore};

    ghost Value = { SinkStore };

    ghost view = { λ s. record {
      written = take s.used s.buffer.items;
      room = length s.buffer.items - s.used;
      piece = s.piece;
    } };

    ghost invariant = { λ s. (s.used ≤ length s.buffer.items) × (0 < s.piece) };
}

impl SafeSink {
    /// An empty sink with room for `room` bytes, of which a write takes at most `piece`.
    pub fn new(alloc: Global, piece: usize, room: usize) -> Result<SafeSink, AllocError>
        requires { 0 < piece }
        ensures { IfOk result (λ s. s ≡ empty_sink piece room) }
    {
        let buffer = vec![in alloc; 0u8; room]?;
        Ok(SafeSink {
            buffer,
            used: 0,
            piece,
        })
    }

    /// The bytes written so far.
    pub fn bytes(&self) -> &[u8]
        ensures { result.now ≡ self.now.written }
    {
        &self.buffer[..self.used]
    }

    /// Whether there is no room left.
    pub fn is_full(&self) -> bool
        ensures { result ≡ (self.now.room == 0) }
    {
        self.buffer.len() == self.used
    }
}

impl Sink for SafeSink {
    ghost seen = { λ x. record { written = Some x.written; room = Some x.room; faults = 0 } };

    fn write(&mut self, from: &[u8]) -> Result<usize, Failed>
        ensures answer { result ≡ write_answer self.old (length from.now) }
        ensures after { self.new ≡ after_write self.old from.now result }
        ensures within { IfOk result (λ n. (n ≤ length from.now) × (0 < length from.now → 0 < n)) }
    {
        if from.is_empty() {
            return Ok(0);
        }
        if self.is_full() {
            return Err(Failed);
        }
        let n = from
            .len()
            .min(self.piece)
            .min(self.buffer.len() - self.used);
        self.buffer[self.used..self.used + n].copy_from_slice(&from[..n]);
        self.used += n;
        Ok(n)
    }
}
