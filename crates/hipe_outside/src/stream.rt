// An output stream of the system.

ghost use Rattle.std.specs.Prelude.{◌≡◌, ◌≤◌, ◌<◌, IfOk, length};
ghost use Rattle.std.specs.Io.KnownBytes.{WriteAppends};
ghost use Rattle.hipe_outside.specs.Outside.{faults_after};

use hipe_base::{Failed, Sink};
use std::io::Write;
use std::marker::Model;

/// A stream that takes bytes at once and keeps none back, as standard output. As a `Sink` it does not
/// tell what was written, nor how much it can still take.
#[derive(Drop)]
pub struct Stream<W: Write + Drop> {
    to: W,
    faults: u64,
}

impl<W: Write + Drop> Model for Stream<W> {
    ghost use Rattle.hipe_outside.specs.Outside.{StreamState};

    ghost Value = { StreamState };

    ghost view = { λ s. record { known = W.contents s.to; faults = s.faults } };
}

impl<W: Write + Drop> Stream<W> {
    /// The stream that writes to `to`, which keeps no bytes back.
    pub fn new(to: W) -> Stream<W>
        ensures { result ≡ record { known = W.contents to; faults = 0 } }
    {
        Stream { to, faults: 0 }
    }
}

impl<W: Write + Drop> Sink for Stream<W> {
    ghost use Rattle.std.specs.Prelude.{None};

    ghost seen = { λ x. record { written = None; room = None; faults = x.faults } };

    fn write(&mut self, from: &[u8]) -> Result<usize, Failed>
        ensures empty { length from.now ≡ 0 → result ≡ Ok 0 }
        ensures within { IfOk result (λ n. (n ≤ length from.now) × (0 < length from.now → 0 < n)) }
        ensures counted { self.new.faults ≡ faults_after self.old.faults result }
        ensures later { self.old.faults ≤ self.new.faults }
        ensures passed_on { WriteAppends self.old.known self.new.known result from.now }
    {
        if from.is_empty() {
            return Ok(0);
        }
        match self.to.write(from) {
            Ok(n) if n > 0 => Ok(n),
            _ => {
                self.faults = self.faults.saturating_add(1);
                Err(Failed)
            }
        }
    }
}
