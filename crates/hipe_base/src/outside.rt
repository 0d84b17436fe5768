// The two traits through which the product meets the outside.

ghost use Rattle.std.specs.Prelude.{◌≡◌, ℕ, ◌≤◌, ◌<◌, Bool, List, Option, IsTrue, IfOk, OnOk, OnErr, is_ok, is_some, length};
ghost use Rattle.hipe_base.specs.Count.{most, Rose};
ghost use Rattle.hipe_base.specs.Files.{Told, Lacks, FilesFailed, IsAtStart, ReadsBytes, CountsBytes};
ghost use Rattle.hipe_base.specs.Sink.{Seen, SinkFailed, WritesBytes, TakesRoom};

/// The one answer of a file or a sink that did not do what it was asked.
#[derive(Clone, Copy, Debug, PartialEq, Eq, Drop)]
pub struct Failed;

/// Files that are opened by name, one at a time, and read from front to back.
///
/// `held` is the bytes by name, where it tells them; `left` the bytes left of the open file, told
/// where `held` is; `taken` the bytes that the reads have given, and `faults` the failures. Both
/// counts stand still at 2^64 - 1.
pub trait Files {
    ghost told: { Self → Told };

    /// Opens the file `name` at its first byte, in place of the one that was open.
    fn open(&mut self, name: &str) -> Result<(), Failed>
        ensures opened { (told self.new).is_open ≡ is_ok result }
        ensures bytes { OnOk result (IsAtStart (told self.old).held name.now (told self.new).left) }
        ensures lacking { Lacks (told self.old).held name.now
            → (result ≡ Err record {}) × ((told self.new).faults ≡ (told self.old).faults) }
        ensures failed { OnErr
            result
            (FilesFailed (told self.old).faults (told self.new).faults (told self.old).held name.now) }
        ensures later { (told self.old).faults ≤ (told self.new).faults }
        ensures counted { (told self.new).taken ≡ (told self.old).taken }
        ensures counter { (told self.new).taken ≤ most }
        ensures same { (told self.new).held ≡ (told self.old).held };

    /// Moves the next bytes of the open file to the front of `to` and says how many: 0 at its end.
    fn read(&mut self, to: &mut [u8]) -> Result<usize, Failed>
        requires opened { IsTrue (told self.old).is_open }
        requires room { 0 < length to.old }
        ensures within { IfOk result (λ n. n ≤ length to.old) }
        ensures bytes { ReadsBytes result to.new (told self.old).left (told self.new).left }
        ensures still_open { (told self.new).is_open ≡ is_ok result }
        ensures failed { OnErr result (Rose (told self.old).faults (told self.new).faults) }
        ensures later { (told self.old).faults ≤ (told self.new).faults }
        ensures counted { CountsBytes result (told self.old).taken (told self.new).taken }
        ensures same { (told self.new).held ≡ (told self.old).held };

    // the bytes left are told exactly where the files are
    ghost left_told: { (f : Self) → is_some (told f).left ≡ is_some (told f).held };
}

/// A place that takes bytes, one piece after the other.
///
/// `written` is the bytes that it took, where it tells them; `room` the number of bytes that it can
/// still take, where it tells that; `faults` counts the failures and stands still at 2^64 - 1.
pub trait Sink {
    ghost seen: { Self → Seen };

    /// Takes the first bytes of `from`, at least one where there is one, and says how many.
    fn write(&mut self, from: &[u8]) -> Result<usize, Failed>
        ensures empty { length from.now ≡ 0 → result ≡ Ok 0 }
        ensures within { IfOk result (λ n. (n ≤ length from.now) × (0 < length from.now → 0 < n)) }
        ensures bytes { WritesBytes result from.now (seen self.old).written (seen self.new).written }
        ensures room { TakesRoom result (seen self.old).room (seen self.new).room }
        ensures failed { OnErr
            result
            (SinkFailed (seen self.old).faults (seen self.new).faults (seen self.old).room (length from.now)) }
        ensures later { (seen self.old).faults ≤ (seen self.new).faults };
}
