// Files of the system.

ghost use Rattle.std.specs.Prelude.{◌≡◌, ◌≤◌, ◌<◌, IsTrue, IfOk, length, take, Ok, None};
ghost use Rattle.std.specs.Io.KnownBytes.{Consumes, IsAtEnd};
ghost use Rattle.hipe_base.specs.Count.{most};
ghost use Rattle.hipe_outside.specs.Outside.{none_open, after_failure, after_open, after_read};

use hipe_base::{Failed, Files};
use std::fs::File;
use std::io::Read;
use std::marker::Model;
use std::rt;

/// The files that a system opens, one at a time. As `Files` they do not tell what they hold.
#[derive(Drop)]
pub struct RealFiles<R: rt::Files + Drop> {
    system: R,
    file: Option<R::File>,
    taken: u64,
    faults: u64,
}

impl<R: rt::Files + Drop> Model for RealFiles<R> {
    ghost use Rattle.std.specs.Prelude.{◌≤◌, is_some};
    ghost use Rattle.hipe_base.specs.Count.{most};
    ghost use Rattle.hipe_outside.specs.Outside.{FileState, left_of};

    ghost Value = { FileState };

    ghost view = { λ f. record {
      counts = record { is_open = is_some f.file; taken = f.taken; faults = f.faults };
      known = left_of R.File.remaining f.file;
    } };

    ghost invariant = { λ f. f.taken ≤ most };
}

impl<R: rt::Files + Drop> RealFiles<R> {
    /// None of the system's files is open yet.
    pub fn new(system: R) -> RealFiles<R>
        ensures { result ≡ record { counts = none_open; known = None } }
    {
        RealFiles {
            system,
            file: None,
            taken: 0,
            faults: 0,
        }
    }

    /// Counts a failure, after which no file is open.
    fn fail(&mut self) -> Failed
        ensures { self.new ≡ record { counts = after_failure self.old.counts; known = None } }
    {
        self.file = None;
        self.faults = self.faults.saturating_add(1);
        Failed
    }
}

impl<R: rt::Files + Drop> Files for RealFiles<R> {
    ghost use Rattle.std.specs.Prelude.{None, refl};

    ghost told = { λ x. record { held = None; left = None; is_open = x.counts.is_open; taken = x.counts.taken; faults = x.counts.faults } };

    ghost left_told = { λ x. refl };

    fn open(&mut self, name: &str) -> Result<(), Failed>
        ensures after { self.new.counts ≡ after_open self.old.counts result }
        ensures later { self.old.counts.faults ≤ self.new.counts.faults }
        ensures counter { self.new.counts.taken ≤ most }
    {
        match File::open(&self.system, name) {
            Ok(file) => {
                self.file = Some(file);
                Ok(())
            }
            Err(_) => Err(self.fail()),
        }
    }

    fn read(&mut self, to: &mut [u8]) -> Result<usize, Failed>
        requires opened { IsTrue self.old.counts.is_open }
        requires room { 0 < length to.old }
        ensures within { IfOk result (λ n. n ≤ length to.old) }
        ensures after { self.new.counts ≡ after_read self.old.counts result }
        ensures moved { IfOk result (λ n. Consumes self.old.known self.new.known (take n to.new)) }
        ensures ended { result ≡ Ok 0 → IsAtEnd self.new.known }
        ensures later { self.old.counts.faults ≤ self.new.counts.faults }
    {
        let Some(file) = &mut self.file else {
            unreachable!()
        };
        let Ok(n) = file.read(to) else {
            return Err(self.fail());
        };
        self.taken = self.taken.saturating_add(n as u64);
        Ok(n)
    }
}
