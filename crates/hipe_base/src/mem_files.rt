// Files in memory whose calls fail as they are told to.

ghost use Rattle.std.specs.Prelude.{◌≡◌, ◌≤◌, ◌<◌, IsTrue, IfOk, OnOk, OnErr, is_ok, is_some, length, Some, if◌then◌else◌};
ghost use Rattle.hipe_base.specs.Count.{most, Rose};
ghost use Rattle.hipe_base.specs.Files.{FilesFailed, ReadsBytes};
ghost use Rattle.hipe_base.specs.FailurePlan.{no_failures, with_failure};
ghost use Rattle.hipe_base.specs.FileStore.{Replaces, no_files, with_file, held_in, left_in};
ghost use Rattle.hipe_base.specs.FailingFiles.{failing_open_answer, after_failing_open, failing_read_answer, after_failing_read};

use crate::failures::Failures;
use crate::outside::{Failed, Files};
use crate::safe_files::SafeFiles;
use std::alloc::{AllocError, Global};
use std::marker::Model;

/// Files in memory that tell their bytes, and fail where one is lacking and at the calls that they
/// are given. Opens and reads are numbered together from 0.
#[derive(Drop)]
pub struct MemFiles {
    files: SafeFiles,
    failures: Failures,
}

impl Model for MemFiles {
    ghost use Rattle.hipe_base.specs.FailingFiles.{FailingFiles};

    ghost Value = { FailingFiles };

    ghost view = { λ m. record { store = m.files; plan = m.failures } };
}

impl MemFiles {
    /// No files; each read gives at most `piece` bytes.
    pub fn new(alloc: Global, piece: usize) -> Result<MemFiles, AllocError>
        requires { 0 < piece }
        ensures { IfOk result (λ s. s ≡ record { store = no_files piece; plan = no_failures }) }
    {
        let files = SafeFiles::new(alloc, piece)?;
        Ok(MemFiles {
            files,
            failures: Failures::new(alloc),
        })
    }

    /// Holds one more file, in place of one with the same name. A file that is open is read on as it
    /// was.
    pub fn add(&mut self, name: &str, bytes: &[u8]) -> Result<(), AllocError>
        ensures added { self.new
            ≡ (if is_ok result
            then record self.old { store = with_file self.old.store name.now bytes.now }
            else self.old) }
        ensures held { OnOk result (Replaces self.old.store.files self.new.store.files name.now bytes.now) }
    {
        self.files.add(name, bytes)
    }

    /// Lets the call number `call` fail too.
    pub fn fail_at(&mut self, call: u64) -> Result<(), AllocError>
        ensures { self.new
            ≡ (if is_ok result
            then record self.old { plan = with_failure self.old.plan call }
            else self.old) }
    {
        self.failures.fail_at(call)
    }
}

impl Files for MemFiles {
    ghost use Rattle.std.specs.Prelude.{Some, is_some, refl};
    ghost use Rattle.hipe_base.specs.FileStore.{held_in, left_in};

    ghost told = { λ x. record { held = held_in x.store; left = Some (left_in x.store); is_open = is_some x.store.left; taken = x.store.taken; faults = x.plan.faults } };

    ghost left_told = { λ x. refl };

    fn open(&mut self, name: &str) -> Result<(), Failed>
        ensures answer { result ≡ failing_open_answer self.old name.now }
        ensures after { self.new ≡ after_failing_open self.old name.now }
        ensures failed { OnErr
            result
            (FilesFailed
            self.old.plan.faults
            self.new.plan.faults
            (held_in self.old.store)
            name.now) }
        ensures later { self.old.plan.faults ≤ self.new.plan.faults }
        ensures counter { self.new.store.taken ≤ most }
    {
        let fails = self.failures.next();
        self.files.open(name)?;
        if fails {
            self.files.close();
            self.failures.fault();
            return Err(Failed);
        }
        Ok(())
    }

    fn read(&mut self, to: &mut [u8]) -> Result<usize, Failed>
        requires opened { IsTrue (is_some self.old.store.left) }
        requires room { 0 < length to.old }
        ensures answer { result ≡ failing_read_answer self.old (length to.old) }
        ensures after { self.new ≡ after_failing_read self.old (length to.old) }
        ensures bytes { ReadsBytes result to.new (Some (left_in self.old.store)) (Some (left_in self.new.store)) }
        ensures failed { OnErr result (Rose self.old.plan.faults self.new.plan.faults) }
        ensures later { self.old.plan.faults ≤ self.new.plan.faults }
    {
        if self.failures.next() {
            self.files.close();
            self.failures.fault();
            return Err(Failed);
        }
        self.files.read(to)
    }
}
