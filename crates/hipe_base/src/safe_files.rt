// Files in memory that fail only where one is lacking.

ghost use Rattle.std.specs.Prelude.{◌≡◌, ◌≤◌, ◌<◌, IsTrue, IfOk, OnOk, is_ok, is_some, length, Some, if◌then◌else◌};
ghost use Rattle.hipe_base.specs.Count.{most};
ghost use Rattle.hipe_base.specs.Files.{ReadsBytes};
ghost use Rattle.hipe_base.specs.FileStore.{Replaces, no_files, with_file, left_in, after_close, after_open, open_answer, read_count, after_read};

use crate::outside::{Failed, Files};
use crate::stored_file::{StoredFile, place_of};
use std::alloc::{AllocError, Global};
use std::marker::Model;

/// Files in memory that tell their bytes and fail only where one is lacking.
#[derive(Drop)]
pub struct SafeFiles {
    alloc: Global,
    files: Vec<StoredFile>,
    piece: usize,
    place: Option<usize>,
    offset: usize,
    taken: u64,
}

impl Model for SafeFiles {
    ghost use Rattle.std.specs.Prelude.{◌<◌, ◌≤◌, length, IfSome};
    ghost use Rattle.hipe_base.specs.FileStore.{FileStore, left_at, bytes_at};

    ghost Value = { FileStore };

    ghost view = { λ s. record {
      files = s.files.items;
      piece = s.piece;
      left = left_at s.files.items s.place s.offset;
      taken = s.taken;
    } };

    ghost invariant = { λ s. (0 < s.piece)
        × IfSome
        s.place
        (λ place. (place < length s.files.items)
        × (s.offset ≤ length (bytes_at s.files.items place))) };
}

impl SafeFiles {
    /// No files; each read gives at most `piece` bytes.
    pub fn new(alloc: Global, piece: usize) -> Result<SafeFiles, AllocError>
        requires { 0 < piece }
        ensures { IfOk result (λ s. s ≡ no_files piece) }
    {
        Ok(SafeFiles {
            alloc,
            files: Vec::new(alloc),
            piece,
            place: None,
            offset: 0,
            taken: 0,
        })
    }

    /// Holds one more file, in place of one with the same name. A file that is open is read on as it
    /// was.
    #[tactic(auto, using(crate::proofs::FileLaws::bytes_of_added, crate::proofs::FileLaws::left_at_added))]
    pub fn add(&mut self, name: &str, bytes: &[u8]) -> Result<(), AllocError>
        ensures added { self.new ≡ (if is_ok result then with_file self.old name.now bytes.now else self.old) }
        ensures held { OnOk result (Replaces self.old.files self.new.files name.now bytes.now) }
    {
        let file = StoredFile::new(self.alloc, name, bytes)?;
        self.files.push(file)?;
        Ok(())
    }

    /// Leaves no file open.
    pub(crate) fn close(&mut self)
        ensures { self.new ≡ after_close self.old }
    {
        self.place = None;
    }
}

impl Files for SafeFiles {
    ghost use Rattle.std.specs.Prelude.{Some, is_some, refl};
    ghost use Rattle.hipe_base.specs.FileStore.{held_in, left_in};

    ghost told = { λ x. record { held = held_in x; left = Some (left_in x); is_open = is_some x.left; taken = x.taken; faults = 0 } };

    ghost left_told = { λ x. refl };

    fn open(&mut self, name: &str) -> Result<(), Failed>
        ensures answer { result ≡ open_answer self.old name.now }
        ensures after { self.new ≡ after_open self.old name.now }
        ensures counter { self.new.taken ≤ most }
    {
        self.place = place_of(&self.files, name);
        self.offset = 0;
        if self.place.is_some() {
            Ok(())
        } else {
            Err(Failed)
        }
    }

    fn read(&mut self, to: &mut [u8]) -> Result<usize, Failed>
        requires opened { IsTrue (is_some self.old.left) }
        requires room { 0 < length to.old }
        ensures answer { result ≡ Ok (read_count self.old (length to.old)) }
        ensures after { self.new ≡ after_read self.old (read_count self.old (length to.old)) }
        ensures bytes { ReadsBytes result to.new (Some (left_in self.old)) (Some (left_in self.new)) }
    {
        let Some(place) = self.place else {
            unreachable!()
        };
        let file = &self.files[place];
        let left = &file.bytes()[self.offset..];
        let n = to.len().min(self.piece).min(left.len());
        to[..n].copy_from_slice(&left[..n]);
        self.offset += n;
        self.taken = self.taken.saturating_add(n as u64);
        Ok(n)
    }
}
