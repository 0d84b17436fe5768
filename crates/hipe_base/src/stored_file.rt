// A file in memory, and the look-up of one by its name.

ghost use Rattle.std.specs.Prelude.{◌≡◌, ◌<◌, IfOk, IfSome, length};
ghost use Rattle.hipe_base.specs.FileStore.{bytes_of, is_named, left_at};

use std::alloc::{AllocError, Global};
use std::marker::Model;

/// A file's name and its bytes.
#[derive(Drop)]
pub struct StoredFile {
    name: String,
    bytes: Vec<u8>,
}

impl Model for StoredFile {
    ghost use Rattle.std.specs.String.{string_bytes};
    ghost use Rattle.hipe_base.specs.FileStore.{NamedBytes};

    ghost Value = { NamedBytes };

    ghost view = { λ f. record { name = string_bytes f.name; bytes = f.bytes.items } };
}

impl StoredFile {
    pub fn new(alloc: Global, name: &str, bytes: &[u8]) -> Result<StoredFile, AllocError>
        ensures { IfOk result (λ f. f ≡ record { name = name.now; bytes = bytes.now }) }
    {
        let name = String::from_str(alloc, name)?;
        let bytes = Vec::from_slice(alloc, bytes)?;
        Ok(StoredFile { name, bytes })
    }

    pub fn is_named(&self, name: &str) -> bool
        ensures { result ≡ is_named name.now self.now.name }
    {
        self.name.as_str() == name
    }

    pub fn bytes(&self) -> &[u8]
        ensures { result.now ≡ self.now.bytes }
    {
        &self.bytes
    }
}

/// The place of the file that was last added with this name.
pub fn place_of(files: &[StoredFile], name: &str) -> Option<usize>
    ensures within { IfSome result (λ place. place < length files.now) }
    ensures bytes { bytes_of files.now name.now ≡ left_at files.now result 0 }
{
    let mut found = None;
    for i in 0..files.len() {
        let file = &files[i];
        if file.is_named(name) {
            found = Some(i);
        }
    }
    found
}
