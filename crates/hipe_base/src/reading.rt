// Reading a whole file.

ghost use Rattle.std.specs.Prelude.{◌≡◌, ◌≤◌, IfOk, IfErr, vec_len};
ghost use Rattle.hipe_base.specs.Count.{counted};
ghost use Rattle.hipe_base.specs.Files.{HoldsFile};
ghost use Rattle.hipe_base.specs.Reading.{IsRefused};
ghost use Rattle.hipe_base.specs.declared.reading.ReadRefusal.TheVariants.{Fault, Memory};

use crate::outside::{Failed, Files};
use std::alloc::{AllocError, Global};

/// The bytes that one read asks for.
const PIECE: usize = 16384;

/// Why a file was not read.
#[derive(Debug, Drop, thiserror::Error)]
pub enum ReadRefusal {
    /// The file could not be opened, or a read of it failed.
    #[error("the file cannot be read")]
    Fault,
    /// The file holds more bytes than were asked for.
    #[error("the file is too long")]
    TooLong,
    /// There was no memory for the file's bytes.
    #[error("no memory for the file")]
    Memory(AllocError),
}

impl From<Failed> for ReadRefusal {
    ghost from_gives = { λ _ e. e ≡ Fault };

    fn from(_failed: Failed) -> ReadRefusal {
        ReadRefusal::Fault
    }
}

impl From<AllocError> for ReadRefusal {
    ghost from_gives = { λ a e. e ≡ Memory a };

    fn from(error: AllocError) -> ReadRefusal {
        ReadRefusal::Memory(error)
    }
}

/// The bytes of the file `name`, of which there may be at most `limit`.
pub fn read_file<F: Files>(
    alloc: Global,
    files: &mut F,
    name: &str,
    limit: usize,
) -> Result<Vec<u8>, ReadRefusal>
    ensures bytes { IfOk result (λ v. HoldsFile (F.told files.old).held name.now v.items) }
    ensures limited { IfOk result (λ v. vec_len v ≤ limit) }
    ensures all_taken { IfOk result (λ v. (F.told files.new).taken ≡ counted (F.told files.old).taken (vec_len v)) }
    ensures refused { IfErr
        result
        (IsRefused
        (F.told files.old).held
        name.now
        limit
        (F.told files.old).faults
        (F.told files.new).faults
        (F.told files.old).taken
        (F.told files.new).taken) }
    ensures later { (F.told files.old).faults ≤ (F.told files.new).faults }
    ensures none_untaken { (F.told files.old).taken ≤ (F.told files.new).taken }
    ensures same { (F.told files.new).held ≡ (F.told files.old).held }
{
    files.open(name)?;
    let mut bytes = Vec::new(alloc);
    let mut buffer = [0u8; PIECE];
    'pieces: loop {
        let n = files.read(&mut buffer)?;
        if n == 0 {
            return Ok(bytes);
        }
        if n > limit - bytes.len() {
            return Err(ReadRefusal::TooLong);
        }
        bytes.extend_from_slice(&buffer[..n])?;
    }
}
