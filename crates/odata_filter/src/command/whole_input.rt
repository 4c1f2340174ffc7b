//! All that a reader has, in memory.
ghost use Rattle.std.specs.Prelude.{◌≡◌, IfOk, IfSome, MatchResult};
ghost use Rattle.line_filter.specs.CallLogs.{StaysWell};
ghost use Rattle.odata_filter.specs.ReadErrors.{ReadsUntilError};

use line_filter::{Reads, Unlogged};
use std::alloc::Global;
use std::io::Read;
use thiserror::Error;

/// Why a reader was not read whole.
#[derive(Debug, Drop, Error)]
pub enum ReadAllError {
    #[error("read")]
    Read,
    #[error("memory")]
    Memory,
}

/// How many bytes are asked for at a time: few, since the buffer for them is zeroed first, and most schemas are short.
const ONE_READ: usize = 8_192;

/// Reads as [`read_whole`] does, by how the reader's reads are reported. It reports that a read failed only where one
/// did.
pub fn read_whole_with<R: Read, S: Reads<R>>(
    alloc: Global,
    reader: &mut R,
) -> Result<Vec<u8>, ReadAllError>
    ensures whole { IfOk result (λ bytes. IfSome (R.remaining reader.old) (λ all. bytes.items ≡ all)) }
    ensures reads { MatchResult result (λ bytes. StaysWell (S.calls reader.old) (S.calls reader.new))
        (λ fault. ReadsUntilError (S.calls reader.old) (S.calls reader.new) fault) }
{
    let mut buffer = Vec::new(alloc);
    if buffer.resize(ONE_READ, 0).is_err() {
        return Err(ReadAllError::Memory);
    }
    let mut bytes = Vec::new(alloc);
    loop {
        let count = match S::read(reader, buffer.as_mut_slice(), &[]) {
            Ok(count) => count,
            Err(_) => return Err(ReadAllError::Read),
        };
        if count == 0 {
            return Ok(bytes);
        }
        if bytes
            .extend_from_slice(&buffer.as_slice()[..count])
            .is_err()
        {
            return Err(ReadAllError::Memory);
        }
    }
}

/// Reads up to the end. An interrupted read has failed, and is not retried. Its clause says nothing of an error.
pub fn read_whole<R: Read>(alloc: Global, reader: &mut R) -> Result<Vec<u8>, ReadAllError>
    ensures { IfOk result (λ bytes. IfSome (R.remaining reader.old) (λ all. bytes.items ≡ all)) }
{
    read_whole_with::<R, Unlogged>(alloc, reader)
}
