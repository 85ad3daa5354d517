//! The bytes of a request, from their reader.
ghost use Rattle.std.specs.Prelude.{◌≡◌, length, MatchOption, MatchResult};
ghost use Rattle.std.specs.Io.KnownBytes.{Consumes, IsAtEnd};
ghost use Rattle.serving.specs.Serving.{ReadsLess};

use crate::numbers::REQUEST_BYTES;
use runner::{ReadFault, read_once};
use std::io::Read;

/// Reads a whole request. `None`: the reader is at its end before that. It is called again where it was interrupted.
///
/// # Errors
///
/// `ReadFault` where it failed before that, or was called 2^64 - 1 times.
pub(crate) fn read_request<R: Read>(
    reader: &mut R,
) -> Result<Option<[u8; REQUEST_BYTES]>, ReadFault>
    ensures { MatchResult result
        (λ read. MatchOption read
        (ReadsLess (R.remaining reader.old) (R.remaining reader.new) × IsAtEnd (R.remaining reader.new))
        (λ bytes. (length bytes ≡ 72) × Consumes (R.remaining reader.old) (R.remaining reader.new) bytes))
        (λ _. ReadsLess (R.remaining reader.old) (R.remaining reader.new)) }
{
    let mut bytes = [0; REQUEST_BYTES];
    let mut at = 0;
    for i in 0..u64::MAX {
        match read_once(reader, &mut bytes[at..]) {
            Ok(Some(count)) => at += count,
            Ok(None) => return Ok(None),
            Err(fault) => return Err(fault),
        }
        if at >= REQUEST_BYTES {
            return Ok(Some(bytes));
        }
    }
    Err(ReadFault)
}
