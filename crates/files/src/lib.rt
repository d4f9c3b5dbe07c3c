// What the programs make of the reading of a file.
#![tactic(auto)]

ghost use Rattle.std.specs.Prelude.{◌≡◌, ◌≢◌, [], Ok, Err, IfOk, IfErr, IsOkAnd};
ghost use Rattle.std.specs.IoError.{error_kind};

use std::alloc::Global;
use std::io;
use std::io::ErrorKind;

/// What reading a file gave, where a missing file counts as an empty one: bytes that were read, and any other error, stay.
pub fn empty_if_missing(heap: Global, read: io::Result<Vec<u8>>) -> io::Result<Vec<u8>>
    ensures bytes { IfOk read (λ v. result ≡ Ok v) }
    ensures missing { IfErr read (λ e. error_kind e ≡ ErrorKind.NotFound → IsOkAnd result (λ v. v.items ≡ [])) }
    ensures other { IfErr read (λ e. error_kind e ≢ ErrorKind.NotFound → result ≡ Err e) }
{
    match read {
        Ok(bytes) => Ok(bytes),
        Err(error) => {
            if error.kind() == ErrorKind::NotFound {
                return Ok(Vec::new(heap));
            }
            Err(error)
        }
    }
}
