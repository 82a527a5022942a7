// What a file that may be absent, or longer than is wanted, holds.
#![tactic(auto)]

ghost use Rattle.std.specs.Prelude.{◌≡◌, ◌≢◌, [], take, IfSome, IfOk, IfErr, IsOkAnd, IsErrOf};
ghost use Rattle.std.specs.IoError.{error_kind};

use std::alloc::Global;
use std::io;
use std::io::{ErrorKind, Read};

// The bytes of a file, from what opening it gave. An absent file counts as empty, and of a long one no more is read than `most`
// bytes. Where nothing is known of what the file will give, as of one on a disk, nothing is promised of the bytes.
pub fn file_bytes<R: Read + Drop>(
    heap: Global,
    opened: io::Result<R>,
    most: usize,
) -> io::Result<Vec<u8>>
    ensures bytes { IfOk opened (λ file. IfOk result (λ v. IfSome (R.remaining file) (λ xs. v.items ≡ take most xs))) }
    ensures absent { IfErr opened (λ e. error_kind e ≡ ErrorKind.NotFound → IsOkAnd result (λ v. v.items ≡ [])) }
    ensures failed { IfErr opened (λ e. error_kind e ≢ ErrorKind.NotFound → IsErrOf result e) }
{
    let file = match opened {
        Ok(file) => file,
        Err(error) if error.kind() == ErrorKind::NotFound => return Ok(Vec::new(heap)),
        Err(error) => return Err(error),
    };
    let mut bytes = Vec::new(heap);
    file.take(most as u64).read_to_end(&mut bytes)?;
    Ok(bytes)
}

#[cfg(test)]
mod tests;
