//! What the programs read.

#![tactic(auto)]

ghost use Rattle.std.specs.Prelude.{◌+◌, ◌≤◌, length, IfOk, vec_len};

use std::alloc::Global;
use std::io::{ErrorKind, Read};
use std::{fs, io};

/// The most bytes that a program reads of events, or of a tape.
pub const MOST: usize = 32_768;

/// The bytes that are read at a time.
const PART: usize = 2048;

/// Reads to the end, or until there are `most` bytes.
pub fn read_all<R: Read>(from: &mut R, heap: Global, most: usize) -> io::Result<Vec<u8>>
    ensures { IfOk result (λ bytes. vec_len bytes ≤ most) }
{
    let mut bytes = Vec::with_capacity(heap, most)?;
    read_parts(from, &mut [0; PART], &mut bytes, most)?;
    Ok(bytes)
}

/// Reads the file tape.bin as `read_all` does; a file that is missing has no bytes.
pub fn read_tape(rt: &HostRuntime, most: usize) -> io::Result<Vec<u8>>
    ensures { IfOk result (λ bytes. vec_len bytes ≤ most) }
{
    match fs::open(rt, "tape.bin") {
        Ok(mut file) => read_all(&mut file, rt.alloc(), most),
        Err(error) if error.kind() == ErrorKind::NotFound => Ok(Vec::new(rt.alloc())),
        Err(error) => Err(error),
    }
}

/// Reads onto the end of the bytes, a part at a time, to the end or until there are `most`.
// By a loop: the library's `read_to_end` goes on after a read that is interrupted, and no contract holds it to a limit.
fn read_parts<R: Read>(
    from: &mut R,
    part: &mut [u8],
    bytes: &mut Vec<u8>,
    most: usize,
) -> io::Result<()>
    requires { vec_len bytes.old ≤ most }
    ensures { vec_len bytes.new ≤ most }
{
    for _ in 0..most {
        let room = part.len().min(most - bytes.len());
        let got = read_part(from, &mut part[0..room], bytes)?;
        if got == 0 {
            break;
        }
    }
    Ok(())
}

/// Reads a part once, onto the end of the bytes, and answers how many were read.
fn read_part<R: Read>(from: &mut R, part: &mut [u8], bytes: &mut Vec<u8>) -> io::Result<usize>
    ensures { vec_len bytes.new ≤ vec_len bytes.old + length part.old }
{
    let got = from.read(part)?;
    bytes.extend_from_slice(&part[0..got])?;
    Ok(got)
}
