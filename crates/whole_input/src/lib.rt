// A whole input: what a reader gives, as far as a buffer holds it.
#![tactic(auto)]

ghost use Rattle.std.specs.Prelude.{◌≤◌, length, IfOk};

use std::io;
use std::io::Read;

// Fills the buffer from its front until it is full or the reader is at its end; answers how many bytes that is. Where a
// read fails, its error is answered, and what the buffer holds is open.
pub fn read_full<R: Read>(reader: &mut R, buffer: &mut [u8]) -> io::Result<usize>
    ensures { IfOk result (λ count. count ≤ length buffer.new) }
{
    let mut count = 0;
    // No range counts these turns: each read says how far it went.
    while count < buffer.len() {
        let got = reader.read(&mut buffer[count..])?;
        if got == 0 {
            break;
        }
        count += got;
    }
    Ok(count)
}
