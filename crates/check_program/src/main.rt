// The check program: a table from standard input, its check to standard output.
#![tactic(auto)]

use check_text::check_text;
use std::io;
use whole_input::read_full;

// One byte more than the longest table.
const INPUT_BYTES: usize = 16129;

// So many bytes hold every text of a check: a buffer of a fixed size and the length laid, since there is no heap here.
const TEXT_BYTES: usize = 16384;

// The table's check, printed.
fn answer(rt: &impl Print, table: &[u8]) -> io::Result<()> {
    let mut text = [0; TEXT_BYTES];
    let length = check_text(table, &mut text);
    rt.write_all(&text[..length])
}

// The input has room for one byte more than the longest table, so that a longer one is seen; a shorter one has to be at
// its end.
fn main(rt: HostRuntime) -> io::Result<()> {
    let mut input = [0; INPUT_BYTES];
    match read_full(&mut rt.stdin(), &mut input) {
        Ok(count) => answer(&rt, &input[..count]),
        Err(_) => eprintln!(rt; "standard input cannot be read"),
    }
}
