// The check as text: from a table's bytes to the bytes that the check program prints.
#![tactic(auto)]

ghost use Rattle.rules.specs.Text.{check_text};
ghost use Rattle.text_writing.specs.Lay.{Laid};

use check_lines::print;
use checker::check;
use report_rows::ROWS;
use reporter::RING;

// Lays the check's text over the front of the lent text, as far as it fits, and answers how many bytes that is; 16,384
// hold every text.
pub fn check_text(table: &[u8], text: &mut [u8]) -> usize
    ensures { Laid 0 (check_text table.now) text.old text.new result }
{
    let mut rows = [0; ROWS];
    let mut ring = [0; RING];
    let answer = check(table, &mut rows, &mut ring);
    print(answer, &rows, &ring, text)
}
