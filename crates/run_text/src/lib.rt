// The run as text: from the bytes of a table and of a schedule to the bytes that the run program prints.
#![tactic(auto)]

ghost use Rattle.rules.specs.RunText.{ran_text};
ghost use Rattle.text_writing.specs.Lay.{Laid};
ghost use Rattle.run_text.specs.RanFrom.{RanFrom};

use machine::{choices, run};
use run_lines::print_run;
use table_facts::{PAIRS, VERTICES};

// Runs the schedule from the heard state, lays the text of the run over the front of the lent text, as far as it fits,
// and answers how many bytes that is.
pub fn run_from(table: &[u8], heard: &mut [u8], schedule: &[u8], text: &mut [u8]) -> usize
    ensures { RanFrom table.now heard.old schedule.now text.old
        heard.new text.new result }
{
    let mut sums = [0; VERTICES];
    let answer = run(table, heard, schedule, &mut sums);
    let chosen = choices(table, heard);
    print_run(answer, table, &chosen, &sums, text)
}

// Lays the text of a run from all zeros over the front of the lent text, as far as it fits, and answers how many bytes
// that is; 8,192 hold every text.
pub fn run_text(table: &[u8], schedule: &[u8], text: &mut [u8]) -> usize
    ensures { Laid 0 (ran_text table.now schedule.now) text.old text.new result }
{
    let mut heard = [0; PAIRS];
    run_from(table, &mut heard, schedule, text)
}
