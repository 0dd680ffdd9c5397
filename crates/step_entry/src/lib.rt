// The step's entry for C: the library's step, and its movement as a word.
#![tactic(auto)]

ghost use Rattle.step_entry.specs.StepCalled.{StepCalled};

use machine::step;
use words::{NUMBERS_LENGTH, WRONG_LENGTH, code_of, complement, write_numbers};

// Activates one pair; on 0 the speaker's choice is stored and the numbers hold the movement, otherwise no byte changes.
pub fn step_for_c(
    table: &[u8],
    heard: &mut [u8],
    listener: u8,
    speaker: u8,
    numbers: &mut [u8],
) -> u64
    ensures { StepCalled table.now heard.old
        (record { listener = listener; speaker = speaker }) numbers.old
        result heard.new numbers.new }
{
    if numbers.len() != NUMBERS_LENGTH {
        return WRONG_LENGTH;
    }
    match step(table, heard, listener, speaker) {
        Ok(moved) => {
            write_numbers(numbers, [complement(moved), 0, 0, 0, 0, 0, 0, 0]);
            0
        }
        // A cast, since there is no `From` of a usize; the place is small by `step_small`.
        Err(refusal) => code_of(refusal.number, refusal.place as u32),
    }
}
