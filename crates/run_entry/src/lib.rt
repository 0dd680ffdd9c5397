// The run's entry for C: the library's run, and its numbers and sums as words.
#![tactic(auto)]

ghost use Rattle.std.specs.Prelude.{◌≡◌, Ok};
ghost use Rattle.rules.specs.Entries.{number_bytes};
ghost use Rattle.answer.specs.Moves.{run_numbers_in};
ghost use Rattle.words.specs.Words.{overwritten};
ghost use Rattle.run_entry.specs.RunCalled.{RunCalled};

use answer::RunAnswer;
use machine::run;
use words::{NUMBERS_LENGTH, SUMS, SUMS_LENGTH, WRONG_LENGTH, code_of, write_numbers, write_sums};

// Writes a run's numbers in the order of the rules.
fn write_run(bytes: &mut [u8], answer: RunAnswer)
    ensures { bytes.new ≡ overwritten (number_bytes (run_numbers_in (Ok answer))) bytes.old }
{
    let told = [
        answer.steps,
        answer.ups,
        answer.downs,
        answer.last,
        answer.rounds,
        0,
        0,
        0,
    ];
    write_numbers(bytes, told);
}

// Works a schedule; on 0 the state is the one after it and the sums and numbers are filled, otherwise no byte changes.
pub fn run_for_c(
    table: &[u8],
    heard: &mut [u8],
    schedule: &[u8],
    sums: &mut [u8],
    numbers: &mut [u8],
) -> u64
    ensures { RunCalled table.now heard.old schedule.now
        sums.old numbers.old
        result heard.new sums.new numbers.new }
{
    if sums.len() != SUMS_LENGTH || numbers.len() != NUMBERS_LENGTH {
        return WRONG_LENGTH;
    }
    let mut moved = [0; SUMS];
    match run(table, heard, schedule, &mut moved) {
        Ok(answer) => {
            write_sums(sums, &moved);
            write_run(numbers, answer);
            0
        }
        // A cast, since there is no `From` of a usize; the place is small by `run_small`.
        Err(refusal) => code_of(refusal.number, refusal.place as u32),
    }
}
