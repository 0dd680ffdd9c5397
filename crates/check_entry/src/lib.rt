// The check's entry for C: the library's check, and its answer as words.
#![tactic(auto)]

ghost use Rattle.std.specs.Prelude.{◌≡◌};
ghost use Rattle.rules.specs.Entries.{number_bytes};
ghost use Rattle.answer.specs.Meaning.{numbers_with};
ghost use Rattle.words.specs.Words.{overwritten};
ghost use Rattle.check_entry.specs.CheckCalled.{CheckCalled};

use answer::{Answer, Verdict};
use checker::check;
use words::{NUMBERS_LENGTH, WRONG_LENGTH, code_of, write_numbers};

// Writes the check's numbers; the ring's length comes from the verdict.
fn write_check(bytes: &mut [u8], count: u8, answer: Answer)
    ensures { bytes.new ≡ overwritten (number_bytes (numbers_with count answer)) bytes.old }
{
    let told = [
        u32::from(count),
        u32::from(answer.settled),
        u32::from(answer.stuck),
        u32::from(answer.stages),
        u32::from(answer.longest),
        0,
        0,
        0,
    ];
    write_numbers(bytes, told);
}

// Checks a table; on 0 the rows, the ring and the numbers are filled, otherwise no byte changes.
pub fn check_for_c(table: &[u8], rows: &mut [u8], ring: &mut [u8], numbers: &mut [u8]) -> u64
    ensures { CheckCalled table.now rows.old ring.old numbers.old
        result rows.new ring.new numbers.new }
{
    if numbers.len() != NUMBERS_LENGTH {
        return WRONG_LENGTH;
    }
    let answer = check(table, rows, ring);
    match answer.verdict {
        Verdict::Complete => {
            write_check(numbers, 0, answer);
            0
        }
        Verdict::Stuck(count) => {
            write_check(numbers, count, answer);
            0
        }
        // A cast, since a `try_from` would have an error to handle that never comes.
        Verdict::Refused(number, place) => code_of(number, place as u32),
    }
}
