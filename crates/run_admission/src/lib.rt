// What is judged before a run stores anything: the lengths, the table, the state and the whole schedule. Its rounds are
// counted on the way, since they do not go by what is heard.
#![tactic(auto)]

mod schedule;

ghost use Rattle.std.specs.Prelude.{◌≡◌, length};
ghost use Rattle.run_admission.specs.RunAdmitted.{RunAdmitted, AdmittedBySchedule};

use crate::schedule::walk_schedule;
use admission::{HEARD_LENGTH, bad_offset};
use answer::{Refusal, Rule};
use pairs::next_hops;
use reader::{Table, read};

// The number of sums, and the longest schedule.
const SUMS_LENGTH: usize = 64;

const LONGEST_SCHEDULE: usize = 32768;

// What the work of a run goes by: where the slots lead, and the rounds that its schedule closes.
#[derive(Clone, Copy)]
pub struct Admitted {
    pub nexts: [[u8; 16]; 64],
    pub rounds: u16,
}

// The state of an accepted table, then the schedule.
fn admit_accepted(table: Table<'_>, heard: &[u8], schedule: &[u8]) -> Result<Admitted, Refusal>
    requires { length heard.now ≡ 4096 }
    ensures { AdmittedBySchedule table.entry.bytes.now heard.now schedule.now result }
{
    let nexts = next_hops(table.bytes);
    if let Some(at) = bad_offset(&nexts, heard) {
        return Err(Rule::HeardState.at(at));
    }
    let size = schedule.len();
    if size % 2 != 0 || LONGEST_SCHEDULE < size {
        return Err(Rule::Schedule.at(0));
    }
    match walk_schedule(&nexts, schedule) {
        Ok(rounds) => Ok(Admitted { nexts, rounds }),
        Err(pair) => Err(Rule::NoListener.at(pair)),
    }
}

// Judges a run in the order of the rules: a refusal, or accepted with what its work goes by.
pub fn admit_run(
    table: &[u8],
    heard: &[u8],
    schedule: &[u8],
    sums: &[i32],
) -> Result<Admitted, Refusal>
    ensures { RunAdmitted table.now heard.now schedule.now sums.now result }
{
    if heard.len() != HEARD_LENGTH || sums.len() != SUMS_LENGTH {
        return Err(Rule::OtherLength.at(0));
    }
    let accepted = read(table)?;
    admit_accepted(accepted, heard, schedule)
}
