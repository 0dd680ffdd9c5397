// The machine: the choices of a heard state, the single step, and the run over a schedule.
#![tactic(auto)]

ghost use Rattle.std.specs.Prelude.{◌≡◌};
ghost use Rattle.rules.specs.Answers.{choices_in};
ghost use Rattle.stepper.specs.Stepped.{Stepped};
ghost use Rattle.runner.specs.Ran.{Ran};

use answer::{Refusal, RunAnswer};
use choice::choice_bytes;
use pairs::next_hops;
use reader::read;
use rests::asked_bytes;
use runner::run_schedule;
use stepper::step_pair;

// The choice of every vertex as a byte, all 0 where the table is refused.
pub fn choices(table: &[u8], heard: &[u8]) -> [u8; 64]
    ensures { result ≡ choices_in table.now heard.now }
{
    let Ok(accepted) = read(table) else {
        return [0; 64];
    };
    let nexts = next_hops(accepted.bytes);
    let asked = asked_bytes(accepted.bytes);
    choice_bytes(&nexts, &asked, heard)
}

// Stores the speaker's present choice, and answers the listener's movement; a refused call changes no byte.
pub fn step(table: &[u8], heard: &mut [u8], listener: u8, speaker: u8) -> Result<i32, Refusal>
    ensures { Stepped table.now heard.old (record { listener = listener; speaker = speaker }) result
        heard.new }
{
    step_pair(table, heard, listener, speaker)
}

// Works a schedule, and answers what it counted and each vertex's sum; a refused call changes no byte.
pub fn run(
    table: &[u8],
    heard: &mut [u8],
    schedule: &[u8],
    sums: &mut [i32],
) -> Result<RunAnswer, Refusal>
    ensures { Ran table.now heard.old schedule.now sums.old result
        heard.new sums.new }
{
    run_schedule(table, heard, schedule, sums)
}
