// The run over a schedule: all is judged before anything is stored.
#![tactic(auto)]

mod pair;
mod sums;
mod work;

ghost use Rattle.runner.specs.Ran.{Ran};

use crate::work::work;
use answer::{Refusal, RunAnswer};
use run_admission::admit_run;

// Works a schedule, and answers what it counted and each vertex's sum; a refused call changes no byte.
pub fn run_schedule(
    table: &[u8],
    heard: &mut [u8],
    schedule: &[u8],
    sums: &mut [i32],
) -> Result<RunAnswer, Refusal>
    ensures { Ran table.now heard.old schedule.now sums.old
        result heard.new sums.new }
{
    let admitted = admit_run(table, heard, schedule, sums)?;
    Ok(work(table, &admitted, heard, schedule, sums))
}
