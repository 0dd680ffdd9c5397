// What the carriers' collector calls from C. A static library exports the functions of its own crate alone, so each entry
// is here, and passes on to its body's crate.
#![tactic(auto)]

ghost use Rattle.check_entry.specs.CheckCalled.{CheckCalled};
ghost use Rattle.step_entry.specs.StepCalled.{StepCalled};
ghost use Rattle.run_entry.specs.RunCalled.{RunCalled};

use check_entry::check_for_c;
use run_entry::run_for_c;
use step_entry::step_for_c;

// Checks a table; on 0 the rows, the ring and the numbers are filled, otherwise no byte changes.
#[unsafe(no_mangle)]
pub extern "C" fn reefsplice_check(
    table: &[u8],
    rows: &mut [u8],
    ring: &mut [u8],
    numbers: &mut [u8],
) -> u64
    ensures { CheckCalled table.now rows.old ring.old numbers.old
        result rows.new ring.new numbers.new }
{
    check_for_c(table, rows, ring, numbers)
}

// Activates one pair; on 0 the speaker's choice is stored and the numbers hold the movement, otherwise no byte changes.
#[unsafe(no_mangle)]
pub extern "C" fn reefsplice_step(
    table: &[u8],
    heard: &mut [u8],
    listener: u8,
    speaker: u8,
    numbers: &mut [u8],
) -> u64
    ensures { StepCalled table.now heard.old
        (record { listener = listener; speaker = speaker }) numbers.old
        result heard.new numbers.new }
{
    step_for_c(table, heard, listener, speaker, numbers)
}

// Works a schedule; on 0 the state is the one after it and the sums and numbers are filled, otherwise no byte changes.
#[unsafe(no_mangle)]
pub extern "C" fn reefsplice_run(
    table: &[u8],
    heard: &mut [u8],
    schedule: &[u8],
    sums: &mut [u8],
    numbers: &mut [u8],
) -> u64
    ensures { RunCalled table.now heard.old schedule.now
        sums.old numbers.old
        result heard.new sums.new numbers.new }
{
    run_for_c(table, heard, schedule, sums, numbers)
}
