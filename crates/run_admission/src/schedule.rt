// The pairs of a schedule: the first that does not listen, and the rounds that those before it close.
ghost use Rattle.std.specs.Prelude.{◌≡◌};
ghost use Rattle.run_admission.specs.ScheduleWalk.{number_in, Walked};

use pairs::{count_pairs, steady_slot_to};
use table_facts::{SLOTS, VERTICES};
use tally::Rounds;

// Listening pairs have the numbers below this one.
const NUMBERS: usize = 1024;

// The number of a pair that listens, by the first slot of v that leads to u.
fn number_of(nexts: &[[u8; 16]; 64], v: u8, u: u8) -> Option<usize>
    ensures { result ≡ number_in nexts.now v u }
{
    let row = v as usize;
    if VERTICES <= row {
        return None;
    }
    if VERTICES <= u as usize {
        return None;
    }
    let slot = steady_slot_to(&nexts[row], u);
    if slot == SLOTS {
        return None;
    }
    Some(SLOTS * row + slot)
}

// Walks over the pairs: the rounds that they close, or the first that does not listen.
pub(crate) fn walk_schedule(nexts: &[[u8; 16]; 64], schedule: &[u8]) -> Result<u16, usize>
    ensures { Walked nexts.now schedule.now result }
{
    let all = count_pairs(nexts);
    let mut stamps = [0u16; NUMBERS];
    let mut rounds = Rounds {
        closed: 0,
        missing: all,
        all,
    };
    for (i, pair) in schedule.chunks_exact(2).enumerate() {
        let Some(number) = number_of(nexts, pair[0], pair[1]) else {
            return Err(i);
        };
        rounds.activate(&mut stamps, number);
    }
    Ok(rounds.closed)
}
