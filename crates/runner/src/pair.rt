// One pair of a run: where what the speaker says is there already nothing changes, otherwise the listener takes it in.
ghost use Rattle.stepper.specs.Working.{ruled};
ghost use Rattle.runner.specs.Taking.{Takes, TakenIn};

use crate::sums::add;
use choice::Slots;
use stepper::{Pair, hear};
use tally::{Counts, movement};

// Works a pair, the step with that number from 1: what the speaker says is stored, the listener chooses, and its movement is
// added to its sum and counted. `nexts` and `asked` are two tables, since the schedule is judged by the first before the
// second is made.
pub(crate) fn hear_pair(
    nexts: &[[u8; 16]; 64],
    asked: &[[u8; 16]; 64],
    heard: &mut [u8],
    choices: &mut [u8; 64],
    sums: &mut [i32],
    counts: Counts,
    pair: Pair,
    number: u32,
) -> Counts
    requires { Takes (ruled pair) heard.old choices.old sums.old }
    ensures { TakenIn nexts.now asked.now (ruled pair) number
        heard.old choices.old sums.old counts.ups counts.downs counts.last
        heard.new choices.new sums.new result.ups result.downs result.last }
{
    let v = pair.listener as usize;
    let said = choices[pair.speaker as usize];
    if heard[pair.offset()] == said {
        return counts;
    }
    let old = choices[v];
    let slots = Slots {
        nexts: &nexts[v],
        asked: &asked[v],
    };
    let new = hear(slots, heard, pair, said);
    choices[v] = new;
    add(sums, v, movement(old, new));
    counts.counted(number, old, new)
}
