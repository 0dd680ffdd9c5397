// The run over an accepted schedule: what serves every step is found once, then pair after pair is worked.
ghost use Rattle.std.specs.Prelude.{◌≡◌, length};
ghost use Rattle.rules.specs.Table.{paths_of};
ghost use Rattle.rules.specs.Run.{pairs_in, run};
ghost use Rattle.run_admission.specs.RunAdmitted.{Ready};
ghost use Rattle.runner.specs.Ran.{Followed};

use crate::pair::hear_pair;
use answer::RunAnswer;
use choice::choice_bytes;
use rests::asked_bytes;
use run_admission::Admitted;
use stepper::Pair;
use tally::Counts;

// Works a schedule that listens throughout, and answers what it counted; the sums begin at 0.
pub(crate) fn work(
    table: &[u8],
    admitted: &Admitted,
    heard: &mut [u8],
    schedule: &[u8],
    sums: &mut [i32],
) -> RunAnswer
    requires { Ready table.now heard.old schedule.now admitted.now.nexts admitted.now.rounds × (length sums.old ≡ 64) }
    ensures { Followed (run (paths_of table.now) heard.old (pairs_in schedule.now))
        result heard.new sums.new }
{
    let asked = asked_bytes(table);
    let mut choices = choice_bytes(&admitted.nexts, &asked, heard);
    let mut counts = Counts::default();
    sums.fill(0);
    for (i, bytes) in schedule.chunks_exact(2).enumerate() {
        let pair = Pair {
            listener: bytes[0],
            speaker: bytes[1],
        };
        counts = hear_pair(
            &admitted.nexts,
            &asked,
            heard,
            &mut choices,
            sums,
            counts,
            pair,
            i as u32 + 1,
        );
    }
    RunAnswer {
        steps: (schedule.len() / 2) as u32,
        ups: counts.ups,
        downs: counts.downs,
        last: counts.last,
        rounds: u32::from(admitted.rounds),
    }
}
