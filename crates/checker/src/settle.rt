// The stages, from the marks before the first to the marks and records after the last.
ghost use Rattle.std.specs.Prelude.{◌≡◌, false, get_or};
ghost use Rattle.lists.specs.Fill.{tabulate};
ghost use Rattle.checker.specs.AfterStages.{start_mark, Ended};

use judge::{ABSENT, Standing, WAITING, stage};
use reader::Table;
use std::array;
use table_facts::{NO_RECORD, present_in, slots_of};

// The mark of vertex 0: it is settled at stage 0.
const ORIGIN: u8 = 0;

// The marks and records after the last stage, and how many stages counted.
#[derive(Clone, Copy)]
pub(crate) struct Settling {
    pub(crate) last: Standing,
    pub(crate) stages: u8,
}

// The mark of a vertex before the first stage.
#[tactic(auto, unfolding(crate::specs::AfterStages::start_mark))]
fn start_mark(v: usize, named: bool) -> u8
    ensures { result ≡ start_mark (λ u. named) v }
{
    if v == 0 {
        ORIGIN
    } else if named {
        WAITING
    } else {
        ABSENT
    }
}

// The marks before the first stage.
fn start_marks(present: [bool; 64]) -> [u8; 64]
    ensures { result ≡ tabulate (start_mark (λ v. get_or present v false)) 64 }
{
    array::from_fn(|v| start_mark(v, present[v]))
}

// Runs stages until one in which nobody enters, which is not counted; who waits then shows its best compatible path. It
// is a plain loop, since a `for` over the stages would want an answer for after the last number, which is never reached.
pub(crate) fn settle(table: Table<'_>) -> Settling
    ensures { Ended table.entry.bytes.now result.last.marks result.last.shown result.stages }
{
    let slots = slots_of(table.bytes);
    let mut now = Standing {
        marks: start_marks(present_in(table.bytes)),
        shown: [NO_RECORD; 64],
    };
    let mut stages = 0;
    loop {
        let next = stage(table.bytes, slots, now, stages + 1);
        if now.marks == next.marks {
            return Settling { last: next, stages };
        }
        now = next;
        stages += 1;
    }
}
