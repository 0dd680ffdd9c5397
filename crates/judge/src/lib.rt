// The compatibility judgement and one stage, for any bytes.
#![tactic(auto)]

ghost use Rattle.std.specs.Prelude.{◌≡◌};
ghost use Rattle.lists.specs.Search.{same};
ghost use Rattle.rules.specs.Greedy.{compatible};
ghost use Rattle.judge.specs.Standing.{is_in, held_path, settled_by, first_compatible, enters_by, is_judged};
ghost use Rattle.judge.specs.Staged.{Staged};

use record_fields::{next_at, path_at};
use slices::{same_parts, value_or};
use table_facts::SLOTS;
pub use table_facts::{NO_RECORD, VERTICES};

// A mark below this one is the stage at which the vertex settled.
pub const ABSENT: u8 = 254;

// The mark of a present vertex that is not settled.
pub const WAITING: u8 = 255;

// A mark for each vertex (its stage, 254 absent, 255 waiting) and the record of the path that it holds or waits for,
// 65,535 for none. Two arrays of numbers, since the report is made for any marks and records (docs/DECISIONS.md).
#[derive(Clone, Copy)]
pub struct Standing {
    pub marks: [u8; VERTICES],
    pub shown: [u16; VERTICES],
}

impl Standing {
    // Whether a vertex is settled: its mark is a stage.
    #[tactic(auto, unfolding(crate::specs::Standing::is_in))]
    fn is_settled(&self, v: u8) -> bool
        ensures { result ≡ is_in self.now.marks v }
    {
        value_or(&self.marks, usize::from(v), WAITING) < ABSENT
    }

    // Whether a vertex is judged in this stage: it is present and unsettled.
    #[tactic(auto, unfolding(crate::specs::Standing::is_judged))]
    fn is_judged(&self, v: usize) -> bool
        ensures { result ≡ is_judged self.now.marks v }
    {
        value_or(&self.marks, v, ABSENT) == WAITING
    }

    // Whether the rest of a path equals the path that the settled vertex v holds; vertex 0 has (0), which no record is.
    fn agrees(&self, table: &[u8], v: u8, rest: &[u8]) -> bool
        ensures { result ≡ same rest.now (held_path table.now self.now.shown v) }
    {
        if v == 0 {
            return same_parts(rest, b"\0");
        }
        let i = value_or(&self.shown, usize::from(v), NO_RECORD);
        same_parts(rest, path_at(table, usize::from(i)))
    }

    // Whether a path is compatible: only its first settled vertex decides. Here and below a `for` that ends early and
    // no chain, which cost the check of a table of short paths up to a half more instructions (docs/DESIGN-PASS.md).
    fn is_compatible(&self, table: &[u8], path: &[u8]) -> bool
        ensures { result ≡ compatible (settled_by table.now self.now.marks self.now.shown) path.now }
    {
        for (hop, v) in path.iter().enumerate() {
            if self.is_settled(*v) {
                return self.agrees(table, *v, &path[hop..]);
            }
        }
        false
    }

    // The record of the best compatible path among a vertex's slots; the first empty slot ends the search.
    fn best_record(&self, table: &[u8], slots: &[u16; SLOTS]) -> Option<u16>
        ensures { result ≡ first_compatible table.now self.now.marks self.now.shown slots.now }
    {
        for i in slots {
            if *i == NO_RECORD {
                break;
            }
            if self.is_compatible(table, path_at(table, usize::from(*i))) {
                return Some(*i);
            }
        }
        None
    }

    // Whether a vertex with that best compatible path enters: it has none, or its next hop is settled.
    #[tactic(auto, unfolding(crate::specs::Standing::enters_by))]
    fn enters(&self, table: &[u8], best: Option<u16>) -> bool
        ensures { result ≡ enters_by table.now self.now.marks best }
    {
        match best {
            None => true,
            Some(i) => self.is_settled(next_at(table, usize::from(i))),
        }
    }
}

// One stage: all are judged against the standing before it, and those that qualify enter together.
pub fn stage(
    table: &[u8],
    slots: [[u16; SLOTS]; VERTICES],
    before: Standing,
    number: u8,
) -> Standing
    ensures { Staged table.now slots before number result }
{
    let mut after = before;
    for (v, best_first) in slots.iter().enumerate() {
        if before.is_judged(v) {
            let best = before.best_record(table, best_first);
            after.shown[v] = best.unwrap_or(NO_RECORD);
            if before.enters(table, best) {
                after.marks[v] = number;
            }
        }
    }
    after
}
