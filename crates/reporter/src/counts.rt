// Who is settled or stuck, by the marks, and how many are.
ghost use Rattle.std.specs.Prelude.{◌≡◌};
ghost use Rattle.reporter.specs.Showing.{count_between, is_between};

use slices::{is_outside, value_or};
use table_facts::VERTICES;

// The mark of an absent vertex.
const ABSENT: u8 = 254;

// The mark of a stuck vertex.
pub(crate) const STUCK: u8 = 255;

// Whether v is not vertex 0 and has a mark from low to high.
#[tactic(auto, unfolding(crate::specs::Showing::is_between))]
pub(crate) fn is_between(low: u8, high: u8, marks: &[u8; VERTICES], v: usize) -> bool
    ensures { result ≡ is_between low high marks.now v }
{
    v != 0 && !is_outside(low, high, value_or(marks, v, ABSENT))
}

// How many vertices but 0 have marks from low to high.
pub(crate) fn count_between(low: u8, high: u8, marks: &[u8; VERTICES]) -> u8
    ensures { result ≡ count_between low high marks.now }
{
    let mut count = 0;
    for v in 1..VERTICES {
        if !is_outside(low, high, marks[v]) {
            count += 1;
        }
    }
    count
}
