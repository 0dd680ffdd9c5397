// Who is stuck, whom each stuck vertex follows, and the ring among them.
ghost use Rattle.std.specs.Prelude.{◌≡◌, length};
ghost use Rattle.ring.specs.Ring.{Ringed};
ghost use Rattle.reporter.specs.Showing.{next_numbers, shown_next, stuck_marks};

use crate::counts::{STUCK, is_between};
use record_fields::next_at;
use ring::find_ring;
use slices::value_or;
use std::array;
use table_facts::{NO_RECORD, VERTICES};

// Which vertices are stuck; 0 never is.
fn stuck_in(marks: &[u8; VERTICES]) -> [bool; VERTICES]
    ensures { result ≡ stuck_marks marks.now }
{
    array::from_fn(|v| is_between(STUCK, STUCK, marks, v))
}

// Whom v follows where it is stuck: the next hop of the record that it shows; 0 for any other.
#[tactic(auto, unfolding(crate::specs::Showing::shown_next, crate::specs::Showing::next_from))]
fn next_of(table: &[u8], stuck: &[bool; VERTICES], shown: &[u16; VERTICES], v: usize) -> u8
    ensures { result ≡ shown_next table.now stuck.now shown.now v }
{
    if value_or(stuck, v, false) {
        let i = value_or(shown, v, NO_RECORD);
        next_at(table, usize::from(i))
    } else {
        0
    }
}

// Whom each stuck vertex follows.
fn next_in(table: &[u8], stuck: &[bool; VERTICES], shown: &[u16; VERTICES]) -> [u8; VERTICES]
    ensures { result ≡ next_numbers table.now stuck.now shown.now }
{
    array::from_fn(|v| next_of(table, stuck, shown, v))
}

// Writes the ring, then 255, and answers its length.
pub(crate) fn write_ring(
    table: &[u8],
    marks: &[u8; VERTICES],
    shown: &[u16; VERTICES],
    ring: &mut [u8],
) -> u8
    ensures { Ringed (stuck_marks marks.now)
        (next_numbers table.now (stuck_marks marks.now) shown.now)
        (length ring.old) result ring.new }
{
    let stuck = stuck_in(marks);
    let next = next_in(table, &stuck, shown);
    find_ring(&stuck, &next, ring)
}
