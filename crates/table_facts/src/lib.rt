// What the check and the machine need of a table, for any bytes: the longest hops, who is present, the slots.
#![tactic(auto)]

ghost use Rattle.std.specs.Prelude.{◌≡◌, min};
ghost use Rattle.lists.specs.Fill.{tabulate};
ghost use Rattle.rules.specs.Table.{records, longest, present, slots_of};

use record_fields::{RECORD_BYTES, hops_at, owner_at, path_at};
use slices::mark_all;

pub const VERTICES: usize = 64;

// Pairs of a listener and a speaker.
pub const PAIRS: usize = 4096;

const MOST_RECORDS: usize = 1008;

// How many records of a vertex have a slot.
pub const SLOTS: usize = 16;

// What an empty slot holds: a number as the others, since 16 record numbers a vertex are a named form (docs/DECISIONS.md).
pub const NO_RECORD: u16 = 65535;

// The hops of the longest path, 0 where there is no record.
pub fn longest_hops(table: &[u8]) -> u8
    ensures { result ≡ longest table.now }
{
    let count = table.len() / RECORD_BYTES;
    let mut most = 0;
    for i in 0..count {
        most = most.max(hops_at(table, i));
    }
    most
}

// Which vertices are present.
pub fn present_in(table: &[u8]) -> [bool; VERTICES]
    ensures { result ≡ tabulate (present table.now) 64 }
{
    let count = table.len() / RECORD_BYTES;
    let mut named = [false; VERTICES];
    named[0] = true;
    for i in 0..count {
        mark_all(&mut named, path_at(table, i));
    }
    named
}

// The best-first slots of the first 1,008 records: 16 record numbers for each vertex, built in one pass. How many a vertex
// has stands beside them and not with them, since `slots_of` answers the slots alone.
pub fn slots_of(table: &[u8]) -> [[u16; SLOTS]; VERTICES]
    ensures { result ≡ slots_of table.now (min (records table.now) 1008) }
{
    let count = (table.len() / RECORD_BYTES).min(MOST_RECORDS);
    let mut slots = [[NO_RECORD; SLOTS]; VERTICES];
    let mut used = [0usize; VERTICES];
    for i in 0..count {
        let v = owner_at(table, i) as usize;
        if VERTICES <= v {
            continue;
        }
        let k = used[v];
        if SLOTS <= k {
            continue;
        }
        slots[v][k] = i as u16;
        used[v] = k + 1;
    }
    slots
}
