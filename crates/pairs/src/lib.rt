// The listening pairs by slot, for any bytes: a pair of v and u is known by the first slot of v whose path leads to u.
#![tactic(auto)]

ghost use Rattle.std.specs.Prelude.{◌≡◌};
ghost use Rattle.lists.specs.Search.{count_below};
ghost use Rattle.lists.specs.Fill.{tabulate};
ghost use Rattle.pairs.specs.SlotPaths.{slot_paths, held_in, slotted};
ghost use Rattle.pairs.specs.NextHops.{next_row, slot_to, leads_in, hears_from, listens_in};

use record_fields::next_at;
use table_facts::{NO_RECORD, SLOTS, slots_of};

// The next hop of an empty slot: a byte as the others, since `next_row` has 255 there and a row is 16 bytes.
pub const NOBODY: u8 = 255;
// The number of vertices.
const VERTICES: u8 = 64;

// The next hop of each slot's path, 255 where the slot is empty.
fn next_row(table: &[u8], row: [u16; 16]) -> [u8; 16]
    ensures { result ≡ next_row (slot_paths table.now row) }
{
    let mut nexts = [NOBODY; 16];
    for (k, i) in row.iter().enumerate() {
        if *i == NO_RECORD {
            return nexts;
        }
        nexts[k] = next_at(table, *i as usize);
    }
    nexts
}

// The same for all vertices' slots.
pub fn next_rows(table: &[u8], slots: &[[u16; 16]; 64]) -> [[u8; 16]; 64]
    ensures { result ≡ tabulate (λ v. next_row (held_in table.now slots.now v)) 64 }
{
    let mut nexts = [[NOBODY; 16]; 64];
    for (v, row) in slots.iter().enumerate() {
        nexts[v] = next_row(table, *row);
    }
    nexts
}

// The next hops of all paths of a table, by vertex and slot.
pub fn next_hops(table: &[u8]) -> [[u8; 16]; 64]
    ensures { result ≡ tabulate (λ v. next_row (slotted table.now v)) 64 }
{
    let slots = slots_of(table);
    next_rows(table, &slots)
}

// The first slot that leads to u, 16 where none does: a number, one past the last, as `steady_slot_to` finds it.
#[tactic(auto, using(lists::specs::SearchLaws::search_next, crate::specs::NextHopLaws::slot_hit, crate::specs::NextHopLaws::slot_end))]
pub fn slot_to(nexts: &[u8; 16], u: u8) -> usize
    ensures { result ≡ slot_to nexts.now u }
{
    for (k, next) in nexts.iter().enumerate() {
        if *next == u {
            return k;
        }
    }
    SLOTS
}

// The same slot, found without a branch on the bytes, so neither by `position` nor as an `Option`: in the inner loop of a
// run, where a speaker cannot be foretold, to look at all 16 takes less time.
#[tactic(auto, using(crate::specs::NextHopLaws::from_none, crate::specs::NextHopLaws::from_hit, crate::specs::NextHopLaws::from_miss))]
pub fn steady_slot_to(nexts: &[u8; 16], u: u8) -> usize
    ensures { result ≡ slot_to nexts.now u }
{
    let mut slot = SLOTS;
    for k in (0..SLOTS).rev() {
        if nexts[k] == u {
            slot = k;
        }
    }
    slot
}

// Whether a slot leads to the vertex u; what is no vertex is never led to.
#[tactic(auto, using(crate::specs::NextHopLaws::leads_vertex, crate::specs::NextHopLaws::leads_other))]
fn leads_to(nexts: &[u8; 16], u: u8) -> bool
    ensures { result ≡ leads_in nexts.now u }
{
    u < VERTICES && slot_to(nexts, u) < SLOTS
}

// How many vertices the slots lead to: those that no slot before leads to are counted.
fn count_row(nexts: &[u8; 16]) -> u16
    ensures { result ≡ count_below (leads_in nexts.now) 64 }
{
    let mut count = 0;
    for (k, u) in nexts.iter().enumerate() {
        if *u < VERTICES && k <= slot_to(nexts, *u) {
            count += 1;
        }
    }
    count
}

// Whether v listens to u; what is no vertex never does.
#[tactic(auto, using(crate::specs::NextHopLaws::hears_vertex, crate::specs::NextHopLaws::hears_other))]
pub fn is_listening(nexts: &[[u8; 16]; 64], v: u8, u: u8) -> bool
    ensures { result ≡ hears_from nexts.now v u }
{
    v < VERTICES && leads_to(&nexts[v as usize], u)
}

// How many pairs listen.
pub fn count_pairs(nexts: &[[u8; 16]; 64]) -> u16
    ensures { result ≡ count_below (listens_in nexts.now) 4096 }
{
    let mut count = 0;
    for row in nexts {
        count += count_row(row);
    }
    count
}
