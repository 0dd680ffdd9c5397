// The refusals 4 to 11 of a record, a method for each rule, and the first that it breaks.
ghost use Rattle.std.specs.Prelude.{◌≡◌, ◌+◌, ◌≤◌, ◌<◌};
ghost use Rattle.rules.specs.Table.{records, record_at, hops_at};
ghost use Rattle.rules.specs.Refusals.{hops_bad, vertex_bad, filler_bad, twice_bad, last_bad, owner_bad, rank_due, rank_bad, path_bad, fault};
ghost use Rattle.laws.specs.TableLaws.{Orderly};
ghost use Rattle.reader.specs.Front.{front};
ghost use Rattle.reader.specs.Fault.{fault_in};

use answer::Rule;
use record_fields::{RECORD_BYTES, hops_at, owner_at, path_at, rank_at, record_at};
use slices::{any_outside, has_twice, is_outside, same_parts, value_or};

const MOST_HOPS: u8 = 12;

const LAST_VERTEX: u8 = 63;

const MOST_RANK: u8 = 16;

// What stands behind a path.
const FILLER: u8 = 255;

// The last byte of a record, which is 0.
const LAST_BYTE: usize = 15;

// A record of a table, by its number.
#[derive(Clone, Copy)]
pub(crate) struct Entry<'a> {
    pub(crate) table: &'a [u8],
    pub(crate) i: usize,
    ghost there: { i < records table.now },
}

impl<'a> Entry<'a> {
    // Refusal 4.
    fn hops_bad(self) -> bool
        ensures { result ≡ hops_bad (record_at self.entry.table.now self.entry.i) }
    {
        is_outside(1, MOST_HOPS, hops_at(self.table, self.i))
    }

    // Refusal 5.
    fn vertex_bad(self) -> bool
        ensures { result ≡ vertex_bad (record_at self.entry.table.now self.entry.i) }
    {
        any_outside(0, LAST_VERTEX, path_at(self.table, self.i))
    }

    // Refusal 6: the unused bytes stand from the path's end to byte 14; `any_outside` and `is_outside`, since
    // `filler_bad` says it so.
    fn filler_bad(self) -> bool
        requires { hops_at self.table.now self.i ≤ 12 }
        ensures { result ≡ filler_bad (record_at self.entry.table.now self.entry.i) }
    {
        let r = record_at(self.table, self.i);
        let from = usize::from(hops_at(self.table, self.i)) + 3;
        if any_outside(FILLER, FILLER, &r[from..LAST_BYTE]) {
            return true;
        }
        is_outside(0, 0, r[LAST_BYTE])
    }

    // Refusal 7.
    fn twice_bad(self) -> bool
        ensures { result ≡ twice_bad (record_at self.entry.table.now self.entry.i) }
    {
        has_twice(path_at(self.table, self.i))
    }

    // Refusal 8.
    fn last_bad(self) -> bool
        ensures { result ≡ last_bad (record_at self.entry.table.now self.entry.i) }
    {
        let last = usize::from(hops_at(self.table, self.i)) + 2;
        is_outside(0, 0, value_or(record_at(self.table, self.i), last, 0))
    }

    // Refusal 9.
    fn owner_bad(self) -> bool
        ensures { result ≡ owner_bad self.entry.table.now self.entry.i }
    {
        if self.i == 0 {
            return false;
        }
        owner_at(self.table, self.i) < owner_at(self.table, self.i - 1)
    }

    // The rank that the record has to bear.
    fn rank_due(self) -> u16
        ensures { result ≡ rank_due self.entry.table.now self.entry.i }
    {
        if self.i == 0 {
            return 1;
        }
        if owner_at(self.table, self.i) != owner_at(self.table, self.i - 1) {
            return 1;
        }
        u16::from(rank_at(self.table, self.i - 1)) + 1
    }

    // Refusal 10.
    fn rank_bad(self) -> bool
        ensures { result ≡ rank_bad self.entry.table.now self.entry.i }
    {
        let rank = rank_at(self.table, self.i);
        if MOST_RANK < rank {
            return true;
        }
        u16::from(rank) != self.rank_due()
    }

    // The record as a table of its own: its 16 bytes are known to be there, so that the compiler drops the tests for
    // each field.
    fn alone(self) -> Entry<'a>
        ensures bytes { result.table.now ≡ record_at self.entry.table.now self.entry.i }
        ensures first { result.i ≡ 0 }
        ensures record { record_at result.table.now result.i ≡ record_at self.entry.table.now self.entry.i }
    {
        let at = self.i * RECORD_BYTES;
        let end = at + RECORD_BYTES;
        Entry {
            table: &self.table[at..end],
            i: 0,
        }
    }

    // The first bytes of the record behind its rank: hops and path, where there are hops + 2 of them.
    fn front(self, count: usize) -> &'a [u8]
        requires { count ≤ 15 }
        ensures { result.now ≡ front self.entry.table.now self.entry.i count }
    {
        let at = self.i * RECORD_BYTES + 1;
        let end = at + count;
        &self.table[at..end]
    }

    // Refusal 11: only the records of this owner's block can have the same path, and the rank tells where it starts.
    fn path_bad(self) -> bool
        requires { (hops_at self.table.now self.i ≤ 12) × Orderly self.table.now (self.i + 1) }
        ensures { result ≡ path_bad self.entry.table.now self.entry.i }
    {
        let alone = self.alone();
        let count = usize::from(hops_at(alone.table, alone.i)) + 2;
        let path = self.front(count);
        let first = self.i + 1 - usize::from(rank_at(alone.table, alone.i));
        for j in first..self.i {
            let other = Entry {
                table: self.table,
                i: j,
            };
            if same_parts(other.front(count), path) {
                return true;
            }
        }
        false
    }

    // The first rule that the record breaks, if it breaks one: a test for each, since each asks something of its own.
    #[tactic(auto, using(crate::specs::FaultLaws::fault_by_rules))]
    pub(crate) fn fault(self) -> Result<(), Rule>
        requires { Orderly self.table.now self.i }
        ensures { fault_in result ≡ fault self.entry.table.now self.entry.i }
    {
        let alone = self.alone();
        if alone.hops_bad() {
            return Err(Rule::Hops);
        }
        if alone.vertex_bad() {
            return Err(Rule::Vertex);
        }
        if alone.filler_bad() {
            return Err(Rule::Filler);
        }
        if alone.twice_bad() {
            return Err(Rule::Twice);
        }
        if alone.last_bad() {
            return Err(Rule::Last);
        }
        if self.owner_bad() {
            return Err(Rule::Owner);
        }
        if self.rank_bad() {
            return Err(Rule::Rank);
        }
        if self.path_bad() {
            return Err(Rule::SamePath);
        }
        Ok(())
    }
}
