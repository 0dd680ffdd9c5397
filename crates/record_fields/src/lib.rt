// The fields of a record, for any bytes and any record number: past the table's end a record is empty, and its fields
// are 0. A table and a number, and no struct of both, since any number will do here; the reader's `Entry` is one that is
// there.
#![tactic(auto)]

ghost use Rattle.std.specs.Prelude.{◌≡◌};
ghost use Rattle.rules.specs.Table.{record_at, rank_at, hops_at, path_at, owner_at, next_hop};

use slices::value_or;

pub const RECORD_BYTES: usize = 16;

// Where a record has its rank.
const RANK: usize = 0;

// Where it has its hops.
const HOPS: usize = 1;

// Where its path begins, with its owner.
const PATH: usize = 2;

// The 16 bytes of record i, or what the table still has of them.
#[tactic(auto, using(laws::specs::TableLaws::record_past, laws::specs::TableLaws::record_part))]
pub fn record_at(table: &[u8], i: usize) -> &[u8]
    ensures { result.now ≡ record_at table.now i }
{
    let length = table.len();
    if length / RECORD_BYTES < i {
        return &table[..0];
    }
    let at = i * RECORD_BYTES;
    let end = (at + RECORD_BYTES).min(length);
    &table[at..end]
}

#[tactic(auto, unfolding(rules::specs::Table::rank_of))]
pub fn rank_at(table: &[u8], i: usize) -> u8
    ensures { result ≡ rank_at table.now i }
{
    value_or(record_at(table, i), RANK, 0)
}

#[tactic(auto, unfolding(rules::specs::Table::hops_of))]
pub fn hops_at(table: &[u8], i: usize) -> u8
    ensures { result ≡ hops_at table.now i }
{
    value_or(record_at(table, i), HOPS, 0)
}

#[tactic(auto, unfolding(rules::specs::Table::owner_of))]
pub fn owner_at(table: &[u8], i: usize) -> u8
    ensures { result ≡ owner_at table.now i }
{
    value_or(record_at(table, i), PATH, 0)
}

// The path of record i, whatever its hops say: it ends with the record at the latest.
#[tactic(auto, using(laws::specs::TableLaws::path_short, laws::specs::TableLaws::path_part))]
pub fn path_at(table: &[u8], i: usize) -> &[u8]
    ensures { result.now ≡ path_at table.now i }
{
    let r = record_at(table, i);
    let length = r.len();
    if length < PATH {
        return &r[..0];
    }
    let end = (hops_at(table, i) as usize + 3).min(length);
    &r[PATH..end]
}

// The second vertex of record i, 0 where there is none.
#[tactic(auto, unfolding(rules::specs::Table::next_hop))]
pub fn next_at(table: &[u8], i: usize) -> u8
    ensures { result ≡ next_hop (path_at table.now i) }
{
    value_or(path_at(table, i), 1, 0)
}
