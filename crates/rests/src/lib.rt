// What a vertex has to hear for each of its paths, for any bytes: the byte of the path's rest among the next hop's paths.
#![tactic(auto)]

ghost use Rattle.std.specs.Prelude.{◌≡◌};
ghost use Rattle.lists.specs.Fill.{tabulate};
ghost use Rattle.rules.specs.Table.{rest};
ghost use Rattle.rules.specs.Report.{place_in};
ghost use Rattle.pairs.specs.SlotPaths.{slot_paths, held_in, slotted};
ghost use Rattle.rests.specs.Rests.{asked_for, asked_row};

use record_fields::path_at;
use slices::{same_parts, value_or};
use table_facts::{NO_RECORD, slots_of};

// The place of a path among those of a row of slots, from 1; 0 where it is not there, as `place_in` of the rules has it and
// a heard state holds it.
fn place_of(table: &[u8], path: &[u8], row: &[u16; 16]) -> u8
    ensures { result ≡ place_in path.now (slot_paths table.now row.now) }
{
    for (k, i) in row.iter().enumerate() {
        if *i == NO_RECORD {
            break;
        }
        if same_parts(path, path_at(table, usize::from(*i))) {
            return k as u8 + 1;
        }
    }
    0
}

// A path without its first vertex.
fn rest_of(path: &[u8]) -> &[u8]
    ensures { result.now ≡ rest path.now }
{
    match path {
        [_, rest @ ..] => rest,
        [] => &[],
    }
}

// The byte that has to be heard from the next hop of a path, that of the path's rest: the destination speaks of (0) alone.
fn asked_byte(table: &[u8], slots: &[[u16; 16]; 64], path: &[u8]) -> u8
    ensures { result ≡ asked_for (held_in table.now slots.now) path.now }
{
    let rest = rest_of(path);
    let u = usize::from(value_or(path, 1, 0));
    if u == 0 {
        return u8::from(same_parts(rest, b"\0"));
    }
    let Some(row) = slots.get(u) else {
        return 0;
    };
    place_of(table, rest, row)
}

// What has to be heard for the path of each slot of a row; 0 where the rest is no path of the next hop, and in empty slots.
pub fn asked_row(table: &[u8], slots: &[[u16; 16]; 64], row: [u16; 16]) -> [u8; 16]
    ensures { result ≡ asked_row (held_in table.now slots.now) (slot_paths table.now row) }
{
    let mut asked = [0; 16];
    for (k, i) in row.iter().enumerate() {
        if *i == NO_RECORD {
            break;
        }
        asked[k] = asked_byte(table, slots, path_at(table, usize::from(*i)));
    }
    asked
}

// What has to be heard for all paths of a table, by vertex and slot.
pub fn asked_bytes(table: &[u8]) -> [[u8; 16]; 64]
    ensures { result ≡ tabulate (λ v. asked_row (slotted table.now) (slotted table.now v)) 64 }
{
    let slots = slots_of(table);
    let mut asked = [[0; 16]; 64];
    for (v, row) in slots.iter().enumerate() {
        asked[v] = asked_row(table, &slots, *row);
    }
    asked
}
