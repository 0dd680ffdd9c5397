// The rows that a mark and a record number for each vertex show, for any bytes; each vertex writes its own 16 bytes.
#![tactic(auto)]

ghost use Rattle.std.specs.Prelude.{◌≡◌, ◌≤◌, pred, length};
ghost use Rattle.lists.specs.Fill.{blocks};
ghost use Rattle.rules.specs.Report.{row_bytes};
ghost use Rattle.report_rows.specs.ShownRows.{shown_row, shown_rows};

use record_fields::{path_at, rank_at};
use slices::fill_padded;
use table_facts::VERTICES;

// The length of all rows: 16 bytes for each of 64 vertices.
pub const ROWS: usize = 1024;

// How many bytes a row has.
const ROW: usize = 16;

// The hops of a path, 0 where there is none.
fn hops_of(path: &[u8]) -> u8
    requires { length path.now ≤ 256 }
    ensures { result ≡ pred (length path.now) }
{
    path.len().saturating_sub(1) as u8
}

// Writes a row to the part of the rows that is its vertex's.
fn write_row(part: &mut [u8], mark: u8, rank: u8, path: &[u8])
    requires { (length part.old ≡ 16) × (length path.now ≤ 256) }
    ensures { part.new ≡ row_bytes mark rank path.now }
{
    part[0] = mark;
    part[1] = rank;
    part[2] = hops_of(path);
    fill_padded(&mut part[3..], path);
}

// Writes all rows: that of vertex 0, whose path is no record, then those that show their records. The part of a vertex is
// lent on from 16 times its number, a named form (docs/DECISIONS.md).
fn fill_rows(table: &[u8], marks: &[u8; VERTICES], shown: &[u16; VERTICES], rows: &mut [u8])
    requires { length rows.old ≡ 1024 }
    ensures { rows.new ≡ blocks (shown_row table.now marks.now shown.now) 64 }
{
    write_row(&mut rows[..ROW], 0, 0, b"\0");
    for v in 1..VERTICES {
        let at = v * ROW;
        let end = at + ROW;
        let i = usize::from(shown[v]);
        write_row(
            &mut rows[at..end],
            marks[v],
            rank_at(table, i),
            path_at(table, i),
        );
    }
}

// Writes the rows of 64 marks and records where there is room for just them; other bytes stay as they are.
pub fn write_rows(table: &[u8], marks: &[u8], shown: &[u16], rows: &mut [u8])
    ensures { rows.new ≡ shown_rows table.now marks.now shown.now rows.old }
{
    if rows.len() != ROWS {
        return;
    }
    let Some(marks) = marks.as_array() else {
        return;
    };
    let Some(shown) = shown.as_array() else {
        return;
    };
    fill_rows(table, marks, shown, rows);
}
