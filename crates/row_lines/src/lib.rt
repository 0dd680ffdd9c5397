// The printed lines of the rows, for any bytes: a small function for each part of a line.
#![tactic(auto)]

ghost use Rattle.std.specs.Prelude.{◌≡◌};
ghost use Rattle.rules.specs.Text.{stage_words, row_path, row_line, row_lines};
ghost use Rattle.text_writing.specs.Writes.{Writes};

use record_fields::record_at;
use slices::value_or;
use table_facts::VERTICES;
use text_writing::Writer;

// The first byte of a row that waits, and of one whose vertex is absent, as C reads it too; otherwise it is the stage.
const STUCK: u8 = 255;

const ABSENT: u8 = 254;

// Where a row has its stage, its rank, its hops and its path.
const STAGE: usize = 0;

const RANK: usize = 1;

const HOPS: usize = 2;

const PATH: usize = 3;

// `stage 1`, or `stuck`.
fn put_stage(writer: &mut Writer<'_>, row: &[u8])
    ensures { Writes (stage_words row.now) writer.old writer.new }
{
    let stage = value_or(row, STAGE, 0);
    if stage == STUCK {
        writer.put(b" stuck");
    } else {
        writer.labelled(b" stage ", stage as usize);
    }
}

// The vertices of a row's path, whatever its hops say: they end with the row at the latest.
#[tactic(auto, unfolding(rules::specs::Text::row_path))]
fn path_in(row: &[u8]) -> &[u8]
    ensures { result.now ≡ row_path row.now }
{
    let path = row.get(PATH..).unwrap_or(&[]);
    let size = value_or(row, HOPS, 0) as usize + 1;
    path.get(..size).unwrap_or(path)
}

// The line of vertex v, where it is present.
fn put_row(writer: &mut Writer<'_>, v: usize, row: &[u8])
    ensures { Writes (row_line v row.now) writer.old writer.new }
{
    if value_or(row, STAGE, 0) == ABSENT {
        return;
    }
    writer.number(v);
    put_stage(writer, row);
    writer.route(value_or(row, RANK, 0), path_in(row));
    writer.put(b"\n");
}

// The lines of the vertices 1 to 63. A row, as a record, is the 16 bytes at 16 times its number.
pub fn put_rows(writer: &mut Writer<'_>, rows: &[u8])
    ensures { Writes (row_lines rows.now 63) writer.old writer.new }
{
    for v in 1..VERTICES {
        put_row(writer, v, record_at(rows, v));
    }
}
