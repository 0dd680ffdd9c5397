// The printed text of a run's answer, for any answer, choices and sums: a line of numbers, then one for each present
// vertex.
#![tactic(auto)]

ghost use Rattle.std.specs.Prelude.{◌≡◌, Ok};
ghost use Rattle.rules.specs.RunText.{run_line, vertex_line};
ghost use Rattle.answer.specs.Moves.{run_numbers_in};
ghost use Rattle.text_writing.specs.Lay.{Laid};
ghost use Rattle.text_writing.specs.Writes.{Writes};
ghost use Rattle.run_lines.specs.Shown.{ranked_record, shown_lines, run_answer_text};

use answer::{Refusal, RunAnswer};
use record_fields::path_at;
use slices::value_or;
use table_facts::{NO_RECORD, SLOTS, VERTICES, present_in, slots_of};
use text_writing::Writer;

// `run steps 5 ups 4 downs 1 last 5 rounds 1`.
fn put_numbers(writer: &mut Writer<'_>, answer: RunAnswer)
    ensures { Writes (run_line (run_numbers_in (Ok answer))) writer.old writer.new }
{
    writer.labelled(b"run steps ", answer.steps as usize);
    writer.labelled(b" ups ", answer.ups as usize);
    writer.labelled(b" downs ", answer.downs as usize);
    writer.labelled(b" last ", answer.last as usize);
    writer.labelled(b" rounds ", answer.rounds as usize);
    writer.put(b"\n");
}

// The record of a rank among a vertex's slots. Rank 0 and ranks past the slots have 65,535, and not None, since
// `shown_line` has the path at that record there.
fn ranked_record(slots: &[u16; SLOTS], rank: u8) -> u16
    ensures { result ≡ ranked_record slots.now rank }
{
    match rank {
        0 => NO_RECORD,
        _ => value_or(slots, rank as usize - 1, NO_RECORD),
    }
}

// `2 sum 16 rank 1 path 2 1 0`, or `3 sum 0 none`.
fn put_vertex(writer: &mut Writer<'_>, v: usize, sum: i32, rank: u8, path: &[u8])
    ensures { Writes (vertex_line v sum rank path.now) writer.old writer.new }
{
    writer.number(v);
    writer.put(b" sum ");
    writer.signed(sum);
    writer.route(rank, path);
    writer.put(b"\n");
}

// The lines of the vertices 1 to 63 that are present.
fn put_vertices(writer: &mut Writer<'_>, table: &[u8], choices: &[u8], sums: &[i32])
    ensures { Writes (shown_lines table.now choices.now sums.now 63) writer.old writer.new }
{
    let named = present_in(table);
    let slots = slots_of(table);
    for v in 1..VERTICES {
        if !named[v] {
            continue;
        }
        let rank = value_or(choices, v, 0);
        let sum = value_or(sums, v, 0);
        let path = path_at(table, ranked_record(&slots[v], rank) as usize);
        put_vertex(writer, v, sum, rank, path);
    }
}

// The numbers and the vertices of a run, or its refusal.
fn put_run(
    writer: &mut Writer<'_>,
    answer: Result<RunAnswer, Refusal>,
    table: &[u8],
    choices: &[u8],
    sums: &[i32],
)
    ensures { Writes (run_answer_text answer table.now choices.now sums.now) writer.old writer.new }
{
    match answer {
        Ok(ran) => {
            put_numbers(writer, ran);
            put_vertices(writer, table, choices, sums);
        }
        Err(refusal) => writer.refused(refusal.number, refusal.place),
    }
}

// Lays the text of a run's answer over the front of a buffer, as far as it fits, and answers how many bytes were laid. The
// table, the choices and the sums stay apart, as callers have them.
pub fn print_run(
    answer: Result<RunAnswer, Refusal>,
    table: &[u8],
    choices: &[u8],
    sums: &[i32],
    text: &mut [u8],
) -> usize
    ensures { Laid 0 (run_answer_text answer table.now choices.now sums.now)
        text.old text.new result }
{
    let mut writer = Writer { text, at: 0 };
    put_run(&mut writer, answer, table, choices, sums);
    writer.at
}
