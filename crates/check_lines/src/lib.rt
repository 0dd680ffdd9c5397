// The printed text of the check's answer, for any answer and any buffers.
#![tactic(auto)]

ghost use Rattle.rules.specs.Text.{verdict_line, ring_line};
ghost use Rattle.answer.specs.Meaning.{numbers};
ghost use Rattle.text_writing.specs.Lay.{Laid};
ghost use Rattle.text_writing.specs.Writes.{Writes};
ghost use Rattle.check_lines.specs.AnswerText.{answer_text};

use answer::{Answer, Verdict};
use row_lines::put_rows;
use text_writing::Writer;

// `verdict stuck settled 1 stuck 2 stages 1 longest 2`, with the verdict's name. Inlined, so that the name is a
// constant where it is copied: of any other the copy is a call of `memmove`, which an archive for C would have to be
// given.
#[inline(always)]
fn put_verdict(writer: &mut Writer<'_>, name: &[u8], answer: Answer)
    ensures { Writes (verdict_line name.now (numbers answer)) writer.old writer.new }
{
    writer.put(b"verdict ");
    writer.put(name);
    writer.labelled(b" settled ", answer.settled as usize);
    writer.labelled(b" stuck ", answer.stuck as usize);
    writer.labelled(b" stages ", answer.stages as usize);
    writer.labelled(b" longest ", answer.longest as usize);
    writer.put(b"\n");
}

// `ring 2 3`, with as many vertices as the ring is long.
fn put_ring(writer: &mut Writer<'_>, size: u8, ring: &[u8])
    ensures { Writes (ring_line size ring.now) writer.old writer.new }
{
    writer.put(b"ring");
    writer.spaced(ring.get(..size as usize).unwrap_or(ring));
    writer.put(b"\n");
}

// The lines of each verdict behind each other.
fn put_answer(writer: &mut Writer<'_>, answer: Answer, rows: &[u8], ring: &[u8])
    ensures { Writes (answer_text answer rows.now ring.now) writer.old writer.new }
{
    match answer.verdict {
        Verdict::Complete => {
            put_verdict(writer, b"complete", answer);
            put_rows(writer, rows);
        }
        Verdict::Stuck(size) => {
            put_verdict(writer, b"stuck", answer);
            put_rows(writer, rows);
            put_ring(writer, size, ring);
        }
        Verdict::Refused(number, place) => writer.refused(number, place),
    }
}

// Lays the text of an answer over the front of a buffer, as far as it fits, and answers how many bytes were laid.
pub fn print(answer: Answer, rows: &[u8], ring: &[u8], text: &mut [u8]) -> usize
    ensures { Laid 0 (answer_text answer rows.now ring.now) text.old text.new result }
{
    let mut writer = Writer { text, at: 0 };
    put_answer(&mut writer, answer, rows, ring);
    writer.at
}
