// The report that a mark and a record number for each vertex show, for any bytes: the answer, a row for each vertex and
// the ring.
#![tactic(auto)]

mod counts;
mod followers;

ghost use Rattle.std.specs.Prelude.{◌≡◌};
ghost use Rattle.answer.specs.Refused.{refused_in};
ghost use Rattle.reporter.specs.Showing.{shown_report};
ghost use Rattle.reporter.specs.Reported.{Found, Reported, lent_refusal, refusal_answer};

use crate::counts::{STUCK, count_between};
use crate::followers::write_ring;
use answer::{Answer, Refusal, Rule, Verdict};
use report_rows::{ROWS, write_rows};
use ring::clear;
use table_facts::longest_hops;

// The length of a lent ring: a byte for each vertex.
pub const RING: usize = 64;

// The last mark that is a stage.
const LAST_STAGE: u8 = 253;

// Whether rows and ring are of their lengths, or the refusal where one is not.
pub fn lent(rows: &[u8], ring: &[u8]) -> Result<(), Refusal>
    ensures { refused_in result ≡ lent_refusal rows.now ring.now }
{
    if rows.len() != ROWS || ring.len() != RING {
        return Err(Rule::OtherLength.at(0));
    }
    Ok(())
}

// A refusal's counts are all 0; it is told as `Verdict` tells it, by number and place.
pub fn refused(number: u8, place: usize) -> Answer
    ensures { result ≡ refusal_answer number place }
{
    Answer {
        verdict: Verdict::Refused(number, place),
        settled: 0,
        stuck: 0,
        stages: 0,
        longest: 0,
    }
}

// Complete where the ring has no vertex, as `Ringed` counts it, otherwise stuck.
fn verdict_of(count: u8) -> Verdict
    ensures { Found result count }
{
    if count == 0 {
        Verdict::Complete
    } else {
        Verdict::Stuck(count)
    }
}

// Reports to rows of 1,024 bytes and a ring of 64; a call with another length is refused and changes no byte. Where
// nobody is stuck there is no ring to look for.
pub fn report(
    table: &[u8],
    marks: [u8; 64],
    shown: [u16; 64],
    stages: u8,
    rows: &mut [u8],
    ring: &mut [u8],
) -> Answer
    ensures { Reported (lent_refusal rows.old ring.old)
        (shown_report table.now marks shown stages)
        rows.old ring.old result rows.new ring.new }
{
    if let Err(refusal) = lent(rows, ring) {
        return refused(refusal.number, refusal.place);
    }
    write_rows(table, &marks, &shown, rows);
    let stuck = count_between(STUCK, STUCK, &marks);
    let count = if stuck == 0 {
        clear(ring);
        0
    } else {
        write_ring(table, &marks, &shown, ring)
    };
    Answer {
        verdict: verdict_of(count),
        settled: count_between(0, LAST_STAGE, &marks),
        stuck,
        stages,
        longest: longest_hops(table),
    }
}
