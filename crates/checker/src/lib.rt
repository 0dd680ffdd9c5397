// The greedy check: a table is read, its vertices settle, and what they come to is reported.
#![tactic(auto)]

mod settle;

ghost use Rattle.std.specs.Prelude.{◌≡◌, IfOk, IfErr};
ghost use Rattle.std.proofs.Math.Option.{some};
ghost use Rattle.rules.specs.Answers.{check_refusal};
ghost use Rattle.answer.specs.Refused.{told};
ghost use Rattle.checker.specs.Checked.{Checked, Kept};

use crate::settle::settle;
use answer::{Answer, Refusal};
use reader::{Table, read};
use reporter::{lent, refused, report};

// The check of an accepted table.
fn check_accepted(table: Table<'_>, rows: &mut [u8], ring: &mut [u8]) -> Answer
    ensures { Checked table.entry.bytes.now rows.old ring.old result rows.new ring.new }
{
    let settling = settle(table);
    let last = settling.last;
    report(
        table.bytes,
        last.marks,
        last.shown,
        settling.stages,
        rows,
        ring,
    )
}

// The check, or the refusal of a call that changes no byte.
fn try_check(table: &[u8], rows: &mut [u8], ring: &mut [u8]) -> Result<Answer, Refusal>
    ensures accepted { IfOk result (λ answer. Checked table.now rows.old ring.old answer rows.new ring.new) }
    ensures refused { IfErr result (λ r. Kept table.now rows.old ring.old r rows.new ring.new) }
{
    lent(rows, ring)?;
    let accepted = read(table)?;
    Ok(check_accepted(accepted, rows, ring))
}

// Checks a table of any length: the verdict and counts, the rows and the ring; a refused call changes no byte.
pub fn check(table: &[u8], rows: &mut [u8], ring: &mut [u8]) -> Answer
    ensures { Checked table.now rows.old ring.old result rows.new ring.new }
{
    match try_check(table, rows, ring) {
        Ok(answer) => answer,
        Err(refusal) => refused(refusal.number, refusal.place),
    }
}
