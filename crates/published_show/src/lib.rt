// What the published program shows. Each function prints; no contract can say what is printed, so each says what is
// answered. A failed write is passed over.
#![tactic(auto)]

ghost use Rattle.std.specs.Fn.{FnOnceReturnsAtMut};
ghost use Rattle.std.specs.Prelude.{◌≡◌, ◌++◌, ℕ, List, min, length, replicate, pos};
ghost use Rattle.rules.specs.Answers.{heard_after_run};
ghost use Rattle.rules.specs.Text.{check_text, codes, spaced};
ghost use Rattle.theorems.specs.Published.{some_step_changes};

use check_text::check_text;
use published::states::some_step_changes;
use published_lines::{part, title_text};
use run_text::run_from;
use table_facts::PAIRS;

// So many bytes hold every text that the published program shows: a buffer of a fixed size and the length laid, since
// there is no heap here.
const TEXT_BYTES: usize = 2048;

fn show<P: Print>(rt: &P, text: &[u8]) {
    let _ = rt.write_all(text);
}

// Shows a text that is laid into a buffer; answers how many bytes it has.
fn show_laid<P: Print, F: FnOnce(&mut [u8]) -> usize>(rt: &P, lay: F) -> usize
    requires { F.IsAlwaysCallable lay }
    ensures { (after : List ℕ) × FnOnceReturnsAtMut F.FnOnce lay (replicate 2048 0) result after }
{
    let mut text = [0; TEXT_BYTES];
    let shown = lay(&mut text);
    show(rt, part(&text, 0, shown));
    shown
}

// The check of a table; answers how many bytes its text has.
pub fn show_check<P: Print>(rt: &P, table: &[u8]) -> usize
    ensures { result ≡ min (length (check_text table.now)) 2048 }
{
    show_laid(rt, |text| check_text(table, text))
}

// A title with its pairs, listener first; answers how many bytes that is.
pub fn show_title<P: Print>(rt: &P, title: &[u8], pairs: &[u8]) -> usize
    ensures { result ≡ min (length (title.now ++ spaced pairs.now ++ codes "\n")) 2048 }
{
    show_laid(rt, |text| title_text(title, pairs, text))
}

// The run of the pairs from a state, one by one; answers the state that it leaves. Not by `show_laid`: a proof knows
// nothing of a state that a closure borrows and changes.
pub fn show_run<P: Print>(rt: &P, table: &[u8], start: [u8; PAIRS], pairs: &[u8]) -> [u8; PAIRS]
    ensures { result ≡ heard_after_run table.now start pairs.now (replicate 64 (pos 0)) }
{
    let mut heard = start;
    let mut text = [0; TEXT_BYTES];
    let shown = run_from(table, &mut heard, pairs, &mut text);
    show(rt, part(&text, 0, shown));
    heard
}

// Whether the state rests; answers whether some step changes it.
pub fn show_rest<P: Print>(rt: &P, table: &[u8], heard: [u8; PAIRS]) -> bool
    ensures { result ≡ some_step_changes table.now heard }
{
    let changes = some_step_changes(table, heard);
    if changes {
        show(rt, b"a step changes this state\n");
    } else {
        show(rt, b"no step changes this state\n");
    }
    changes
}
