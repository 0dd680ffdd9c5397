// Heard states: the one of Table 4's row 3, and whether a state rests.
ghost use Rattle.std.specs.Prelude.{◌≡◌, ◌<◌};
ghost use Rattle.theorems.specs.Published.{row_three, changes_at, some_step_changes};

use machine::step;
use table_facts::{PAIRS, VERTICES};

// Row 3 of Table 4: 1, 3 and 4 have heard (0), 2 has heard (3 0) and (4 0), and 4 has heard (2 3 0). Each line is an
// offset and the rank there: a loop over a list of such pairs would be no plainer.
pub fn row_three() -> [u8; PAIRS]
    ensures { result ≡ row_three }
{
    let mut heard = [0; PAIRS];
    heard[64] = 1;
    heard[192] = 1;
    heard[256] = 1;
    heard[131] = 2;
    heard[132] = 3;
    heard[258] = 4;
    heard
}

// Whether a step at the pair with that offset changes the state.
fn changes_at(table: &[u8], heard: &[u8; PAIRS], k: usize) -> bool
    requires { k < 4096 }
    ensures { result ≡ changes_at table.now heard.now k }
{
    let mut after = *heard;
    // What the step answers is not asked: the state that it leaves tells whether it was changed.
    let _ = step(
        table,
        &mut after,
        (k / VERTICES) as u8,
        (k % VERTICES) as u8,
    );
    after != *heard
}

// Whether a step at some pair of vertices changes the state: each is really made.
pub fn some_step_changes(table: &[u8], heard: [u8; PAIRS]) -> bool
    ensures { result ≡ some_step_changes table.now heard }
{
    (0..PAIRS).any(|k| changes_at(table, &heard, k))
}
