// What is judged before the first store, by where the slots lead.
#![tactic(auto)]

ghost use Rattle.std.specs.Prelude.{◌≡◌, ◌<◌, ◌≤◌};
ghost use Rattle.admission.specs.Judged.{speaks_in, bad_heard, bad_offset, offset_in};

use pairs::{NOBODY, is_listening};
use table_facts::{SLOTS, VERTICES};

// The length of a heard state: a byte for each pair.
pub const HEARD_LENGTH: usize = 4096;

// Whether u can speak of the path with the byte b: the destination of one, every other vertex of those in its slots.
fn can_speak(nexts: &[[u8; 16]; 64], u: usize, b: usize) -> bool
    requires { (u < 64) × (1 ≤ b) }
    ensures { result ≡ speaks_in nexts.now u b }
{
    if u == 0 {
        return b == 1;
    }
    if SLOTS < b {
        return false;
    }
    nexts[u][b - 1] != NOBODY
}

// Whether the byte b at the offset k is bad; most bytes of a state are 0, so that is asked first.
fn is_bad(nexts: &[[u8; 16]; 64], k: usize, b: u8) -> bool
    ensures { result ≡ bad_heard nexts.now k b }
{
    if b == 0 {
        return false;
    }
    if HEARD_LENGTH <= k {
        return true;
    }
    if !is_listening(nexts, (k / VERTICES) as u8, (k % VERTICES) as u8) {
        return true;
    }
    !can_speak(nexts, k % VERTICES, b as usize)
}

// The lowest bad offset, if there is one.
pub fn bad_offset(nexts: &[[u8; 16]; 64], heard: &[u8]) -> Option<usize>
    ensures { offset_in result ≡ bad_offset nexts.now heard.now }
{
    for (k, b) in heard.iter().enumerate() {
        if is_bad(nexts, k, *b) {
            return Some(k);
        }
    }
    None
}
