// The choice of a vertex, for any bytes: the first of its slots whose rest is what it last heard from the next hop.
#![tactic(auto)]

ghost use Rattle.std.specs.Prelude.{◌≡◌, ◌+◌, ◌*◌, get_or};
ghost use Rattle.rests.specs.Rests.{hears_byte};
ghost use Rattle.choice.specs.Choosing.{chosen_slot, choice_byte, choices_by};
ghost use Rattle.choice.specs.FoundSlot.{found_byte};

use pairs::NOBODY;
use slices::value_or;
use std::array;
use table_facts::SLOTS;

// The byte of the destination's choice.
const DESTINATION_CHOICE: u8 = 1;

// Whether v last heard from u the byte asked for; 0 is never asked for.
fn is_heard(heard: &[u8], v: u8, u: u8, asked: u8) -> bool
    ensures { result ≡ hears_byte asked (get_or heard.now (64 * v + u) 0) }
{
    asked != 0 && value_or(heard, 64 * v as usize + u as usize, 0) == asked
}

// The slots of a vertex: where each leads, and the byte that has to be heard from there.
#[derive(Clone, Copy)]
pub struct Slots<'a> {
    pub nexts: &'a [u8; 16],
    pub asked: &'a [u8; 16],
}

impl Slots<'_> {
    // The first of v's slots, in rank order, whose rest is what v last heard from the next hop, or none at the end: by the
    // named form (docs/DECISIONS.md), a loop over the owner's slots that yields the found slot by `break`.
    fn choose(self, heard: &[u8], v: u8) -> Option<u8>
        ensures { found_byte result ≡ chosen_slot self.entry.nexts.now self.entry.asked.now heard.now v }
    {
        let mut k = 0;
        let found = loop {
            if k == SLOTS {
                break None;
            }
            let u = self.nexts[k];
            if u == NOBODY {
                break None;
            }
            if is_heard(heard, v, u, self.asked[k]) {
                break Some(k as u8);
            }
            k += 1;
        };
        found
    }

    // The byte for the present choice of v: the slots count from 0, the ranks from 1, and 0 stands for none. The
    // destination's is always (0), stored as 1.
    pub fn choice_byte(self, heard: &[u8], v: u8) -> u8
        ensures { result ≡ choice_byte self.entry.nexts.now self.entry.asked.now heard.now v }
    {
        if v == 0 {
            return DESTINATION_CHOICE;
        }
        match self.choose(heard, v) {
            Some(k) => k + 1,
            None => 0,
        }
    }
}

// The bytes for the present choices of all vertices.
pub fn choice_bytes(nexts: &[[u8; 16]; 64], asked: &[[u8; 16]; 64], heard: &[u8]) -> [u8; 64]
    ensures { result ≡ choices_by nexts.now asked.now heard.now }
{
    array::from_fn(|v| {
        let slots = Slots {
            nexts: &nexts[v],
            asked: &asked[v],
        };
        slots.choice_byte(heard, v as u8)
    })
}
