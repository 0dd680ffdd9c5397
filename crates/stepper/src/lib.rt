// The single step: what is judged first, then one pair.
#![tactic(auto)]

ghost use Rattle.std.specs.Prelude.{◌≡◌, ◌+◌, ◌*◌, length};
ghost use Rattle.rules.specs.Table.{paths_of};
ghost use Rattle.rules.specs.Machine as rules;
ghost use Rattle.pairs.specs.NextHops.{Rows};
ghost use Rattle.stepper.specs.Working.{Held, Workable, Heard, ruled};
ghost use Rattle.stepper.specs.Stepped.{Stepped};

use admission::{HEARD_LENGTH, bad_offset};
use answer::{Refusal, Rule};
use choice::Slots;
use pairs::{is_listening, next_rows};
use reader::{Table, read};
use rests::asked_row;
use slices::put_at;
use table_facts::slots_of;
use tally::movement;

// A listener, and the speaker that it is to hear.
#[derive(Clone, Copy)]
pub struct Pair {
    pub listener: u8,
    pub speaker: u8,
}

impl Pair {
    // Where a heard state has what the listener last heard from the speaker.
    pub fn offset(self) -> usize
        ensures { result ≡ 64 * self.listener + self.speaker }
    {
        64 * self.listener as usize + self.speaker as usize
    }
}

// Stores what the speaker says, and answers the byte of the listener's choice then.
pub fn hear(slots: Slots<'_>, heard: &mut [u8], pair: Pair, said: u8) -> u8
    ensures { Heard slots.entry.nexts.now slots.entry.asked.now heard.old (ruled pair) said result heard.new }
{
    put_at(heard, pair.offset(), said);
    slots.choice_byte(heard, pair.listener)
}

// Works a listening pair of an accepted table, and answers the listener's movement.
fn work_pair(
    table: Table<'_>,
    slots: &[[u16; 16]; 64],
    nexts: &[[u8; 16]; 64],
    heard: &mut [u8],
    pair: Pair,
) -> i32
    requires { Workable table.bytes.now heard.old pair.listener pair.speaker × Held table.bytes.now slots.now × Rows (paths_of table.bytes.now) nexts.now }
    ensures movement { result ≡ rules.movement (paths_of table.entry.bytes.now) heard.old (ruled pair) }
    ensures heard { heard.new ≡ rules.step (paths_of table.entry.bytes.now) heard.old (ruled pair) }
{
    let (v, u) = (pair.listener as usize, pair.speaker as usize);
    let listening = Slots {
        nexts: &nexts[v],
        asked: &asked_row(table.bytes, slots, slots[v]),
    };
    let speaking = Slots {
        nexts: &nexts[u],
        asked: &asked_row(table.bytes, slots, slots[u]),
    };
    let old = listening.choice_byte(heard, pair.listener);
    let said = speaking.choice_byte(heard, pair.speaker);
    let new = hear(listening, heard, pair, said);
    movement(old, new)
}

// The step over an accepted table: the state is judged, then the pair.
fn step_accepted(table: Table<'_>, heard: &mut [u8], pair: Pair) -> Result<i32, Refusal>
    requires { length heard.old ≡ 4096 }
    ensures { Stepped table.entry.bytes.now heard.old (ruled pair) result heard.new }
{
    let slots = slots_of(table.bytes);
    let nexts = next_rows(table.bytes, &slots);
    if let Some(at) = bad_offset(&nexts, heard) {
        return Err(Rule::HeardState.at(at));
    }
    if !is_listening(&nexts, pair.listener, pair.speaker) {
        return Err(Rule::NoListener.at(0));
    }
    Ok(work_pair(table, &slots, &nexts, heard, pair))
}

// Stores the speaker's present choice, and answers the listener's movement; a refused call changes no byte.
pub fn step_pair(table: &[u8], heard: &mut [u8], listener: u8, speaker: u8) -> Result<i32, Refusal>
    ensures { Stepped table.now heard.old (record { listener = listener; speaker = speaker }) result
        heard.new }
{
    if heard.len() != HEARD_LENGTH {
        return Err(Rule::OtherLength.at(0));
    }
    let accepted = read(table)?;
    step_accepted(accepted, heard, Pair { listener, speaker })
}
