// What the steps of a run count, for any numbers: the movement, ups, downs, the last change, and the rounds.
#![tactic(auto)]

ghost use Rattle.std.specs.Prelude.{◌≡◌};
ghost use Rattle.rules.specs.Machine.{standing_of};
ghost use Rattle.tally.specs.Counting.{moved, CountedStep};
ghost use Rattle.tally.specs.Stamps.{Activated};

use slices::{put_at, value_or};
use std::cmp::Ordering;

// What a rank is taken from.
const STANDING_OF_RANK_0: u8 = 17;

// 17 minus the rank of a choice, or 0 for none.
fn standing_of(rank: u8) -> u8
    ensures { result ≡ standing_of rank }
{
    if rank == 0 {
        return 0;
    }
    STANDING_OF_RANK_0.saturating_sub(rank)
}

// New standing minus old, from the ranks.
pub fn movement(old: u8, new: u8) -> i32
    ensures { result ≡ moved old new }
{
    i32::from(standing_of(new)) - i32::from(standing_of(old))
}

// The counts so far; none goes past the greatest number of its type.
#[derive(Clone, Copy, Default)]
pub struct Counts {
    pub ups: u32,
    pub downs: u32,
    pub last: u32,
}

impl Counts {
    // The counts with one step more, from the listener's ranks before and after it.
    pub fn counted(self, number: u32, old: u8, new: u8) -> Counts
        ensures { CountedStep old new number self.ups self.downs self.last result.ups result.downs result.last }
    {
        if old == new {
            return self;
        }
        let changed = Counts {
            last: number,
            ..self
        };
        match standing_of(old).cmp(&standing_of(new)) {
            Ordering::Less => Counts {
                ups: self.ups.saturating_add(1),
                ..changed
            },
            Ordering::Equal => changed,
            Ordering::Greater => Counts {
                downs: self.downs.saturating_add(1),
                ..changed
            },
        }
    }
}

// The rounds closed, how many listening pairs are missing in the open one, and how many there are.
#[derive(Clone, Copy)]
pub struct Rounds {
    pub closed: u16,
    pub missing: u16,
    pub all: u16,
}

impl Rounds {
    // Activates a pair: it is missing no longer, and a round closes where no pair is left.
    pub fn activate(&mut self, stamps: &mut [u16], at: usize)
        ensures counted { Activated stamps.old at self.old.closed self.old.missing self.old.all stamps.new self.new.closed self.new.missing }
        ensures all { self.new.all ≡ self.old.all }
    {
        let number = self.closed.saturating_add(1);
        let is_new = value_or(stamps, at, 0) != number;
        put_at(stamps, at, number);
        self.missing = self.missing.saturating_sub(u16::from(is_new));
        if self.missing == 0 {
            self.closed = number;
            self.missing = self.all;
        }
    }
}
