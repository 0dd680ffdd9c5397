// The answers of the check, the step and the run: what can happen, beside the counts, and the refusals.
#![tactic(auto)]

ghost use Rattle.std.specs.Prelude.{◌≡◌};
ghost use Rattle.answer.specs.Refused.{number_of};

// What an input can break, in the order of the refusal numbers.
#[derive(Clone, Copy, Debug, PartialEq, Eq)]
pub enum Rule {
    OtherLength = 1,
    LongTable,
    RaggedTable,
    Hops,
    Vertex,
    Filler,
    Twice,
    Last,
    Owner,
    Rank,
    SamePath,
    HeardState,
    Schedule,
    NoListener,
}

impl From<Rule> for u8 {
    ghost from_gives = { λ rule number. number ≡ number_of rule };

    fn from(rule: Rule) -> u8 {
        rule as u8
    }
}

// The number of the rule that is broken, and the place where. A number and no `Rule`, since `reporter::refused`, the
// writer's `refused` and `code_of` take any number, as `Verdict::Refused` has it.
#[derive(Clone, Copy, Debug, PartialEq, Eq)]
pub struct Refusal {
    pub number: u8,
    pub place: usize,
}

impl Rule {
    // The refusal of an input that breaks the rule at this place.
    pub fn at(self, place: usize) -> Refusal
        ensures { result ≡ record { number = number_of self; place = place } }
    {
        Refusal {
            number: u8::from(self),
            place,
        }
    }
}

// Complete, stuck with the ring's length, or refused with number and place: a named form (docs/DECISIONS.md), as is the
// struct beside it, so no `Result` stands here.
#[derive(Clone, Copy)]
pub enum Verdict {
    Complete,
    Stuck(u8),
    Refused(u8, usize),
}

// The verdict, the settled and the stuck vertices (without vertex 0), the stage count and the longest hops.
#[derive(Clone, Copy)]
pub struct Answer {
    pub verdict: Verdict,
    pub settled: u8,
    pub stuck: u8,
    pub stages: u8,
    pub longest: u8,
}

// The number of steps, of ups, of downs, of the last step that changed a choice, and of rounds.
#[derive(Clone, Copy)]
pub struct RunAnswer {
    pub steps: u32,
    pub ups: u32,
    pub downs: u32,
    pub last: u32,
    pub rounds: u32,
}
