// A published example shown by its plan, whose lines end in a line end. A line begins with four bytes, and its title
// follows:
// - the state that it starts from: 0 nothing heard, 3 the state of Table 4's row 3, < the state that the line before
//   started from, . the state that the line before left;
// - what is shown below the title: c the check, r the run of its pairs one by one, e that run and whether it ends in a
//   state at rest, . nothing;
// - where its pairs begin among the bytes of the rows, and how many bytes they are; neither is 10, which ends a line.
#![tactic(auto)]

ghost use Rattle.std.specs.Prelude.{◌≡◌};
ghost use Rattle.published_plan.specs.PlanLines.{lines_in};

use published::states::row_three;
use published_lines::part;
use published_show::{show_check, show_rest, show_run, show_title};
use slices::value_or;
use table_facts::PAIRS;

// The state that a line starts from.
#[derive(Clone, Copy, Debug, PartialEq, Eq)]
enum Start {
    Nothing,
    RowThree,
    Before,
    Left,
}

impl From<u8> for Start {
    fn from(letter: u8) -> Start {
        match letter {
            b'0' => Start::Nothing,
            b'3' => Start::RowThree,
            b'<' => Start::Before,
            _ => Start::Left,
        }
    }
}

// What a line shows below its title. A plan has these letters and no others, so a `match` is over them, and no closure.
#[derive(Clone, Copy, Debug, PartialEq, Eq)]
enum Shows {
    Check,
    Run,
    RunAndRest,
    Nothing,
}

impl From<u8> for Shows {
    fn from(letter: u8) -> Shows {
        match letter {
            b'c' => Shows::Check,
            b'r' => Shows::Run,
            b'e' => Shows::RunAndRest,
            _ => Shows::Nothing,
        }
    }
}

// The state that the line before started from, and the one that it left.
#[derive(Clone, Copy)]
struct States {
    before: [u8; PAIRS],
    left: [u8; PAIRS],
}

impl States {
    fn at(&self, start: Start) -> [u8; PAIRS] {
        match start {
            Start::Nothing => [0; PAIRS],
            Start::RowThree => row_three(),
            Start::Before => self.before,
            Start::Left => self.left,
        }
    }
}

// A line of a plan.
#[derive(Clone, Copy)]
struct Line<'a> {
    start: Start,
    shows: Shows,
    pairs: &'a [u8],
    title: &'a [u8],
}

impl<'a> Line<'a> {
    // A byte that a line lacks is 0.
    fn read(bytes: &'a [u8], rows: &'a [u8]) -> Line<'a> {
        let from = value_or(bytes, 2, 0);
        let count = value_or(bytes, 3, 0);
        Line {
            start: Start::from(value_or(bytes, 0, 0)),
            shows: Shows::from(value_or(bytes, 1, 0)),
            pairs: part(rows, usize::from(from), usize::from(count)),
            title: part(bytes, 4, bytes.len()),
        }
    }

    // Answers the state that the line leaves.
    fn show_below<P: Print>(&self, rt: &P, table: &[u8], start: [u8; PAIRS]) -> [u8; PAIRS] {
        match self.shows {
            Shows::Check => {
                show_check(rt, table);
                start
            }
            Shows::Run => show_run(rt, table, start, self.pairs),
            Shows::RunAndRest => {
                let left = show_run(rt, table, start, self.pairs);
                show_rest(rt, table, left);
                left
            }
            Shows::Nothing => start,
        }
    }

    fn show<P: Print>(&self, rt: &P, table: &[u8], states: States) -> States {
        let start = states.at(self.start);
        show_title(rt, self.title, self.pairs);
        States {
            before: start,
            left: self.show_below(rt, table, start),
        }
    }
}

// Shows each line of the plan when its end is reached. No contract can say what is written to standard output, so this
// one says what is answered: how many lines the plan has.
pub fn show_example<P: Print>(rt: &P, plan: &[u8], table: &[u8], rows: &[u8]) -> usize
    ensures { result ≡ lines_in plan.now }
{
    let mut states = States {
        before: [0; PAIRS],
        left: [0; PAIRS],
    };
    let mut first = 0;
    let mut lines = 0;
    for (k, b) in plan.iter().enumerate() {
        if *b == b'\n' {
            let line = Line::read(part(plan, first, k - first), rows);
            states = line.show(rt, table, states);
            first = k + 1;
            lines += 1;
        }
    }
    lines
}
