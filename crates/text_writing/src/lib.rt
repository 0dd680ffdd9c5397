// Letters laid into a lent buffer from a place on, as far as they fit: pieces, decimal numbers, and the words that every
// printed text shares.
#![tactic(auto)]

ghost use Rattle.std.specs.Prelude.{◌≡◌, ◌++◌};
ghost use Rattle.rules.specs.Text.{decimal, spaced, route_words, place_words, refused_line};
ghost use Rattle.rules.specs.RunText.{signed};
ghost use Rattle.text_writing.specs.Writes.{Writes};

// The letter 0; those of the other digits follow it.
const ZERO: u8 = 48;

// So many digits hold every number that is printed.
const DIGITS: usize = 10;

// Writes the decimal digits of a number to the end of a buffer, the last ten at most, and answers them.
// By hand, since `write!` promises its text only with an Ok, which no contract promises, and std's `decimal` has them all.
fn write_digits(digits: &mut [u8; DIGITS], n: usize) -> &[u8]
    ensures { result.now ≡ decimal n }
{
    let mut rest = n;
    for at in (0..DIGITS).rev() {
        digits[at] = ZERO + (rest % 10) as u8;
        rest /= 10;
        if rest == 0 {
            return &digits[at..];
        }
    }
    digits
}

// A lent buffer, and the place behind what is laid there.
#[derive(Drop)]
pub struct Writer<'a> {
    pub text: &'a mut [u8],
    pub at: usize,
}

impl Writer<'_> {
    // Lays a piece, as far as it fits.
    pub fn put(&mut self, piece: &[u8])
        ensures { Writes piece.now self.old self.new }
    {
        let from = self.at.min(self.text.len());
        let count = piece.len().min(self.text.len() - from);
        self.text[from..from + count].copy_from_slice(&piece[..count]);
        self.at += count;
    }

    // A number in decimal.
    pub fn number(&mut self, n: usize)
        ensures { Writes (decimal n) self.old self.new }
    {
        let mut digits = [0; DIGITS];
        self.put(write_digits(&mut digits, n));
    }

    // A number with its sign.
    pub fn signed(&mut self, n: i32)
        ensures { Writes (signed n) self.old self.new }
    {
        if n < 0 {
            self.put(b"-");
        }
        self.number(n.unsigned_abs() as usize);
    }

    // A word and its number.
    pub fn labelled(&mut self, word: &[u8], n: usize)
        ensures { Writes (word.now ++ decimal n) self.old self.new }
    {
        self.put(word);
        self.number(n);
    }

    // Each vertex after a space.
    pub fn spaced(&mut self, vertices: &[u8])
        ensures { Writes (spaced vertices.now) self.old self.new }
    {
        for &vertex in vertices {
            self.labelled(b" ", vertex as usize);
        }
    }

    // `rank 1 path 1 0`, or `none` at rank 0, as `route_words` has it.
    pub fn route(&mut self, rank: u8, path: &[u8])
        ensures { Writes (route_words rank path.now) self.old self.new }
    {
        if rank == 0 {
            self.put(b" none");
        } else {
            self.labelled(b" rank ", rank as usize);
            self.put(b" path");
            self.spaced(path);
        }
    }

    // The place of a refusal that has one, under its name; of any number, as `Verdict::Refused` has it.
    fn place(&mut self, number: u8, place: usize)
        ensures { Writes (place_words number place) self.old self.new }
    {
        let word: &[u8] = match number {
            4..=11 => b" record ",
            12 => b" offset ",
            14 => b" pair ",
            _ => return,
        };
        self.labelled(word, place);
    }

    // `refused 9 record 2`, or `refused 3`.
    pub fn refused(&mut self, number: u8, place: usize)
        ensures { Writes (refused_line number place) self.old self.new }
    {
        self.labelled(b"refused ", number as usize);
        self.place(number, place);
        self.put(b"\n");
    }
}
