// Numbers as C reads them: four bytes each, low byte first; and a refusal as one number.
#![tactic(auto)]

ghost use Rattle.std.specs.Prelude.{◌≡◌, ◌*◌, length};
ghost use Rattle.std.proofs.Math.Option.{some};
ghost use Rattle.rules.specs.Entries.{code_of, word_bytes, number_bytes, twos_complement, sum_bytes};
ghost use Rattle.words.specs.Words.{overwritten};

use std::array;

const WORD_LENGTH: usize = 4;

pub const NUMBERS_LENGTH: usize = 32;

pub const SUMS: usize = 64;

pub const SUMS_LENGTH: usize = 256;

// What an entry returns where a buffer has another length: refusal 1, place 0. It stays a number, as C reads it.
pub const WRONG_LENGTH: u64 = 1;

// A refusal as one number: the place stands above the number's byte. Of any number, as `Verdict::Refused` has it.
#[tactic(auto, unfolding(rules::specs::Entries::code_of))]
pub fn code_of(number: u8, place: u32) -> u64
    ensures { result ≡ code_of (some (record { number = number; place = place })) }
{
    u64::from(number) + 256 * u64::from(place)
}

// Writes numbers end to end.
fn write_words(bytes: &mut [u8], words: &[u32])
    requires { length bytes.old ≡ 4 * length words.now }
    ensures { bytes.new ≡ word_bytes (length words.now) words.now }
{
    // By place: tried with `chunks_exact_mut`, and a proof knew none of the bytes once the chunks' borrow was over.
    for (k, word) in words.iter().enumerate() {
        let at = k * WORD_LENGTH;
        bytes[at..at + WORD_LENGTH].copy_from_slice(&word.to_le_bytes());
    }
}

// Writes an answer's numbers; a buffer of another length stays as it was.
pub fn write_numbers(numbers: &mut [u8], told: [u32; 8])
    ensures { numbers.new ≡ overwritten (number_bytes told) numbers.old }
{
    if numbers.len() == NUMBERS_LENGTH {
        write_words(numbers, &told);
    }
}

// The two's complement of a signed number.
#[tactic(auto, using(crate::specs::WordLaws::complement_is))]
pub fn complement(n: i32) -> u32
    ensures { result ≡ twos_complement n }
{
    n.cast_unsigned()
}

// Writes the sums; a buffer of another length stays as it was.
pub fn write_sums(bytes: &mut [u8], sums: &[i32; SUMS])
    ensures { bytes.new ≡ overwritten (sum_bytes sums.now) bytes.old }
{
    if bytes.len() == SUMS_LENGTH {
        let words: [u32; SUMS] = array::from_fn(|v| complement(sums[v]));
        write_words(bytes, &words);
    }
}
