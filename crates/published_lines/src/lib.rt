// A part of some bytes, and the printed title of a row with its pairs.
#![tactic(auto)]

ghost use Rattle.std.specs.Prelude.{◌≡◌, ◌++◌, take, drop};
ghost use Rattle.rules.specs.Text.{codes, spaced};
ghost use Rattle.text_writing.specs.Lay.{Laid};

use text_writing::Writer;

// So many bytes from a place on, as far as there are.
pub fn part(bytes: &[u8], from: usize, count: usize) -> &[u8]
    ensures { result.now ≡ take count (drop from bytes.now) }
{
    let start = from.min(bytes.len());
    let end = start + count.min(bytes.len() - start);
    &bytes[start..end]
}

// Lays a title and the numbers of the pairs over the front of the lent text, and answers how many bytes that is.
pub fn title_text(title: &[u8], pairs: &[u8], text: &mut [u8]) -> usize
    ensures { Laid 0 (title.now ++ spaced pairs.now ++ codes "\n")
        text.old text.new result }
{
    let mut writer = Writer { text, at: 0 };
    writer.put(title);
    writer.spaced(pairs);
    writer.put(b"\n");
    writer.at
}
