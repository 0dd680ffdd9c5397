// Small questions about parts of a byte slice, and marks: nothing here knows a record.
#![tactic(auto)]

ghost use Rattle.std.specs.Prelude.{◌≡◌, get_or, length, set};
ghost use Rattle.lists.specs.Search.{any_in, outside, same, twice};
ghost use Rattle.lists.specs.Fill.{padded};
ghost use Rattle.lists.specs.Renew.{marked};

// What stands at a place; past the end, what is given for that.
pub fn value_or<T: Copy>(part: &[T], at: usize, other: T) -> T
    ensures { result ≡ get_or part.now at other }
{
    match part.get(at) {
        Some(value) => *value,
        None => other,
    }
}

// Writes a value to a place, where there is one.
pub fn put_at<T: Copy>(part: &mut [T], at: usize, value: T)
    ensures { part.new ≡ set part.old at value }
{
    if at < part.len() {
        part[at] = value;
    }
}

// Whether b lies outside low to high.
pub fn is_outside(low: u8, high: u8, b: u8) -> bool
    ensures { result ≡ outside low high b }
{
    b < low || high < b
}

// Whether some byte of the part lies outside low to high.
pub fn any_outside(low: u8, high: u8, part: &[u8]) -> bool
    ensures { result ≡ any_in (outside low high) part.now }
{
    for b in part {
        if is_outside(low, high, *b) {
            return true;
        }
    }
    false
}

// Whether some vertex stands twice in the part: each is looked up among the marks of those before it.
pub fn has_twice(part: &[u8]) -> bool
    ensures { result ≡ twice part.now }
{
    let mut seen = [false; 256];
    for v in part {
        let at = *v as usize;
        if seen[at] {
            return true;
        }
        seen[at] = true;
    }
    false
}

// Whether two parts are the same; by this name, since clauses say `same`, which `==` is by `pointwise_same`.
pub fn same_parts(a: &[u8], b: &[u8]) -> bool
    ensures { result ≡ same a.now b.now }
{
    a == b
}

// Marks every vertex of a path.
pub fn mark_all(marks: &mut [bool], path: &[u8])
    ensures { marks.new ≡ marked marks.old path.now }
{
    for v in path {
        put_at(marks, *v as usize, true);
    }
}

// Fills the part with the bytes, then 255; bytes past its end are left out. Place by place and by number: with a copy
// and a fill by the library, two calls for each row, a check took some 2,000 instructions more, and by `iter_mut` with
// `enumerate` some 1,000.
pub fn fill_padded(part: &mut [u8], bytes: &[u8])
    ensures { part.new ≡ padded (length part.old) 255 bytes.now }
{
    for at in 0..part.len() {
        part[at] = value_or(bytes, at, 255);
    }
}
