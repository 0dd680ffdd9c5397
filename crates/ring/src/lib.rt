// The ring among the stuck vertices, for any marks and numbers: each vertex is followed by the number at its place.
#![tactic(auto)]

ghost use Rattle.std.specs.Prelude.{◌≡◌, [], ◌≤◌, MatchOption, length, nat_eq, position};
ghost use Rattle.lists.specs.Fill.{padded};
ghost use Rattle.rules.specs.Greedy.{closed_part, lowest_of, turned};
ghost use Rattle.ring.specs.Ring.{Ringed, next_in, IsLeast, LowestMarked, NoneMarked, vertices_in};

use slices::{fill_padded, value_or};

// Vertices are bytes below this one; `table_facts` has it as the size of arrays.
const VERTICES: u8 = 64;

// What stands behind the vertices in a filled buffer.
const FILLER: u8 = 255;

// The lowest marked vertex.
fn lowest_marked(marks: &[bool]) -> Option<u8>
    ensures { MatchOption result (NoneMarked marks.now 64) (LowestMarked marks.now) }
{
    for v in 0..VERTICES {
        if value_or(marks, usize::from(v), false) {
            return Some(v);
        }
    }
    None
}

// Follows from the start until a vertex repeats, and answers the closed part; nothing, where the vertices walked fill
// the buffer.
fn walk<'a>(next: &[u8], start: u8, seen: &'a mut [u8]) -> &'a mut [u8]
    ensures part { result.now ≡ closed_part (next_in next.now) (length seen.old) [] start }
    ensures within { length result.now ≤ length seen.old }
{
    let mut v = start;
    for n in 0..seen.len() {
        if let Some(k) = place_of(v, &seen[..n]) {
            return &mut seen[k..n];
        }
        seen[n] = v;
        v = value_or(next, usize::from(v), 0);
    }
    &mut []
}

// The first place of v in the part.
fn place_of(v: u8, part: &[u8]) -> Option<usize>
    ensures { result ≡ position (nat_eq v) part.now }
{
    part.iter().position(|u| v == *u)
}

// The lowest vertex of the part.
fn lowest_vertex(part: &[u8]) -> Option<u8>
    ensures { MatchOption result (length (vertices_in part.now) ≡ 0) (IsLeast (vertices_in part.now)) }
{
    part.iter().copied().filter(|v| *v < VERTICES).min()
}

// The place of the lowest vertex.
fn lowest_place(part: &[u8]) -> Option<usize>
    ensures { result ≡ position (nat_eq (lowest_of part.now)) part.now }
{
    let low = lowest_vertex(part)?;
    place_of(low, part)
}

// Turns the closed part to its lowest vertex. By three reversals: the library's `rotate_left` keeps 4,096 bytes of room
// on the stack, and where one vertex moves it calls `memmove`, which the archive for C asks of nobody otherwise.
fn turn(part: &mut [u8])
    ensures { part.new ≡ turned part.old }
{
    if let Some(k) = lowest_place(part) {
        part[..k].reverse();
        part[k..].reverse();
        part.reverse();
    }
}

// Fills with 255, as a ring of no vertex is written.
pub fn clear(part: &mut [u8])
    ensures { part.new ≡ padded (length part.old) 255 [] }
{
    part.fill(FILLER);
}

// Fills with the bytes, then 255: the filler is no question at each byte, since a ring is mostly filler.
fn fill_front(part: &mut [u8], bytes: &[u8])
    ensures { part.new ≡ padded (length part.old) 255 bytes.now }
{
    let done = bytes.len().min(part.len());
    fill_padded(&mut part[..done], bytes);
    clear(&mut part[done..]);
}

// The ring, then 255, and its length.
pub fn find_ring(stuck: &[bool], next: &[u8], ring: &mut [u8]) -> u8
    ensures { Ringed stuck.now next.now (length ring.old) result ring.new }
{
    let Some(start) = lowest_marked(stuck) else {
        clear(ring);
        return 0;
    };
    let mut seen = [FILLER; 65];
    let closed = walk(next, start, &mut seen);
    turn(closed);
    fill_front(ring, closed);
    closed.len() as u8
}
