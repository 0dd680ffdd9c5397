// Each vertex's sum of movements.
ghost use Rattle.std.specs.Prelude.{◌≡◌, ◌<◌, ◌≤◌, length, get_or, set, pos, nat_abs, ◌+ℤ◌};

// Adds a movement to a vertex's sum, which stays within a standing's bounds since it telescopes.
pub(crate) fn add(sums: &mut [i32], v: usize, moved: i32)
    requires { (v < length sums.old) × (nat_abs (get_or sums.old v (pos 0)) ≤ 16) × (nat_abs moved ≤ 16) }
    ensures { sums.new ≡ set sums.old v (get_or sums.old v (pos 0) +ℤ moved) }
{
    sums[v] += moved;
}
