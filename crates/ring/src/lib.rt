// Counting around a ring of n places, 0 to n - 1.
#![tactic(auto)]

ghost use Rattle.std.specs.Prelude.{◌≡◌, cond, ◌-◌, ◌<◌, ◌≤◌, ◌%◌, pos, nat_abs, ◌+ℤ◌};
ghost use Rattle.std.specs.Int.Signed.{lt_z};
ghost use Rattle.ring.specs.{on_ring, in_range, complement};

// The place d further on; a negative d goes back.
pub fn add(place: u64, d: i64, n: u64) -> u64
    ensures { result ≡ on_ring (pos place +ℤ d) n }
{
    if n == 0 {
        return 0;
    }
    let from = rest(place, n);
    let by = rest(magnitude(d), n);
    ahead(from, forward(d, by, n), n)
}

// Two's complement in 32 bits: a ring of 2^32 places.
pub fn complement(z: i64) -> u32
    ensures { result ≡ complement z }
{
    add(0, z, 0x1_0000_0000) as u32
}

// v lies strictly between -n and n.
pub fn between(v: i64, n: u32) -> bool
    ensures { result ≡ in_range v n }
{
    let end = n as i64;
    (v < end) & (0 - end < v)
}

// |d|. A negative d gives (-1 - d) + 1, which fits for every d.
pub fn magnitude(d: i64) -> u64
    ensures { result ≡ nat_abs d }
{
    if d < 0 { (-1 - d) as u64 + 1 } else { d as u64 }
}

// Back by k is ahead by n - k. So one sum serves both, and no branch depends on the sign of a move.
fn forward(d: i64, by: u64, n: u64) -> u64
    requires { by < n }
    ensures { (result ≡ cond (lt_z d (pos 0)) (n - by) by) × (result ≤ n) }
{
    if d < 0 { n - by } else { by }
}

fn ahead(from: u64, by: u64, n: u64) -> u64
    requires { (from < n) × (by ≤ n) }
    ensures { result ≡ on_ring (pos from +ℤ pos by) n }
{
    let room = n - from;
    if by < room { from + by } else { by - room }
}

// a modulo n. Most numbers are below n and need no division.
fn rest(a: u64, n: u64) -> u64
    requires { 0 < n }
    ensures { (result ≡ a % n) × (result < n) }
{
    if a < n { a } else { a % n }
}
