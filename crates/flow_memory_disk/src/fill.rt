// Other octets at the places that are not settled.
ghost use Rattle.std.specs.Prelude.{◌≡◌, ◌<◌, ◌≤◌, ℕ, length, reverse};
ghost use Rattle.flow_memory_disk.specs.Stopped.{outside, is_settled, next, filled};

/// Whether a place lies in none of these ranges, each a first place and a count.
fn is_outside(touched: &[(u64, u64)], place: u64) -> bool
    ensures { result ≡ outside (reverse touched.now) place }
{
    let mut is = true;
    for range in touched {
        is = (place < range.0 || range.1 <= place - range.0) && is;
    }
    is
}

/// Whether a stop can't change the octet at a place.
fn is_safe(fast: usize, touched: &[(u64, u64)], place: usize) -> bool
    ensures { result ≡ is_settled fast (reverse touched.now) place }
{
    place < fast && is_outside(touched, place as u64)
}

/// The next of some octets, and over again at their end.
fn after(octets: &[u8], used: usize) -> usize
    requires { used < length octets.now }
    ensures next { result ≡ next octets.now used }
    ensures within { result < length octets.now }
{
    if used + 1 == octets.len() {
        0
    } else {
        used + 1
    }
}

/// Puts octets in turn at each place that a stop can change: that is not below `fast` or lies in a touched range.
pub(crate) fn fill(reads: &mut [u8], fast: usize, touched: &[(u64, u64)], octets: &[u8])
    requires { 0 < length octets.now }
    ensures { reads.new ≡ filled fast (reverse touched.now) octets.now 0 0 reads.old }
{
    let mut used = 0;
    for place in 0..reads.len() {
        if !is_safe(fast, touched, place) {
            reads[place] = octets[used];
            used = after(octets, used);
        }
    }
}
