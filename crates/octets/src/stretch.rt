// Stretches of octets: a part of a slice, comparison, the test for zeros, a copy.
ghost use Rattle.std.specs.Prelude.{◌≡◌, ◌+◌, ◌≤◌, length};
ghost use Rattle.octets.specs.Stretch.{same, zeros, patch};
ghost use Rattle.octets.specs.Lent.{lent, lent_from, lent_first};

// What lies from `at` on; where the slice ends before that, the empty part at its end.
pub fn from(s: &[u8], at: usize) -> &[u8]
    ensures { lent result ≡ lent_from at (lent s.entry) }
{
    &s[at.min(s.len())..]
}

// The first n octets, or all where there are fewer.
pub fn first(s: &[u8], n: usize) -> &[u8]
    ensures { lent result ≡ lent_first n (lent s.entry) }
{
    &s[..n.min(s.len())]
}

// Whether two slices hold the same octets.
pub fn is_same(a: &[u8], b: &[u8]) -> bool
    ensures { result ≡ same a.now b.now }
{
    a == b
}

// Whether every octet is zero. No early exit: the loop then runs many octets at a time. A `for`, since the proof of a `fold` stayed open.
pub fn all_zero(s: &[u8]) -> bool
    ensures { result ≡ zeros s.now }
{
    let mut zero = true;
    for x in s {
        zero = zero & (*x == 0);
    }
    zero
}

// Copies `source` over the octets of `target` from `at` on. Octet by octet: `copy_from_slice` compiles to a call of `memmove` where the compiler
// can't see that the two are apart, which the archive for C would then need from outside.
pub fn put(target: &mut [u8], at: usize, source: &[u8])
    requires { at + length source.now ≤ length target.old }
    ensures { target.new ≡ patch target.old at source.now }
{
    for (i, x) in source.iter().enumerate() {
        target[at + i] = *x;
    }
}
