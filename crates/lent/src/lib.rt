// Leaf functions on lent slices: a byte that is always there, equality, and bytes written over a buffer.
#![tactic(auto)]

ghost use Rattle.std.specs.Prelude.{◌≡◌, [], ◌∷◌, ◌+◌, ◌/◌, ◌%◌, ◌^◌, ◌≤◌, ◌<◌, length, get_or, drop, replicate, ◌-◌, Bool, ℕ};
ghost use Rattle.text.specs.Bytes.{same};
ghost use Rattle.rules.specs.Choice.{run};
ghost use Rattle.lent.specs.Splice.{splice};
ghost use Rattle.lent.specs.Runs.{IsTest};

// The byte at a place; 0 behind the last one.
pub fn byte(s: &[u8], at: usize) -> u8
    ensures { result ≡ get_or s.now at 0 }
{
    s.get(at).copied().unwrap_or(0)
}

// The bytes from a place on; none where it is behind the last one.
pub fn behind(s: &[u8], at: usize) -> &[u8]
    ensures { result.now ≡ drop at s.now }
{
    s.get(at..).unwrap_or(&[])
}

// Whether a and b hold the same bytes.
pub fn equal(a: &[u8], b: &[u8]) -> bool
    ensures { result ≡ same a.now b.now }
{
    a == b
}

// Where the run of bytes that pass the test ends, from `at` on.
pub fn run_end<F: Fn(u8) -> bool>(s: &[u8], at: usize, test: F) -> usize
    requires { F.IsAlwaysCallable test }
    ensures value { (p : ℕ → Bool) → IsTest (F.post test) p → result ≡ at + run p (drop at s.now) }
    ensures bounds { (at ≤ result) × (result ≤ at + (length s.now - at)) }
{
    for i in at..s.len() {
        if !test(s[i]) {
            return i;
        }
    }
    at.max(s.len())
}

// `count` times the byte, from `at` on.
pub fn fill(out: &mut [u8], at: usize, byte: u8, count: usize)
    requires { at + count ≤ length out.old }
    ensures { out.new ≡ splice out.old at (replicate count byte) }
{
    out[at..at + count].fill(byte);
}

// All of s, from `at` on.
pub fn copy(out: &mut [u8], at: usize, s: &[u8])
    requires { at + length s.now ≤ length out.old }
    ensures { out.new ≡ splice out.old at s.now }
{
    out[at..at + s.len()].copy_from_slice(s);
}

// The number n in two bytes, the high one first.
pub fn put_two(out: &mut [u8], at: usize, n: usize)
    requires { (at + 2 ≤ length out.old) × (n < 65536) }
    ensures { out.new ≡ splice out.old at (n / 256 % 256 ∷ (n % 256 ∷ [])) }
{
    copy(out, at, &(n as u16).to_be_bytes());
}

// The number n in four bytes, the highest first.
pub fn put_four(out: &mut [u8], at: usize, n: usize)
    requires { (at + 4 ≤ length out.old) × (n < 2 ^ 32) }
    ensures { out.new ≡ splice out.old at (n / 16777216 % 256 ∷ (n / 65536 % 256 ∷ (n / 256 % 256 ∷ (n % 256 ∷ [])))) }
{
    copy(out, at, &(n as u32).to_be_bytes());
}
