// The batch format of docs/BATCH.md: numbers in decimal, and what an answer says behind its id.
#![tactic(auto)]

ghost use Rattle.std.specs.Prelude.{◌≡◌, ◌+◌, ◌≤◌, length, drop};
ghost use Rattle.lent.specs.Splice.{splice};
ghost use Rattle.answers.specs.Answers.{decimal_of, spaced, refused_answer, deck_answer};

// How many digits every number of 64 bits has at most.
const DIGITS: usize = 20;

// The digits of `n` at the end of the buffer: where they start.
fn put_digits(bytes: &mut [u8], n: usize) -> usize
    requires { length bytes.old ≡ 20 }
    ensures { (drop result bytes.new ≡ decimal_of n) × ((result ≤ 20) × (length bytes.new ≡ 20)) }
{
    let mut rest = n;
    for i in (0..DIGITS).rev() {
        bytes[i] = b'0' + (rest % 10) as u8;
        if rest < 10 {
            return i;
        }
        rest /= 10;
    }
    0
}

// The number `n` in decimal from `at` on, and the place behind it.
pub fn put_decimal(out: &mut [u8], at: usize, n: usize) -> usize
    requires { at + 20 ≤ length out.old }
    ensures out_after { out.new ≡ splice out.old at (decimal_of n) }
    ensures value { result ≡ at + length (decimal_of n) }
{
    let mut bytes = [0; DIGITS];
    let from = put_digits(&mut bytes, n);
    let digits = &bytes[from..];
    lent::copy(out, at, digits);
    at + digits.len()
}

// A space and the number `n` from `at` on, and the place behind them.
pub fn put_spaced(out: &mut [u8], at: usize, n: usize) -> usize
    requires { at + 21 ≤ length out.old }
    ensures out_after { out.new ≡ splice out.old at (spaced n) }
    ensures value { result ≡ at + length (spaced n) }
{
    out[at] = b' ';
    put_decimal(out, at + 1, n)
}

// What an answer says behind its id where the library is refused, and its length.
pub fn put_refused(out: &mut [u8], number: u8, line: usize) -> usize
    requires { 64 ≤ length out.old }
    ensures out_after { out.new ≡ splice out.old 0 (refused_answer number line) }
    ensures value { result ≡ length (refused_answer number line) }
{
    lent::copy(out, 0, b" LIBRARY");
    let behind = put_spaced(out, 8, number as usize);
    let end = put_spaced(out, behind, line);
    out[end] = b'\n';
    end + 1
}

// What an answer says behind its id and before the bytes of a deck, and its length.
pub fn put_deck(out: &mut [u8], count: usize) -> usize
    requires { 64 ≤ length out.old }
    ensures out_after { out.new ≡ splice out.old 0 (deck_answer count) }
    ensures value { result ≡ length (deck_answer count) }
{
    lent::copy(out, 0, b" DECK");
    let end = put_spaced(out, 5, count);
    out[end] = b'\n';
    end + 1
}
