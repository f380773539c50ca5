// Strings in a lent buffer, with their true lengths.
#![tactic(auto)]

ghost use Rattle.std.specs.Prelude.{◌≡◌, ℕ, ◌+◌, ◌≤◌, ◌<◌, ◌^◌, List, length};
ghost use Rattle.value_texts.specs.Held.{held_in, joined_held, measured_held};

// A string's true length, and whether one on the way to it was over 255 bytes.
#[derive(Clone, Copy)]
pub struct Text {
    pub size: usize,
    pub over: bool,
}

// More bytes behind a string.
pub fn append(out: &mut [u8], t: Text, s: &[u8]) -> Text
    requires { (255 ≤ length out.old) × (t.size + length s.now < 2 ^ 64) }
    ensures { held_in out.new result ≡ joined_held (held_in out.old t) s.now }
{
    let size = t.size + s.len();
    if size <= limits::STRING {
        lent::copy(out, t.size, s);
    }
    Text { size, ..t }
}

// A string that is complete: over 255 bytes it will be refused.
pub fn measured(t: Text) -> Text
    ensures { (out : List ℕ) → held_in out result ≡ measured_held (held_in out t) }
{
    Text {
        over: t.over | (limits::STRING < t.size),
        ..t
    }
}
