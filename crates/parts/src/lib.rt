// Where a text is cut: at a byte outside quotes and parentheses; and its parts between such commas.
#![tactic(auto)]

ghost use Rattle.std.specs.Prelude.{◌≡◌, ◌+◌, ◌-◌, ◌≤◌, length, drop};
ghost use Rattle.std.specs.Iterator.{YieldsFirstRef, item_count};
ghost use Rattle.parts.specs.Parts.{bare_here, bare_at, parts_of, parts_from, parts_left};

// Whether the byte `d`, which `next` follows (0 if nothing does), is the text byte `c` outside quotes and parentheses.
pub fn is_bare(seen: fields::Seen, d: u8, next: u8, c: u8) -> bool
    ensures { result ≡ bare_here c seen d next }
{
    let quoted = seen.quoted;
    let depth = seen.depth;
    let mark = fields::is_mark(seen, d, next);
    ((mark & (c == 0)) | (!mark & (d == c))) & !quoted & (depth == 0)
}

// The first place from `at` on where `c` stands outside quotes and parentheses, read as from a field's start; the text's end where it stands nowhere, for what is cut there is the whole then.
pub fn bare_at(s: &[u8], at: usize, c: u8) -> usize
    ensures value { result ≡ at + bare_at c (drop at s.now) }
    ensures lower_bound { (at ≤ result) × (result ≤ at + (length s.now - at)) }
{
    let mut seen = fields::Seen::START;
    for i in at..s.len() {
        let d = s[i];
        let next = lent::byte(s, i + 1);
        if is_bare(seen, d, next, c) {
            return i;
        }
        seen = fields::seen_after(seen, d, next);
    }
    at.max(s.len())
}

// The parts of an operand that are still to come. An empty operand has none; behind a comma there is always one, even if it is empty.
#[derive(Clone, Copy)]
pub struct Parts<'a> {
    rest: Option<&'a [u8]>,
}

impl<'a> Parts<'a> {
    // All parts of the operand.
    pub fn of(operand: &'a [u8]) -> Parts<'a>
        ensures { parts_left result ≡ parts_of operand.now }
    {
        if operand.is_empty() {
            return Parts { rest: None };
        }
        Parts {
            rest: Some(operand),
        }
    }

    // The parts from a place on at which one starts; behind the operand's end none starts.
    pub fn at(operand: &'a [u8], at: usize) -> Parts<'a>
        ensures { parts_left result ≡ parts_from operand.now at }
    {
        Parts {
            rest: operand.get(at..),
        }
    }
}

impl<'a> Iterator for Parts<'a> {
    type Item = &'a [u8];

    ghost next_gives = { YieldsFirstRef parts_left };

    ghost remaining = { item_count parts_left };

    fn next(&mut self) -> Option<&'a [u8]> {
        let rest = self.rest?;
        let end = bare_at(rest, 0, b',');
        self.rest = rest.get(end + 1..);
        Some(&rest[..end])
    }
}
