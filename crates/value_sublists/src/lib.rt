// Sublists: an operand's entries where they stand in it, their number, and an operand's type.
#![tactic(auto)]

ghost use Rattle.std.specs.Prelude.{◌≡◌, Bool, [], ◌∷◌, ℕ, ◌+◌, ◌-◌, ◌≤◌, ◌<◌, ◌^◌, length, IfSome};
ghost use Rattle.rules.specs.Values.{type_of, entry, entries_of, number_of_entries};
ghost use Rattle.value_sublists.specs.Entries.{edges, passed_by, cut_in, cut_by, part_in, part_of};

// Where a scan of a sublist stands: so many entries have ended, the next starts at `start`; the wanted one stands at `at` with its size, if it has ended.
#[derive(Clone, Copy)]
struct Passed {
    count: usize,
    start: usize,
    at: usize,
    size: usize,
}

// A part of an operand, or of a string: so many bytes from a place on, as far as it has them.
#[derive(Clone, Copy)]
pub struct Part {
    pub at: usize,
    pub size: usize,
}

// A sublist's entries: how many there are, and where the one that was asked for stands.
#[derive(Clone, Copy)]
struct Entries {
    count: usize,
    wanted: Part,
}

// Whether the byte `c` is `b`, outside quotes and inside one pair of parentheses.
fn is_edge(seen: fields::Seen, c: u8, b: u8) -> bool
    ensures { result ≡ edges seen c b }
{
    (c == b) & !seen.quoted & (seen.depth == 1)
}

// What has passed behind place `i`, at which an entry ends if `ends`; the one wanted is `n`.
fn past_entry(so_far: Passed, n: usize, i: usize, ends: bool) -> Passed
    requires { (so_far.start ≤ i) × (so_far.count ≤ i) × (i + 1 < 2 ^ 64) }
    ensures { result ≡ passed_by n i ends so_far }
{
    if !ends {
        return so_far;
    }
    let count = so_far.count + 1;
    if so_far.count == n {
        return Passed {
            count,
            start: i + 1,
            at: so_far.start,
            size: i - so_far.start,
        };
    }
    Passed {
        count,
        start: i + 1,
        ..so_far
    }
}

// The entries of a sublist, and where its entry `n` stands, the first being 0; nothing stands behind the last. None of an operand that is no sublist.
fn entries_of(s: &[u8], n: usize) -> Option<Entries>
    ensures { cut_in s.now result ≡ cut_by n (entries_of s.now) }
{
    if lent::byte(s, 0) != b'(' {
        return None;
    }
    let mut seen = fields::Seen {
        second: b' ',
        first: b'(',
        quoted: false,
        depth: 1,
    };
    let mut so_far = Passed {
        count: 0,
        start: 1,
        at: 0,
        size: 0,
    };
    for i in 1..s.len() {
        let c = s[i];
        if is_edge(seen, c, b')') {
            if i + 1 < s.len() {
                return None;
            }
            let last = past_entry(so_far, n, i, true);
            return Some(Entries {
                count: last.count,
                wanted: Part {
                    at: last.at,
                    size: last.size,
                },
            });
        }
        let divides = is_edge(seen, c, b',');
        so_far = past_entry(so_far, n, i, divides);
        let next = lent::byte(s, i + 1);
        seen = fields::seen_after(seen, c, next);
    }
    None
}

// The number of an operand's entries: 1 if it is no sublist, 0 if it is empty.
pub fn entry_count(s: &[u8]) -> usize
    ensures { result ≡ number_of_entries s.now }
{
    if s.is_empty() {
        return 0;
    }
    match entries_of(s, 0) {
        Some(entries) => entries.count,
        None => 1,
    }
}

// Where entry `n` of an operand stands, if `n` is not below 1: of one that is no sublist, entry 1 is all of it; an entry that does not stand there is empty.
pub fn entry_place(s: &[u8], n: i32) -> Option<Part>
    ensures { part_in s.now result ≡ entry s.now n }
{
    if n < 1 {
        return None;
    }
    let before = n as usize - 1;
    match entries_of(s, before) {
        Some(entries) => Some(entries.wanted),
        None if before == 0 => Some(Part {
            at: 0,
            size: s.len(),
        }),
        None => Some(Part { at: 0, size: 0 }),
    }
}

// Entry `n` of an operand, as `entry_place` finds it.
pub fn entry_of(s: &[u8], n: i32) -> Option<&[u8]>
    ensures { (part_of result ≡ entry s.now n) × IfSome result (λ t. length t.now ≤ length s.now) }
{
    let part = entry_place(s, n)?;
    Some(spans::part(s, part.at, part.size))
}

// An operand's type: O when empty, N when it is a number, else U.
pub fn type_of(s: &[u8]) -> u8
    ensures { (result ∷ []) ≡ type_of s.now }
{
    if s.is_empty() {
        return b'O';
    }
    match value_sums::digits_in(s) {
        Some(_) => b'N',
        None => b'U',
    }
}
