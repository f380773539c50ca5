// The fields of a line: where each begins.
#![tactic(auto)]

ghost use Rattle.std.specs.Prelude.{◌≡◌, ◌+◌, ◌-◌, ◌≤◌, ◌<◌, ◌^◌, length};
ghost use Rattle.rules.specs.Fields.{holds_spaces};
ghost use Rattle.fields.specs.Seen.{precedes, marks, closes_field, depth_after, quoted_after, seen_after};
ghost use Rattle.fields.specs.Cuts.{in_run, run_end, operand_end_at, cuts_of};

// What a scan has seen before a place: the two bytes before it (spaces at the field's start), whether a quote is open, and how many parentheses.
#[derive(Clone, Copy)]
pub struct Seen {
    pub second: u8,
    pub first: u8,
    pub quoted: bool,
    pub depth: usize,
}

impl Seen {
    // At a field's start.
    pub const START: Seen = Seen {
        second: b' ',
        first: b' ',
        quoted: false,
        depth: 0,
    };
}

// Whether `c` is one of the letters before an attribute mark.
fn precedes(c: u8) -> bool
    ensures { result ≡ precedes c }
{
    (c == b'K') | (c == b'N') | (c == b'T') | (c == b'L')
}

// Whether the byte `c` is an attribute mark, where `next` follows it (0 if nothing does).
pub fn is_mark(seen: Seen, c: u8, next: u8) -> bool
    ensures { result ≡ marks seen c next }
{
    let first = seen.first;
    let second = seen.second;
    let quoted = seen.quoted;
    let follows = chars::letter(next) | (next == b'&');
    let before = precedes(first);
    let bound = chars::letter_or_digit(second) | (second == b'&');
    (c == b'\'') & !quoted & follows & before & !bound
}

// Whether the field ends at the byte `c`.
pub fn closes_field(holds: bool, seen: Seen, c: u8) -> bool
    ensures { result ≡ closes_field holds seen c }
{
    let quoted = seen.quoted;
    let depth = seen.depth;
    (c == b' ') & !quoted & (!holds | (depth == 0))
}

// How many parentheses are open behind the byte `c`.
pub fn depth_after(seen: Seen, c: u8) -> usize
    requires { seen.depth + 1 < 2 ^ 64 }
    ensures { (result ≡ depth_after seen c) × (result ≤ seen.depth + 1) }
{
    let depth = seen.depth;
    if seen.quoted {
        return depth;
    }
    if c == b'(' {
        return depth + 1;
    }
    if c == b')' {
        if depth == 0 {
            return 0;
        }
        return depth - 1;
    }
    depth
}

// Whether a quote is open behind the byte `c`, where `next` follows it.
pub fn quoted_after(seen: Seen, c: u8, next: u8) -> bool
    ensures { result ≡ quoted_after seen c next }
{
    let quoted = seen.quoted;
    let mark = is_mark(seen, c, next);
    if (c == b'\'') & !mark {
        return !quoted;
    }
    quoted
}

// What is seen behind the byte `c`, where `next` follows it.
pub fn seen_after(seen: Seen, c: u8, next: u8) -> Seen
    requires { seen.depth + 1 < 2 ^ 64 }
    ensures { (result ≡ seen_after seen c next) × (result.depth ≤ seen.depth + 1) }
{
    let quoted = quoted_after(seen, c, next);
    let depth = depth_after(seen, c);
    let first = seen.first;
    Seen {
        second: first,
        first: c,
        quoted,
        depth,
    }
}

// Whether the byte `c` goes on a run of spaces, or of anything but spaces.
fn in_run(c: u8, spaces: bool) -> bool
    ensures { result ≡ in_run spaces c }
{
    if spaces {
        return c == b' ';
    }
    c != b' '
}

// Where the run of spaces, or of anything but spaces, that stands at `at` ends.
pub fn run_end(line: &[u8], at: usize, spaces: bool) -> usize
    ensures value { result ≡ run_end spaces line.now at }
    ensures lower_bound { (at ≤ result) × (result ≤ at + (length line.now - at)) }
{
    lent::run_end(line, at, |c| in_run(c, spaces))
}

// Where the operand that starts at `at` ends: a space outside quotes (and, if `holds`, outside parentheses), or the line's end.
pub fn operand_end(line: &[u8], at: usize, holds: bool) -> usize
    ensures value { result ≡ operand_end_at holds line.now at }
    ensures lower_bound { (at ≤ result) × (result ≤ at + (length line.now - at)) }
{
    let mut seen = Seen::START;
    for i in at..line.len() {
        let c = line[i];
        if closes_field(holds, seen, c) {
            return i;
        }
        seen = seen_after(seen, c, lent::byte(line, i + 1));
    }
    at.max(line.len())
}

// Whether parentheses hold spaces in the operand of this operation.
pub fn holds_spaces(operation: &[u8]) -> bool
    ensures { result ≡ holds_spaces operation.now }
{
    lent::equal(operation, b"AIF") || lent::equal(operation, b"SETB")
}

// Where the parts of a line begin; the name begins at 0.
#[derive(Clone, Copy)]
pub struct Cuts {
    pub gap: usize,
    pub operation: usize,
    pub space: usize,
    pub operand: usize,
    pub remarks: usize,
}

// The places of a statement's fields.
pub fn cuts_of(line: &[u8]) -> Cuts
    ensures { result ≡ cuts_of line.now }
{
    let gap = run_end(line, 0, false);
    let operation = run_end(line, gap, true);
    let space = run_end(line, operation, false);
    let operand = run_end(line, space, true);
    let holds = holds_spaces(&line[operation..space]);
    let remarks = operand_end(line, operand, holds);
    Cuts {
        gap,
        operation,
        space,
        operand,
        remarks,
    }
}
