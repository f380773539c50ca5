// What one part of an operand is: a variable symbol, a text that may stand as a default, a keyword with its default.
#![tactic(auto)]

ghost use Rattle.std.specs.Prelude.{◌≡◌, Bool, true, ◌≤◌, ◌<◌, ltb, length};
ghost use Rattle.rules.specs.Choice.{every};
ghost use Rattle.rules.specs.Lexemes.{lexed, is_plain, outside};
ghost use Rattle.rules.specs.Calls.{pair_up};
ghost use Rattle.rules.specs.Library.{start_symbol, is_one_symbol};
ghost use Rattle.rules.specs.Faults.{has_long_symbol, is_default, is_good_part};
ghost use Rattle.declared.specs.Declared.{start_length, found, piece_length};

// The name of the variable symbol that the text starts with.
pub fn start_symbol(s: &[u8]) -> Option<&[u8]>
    ensures { (q : Bool) → found result ≡ start_symbol (lexed q s.now) }
{
    let first = lent::byte(s, 0);
    let second = lent::byte(s, 1);
    if (first == b'&') & chars::letter(second) {
        let end = chars::symbol_end(s, 2);
        return Some(&s[1..end]);
    }
    None
}

// How many bytes the piece has that stands first: a pair of ampersands, a variable symbol, or a byte.
fn piece_length(s: &[u8]) -> usize
    requires { 0 < length s.now }
    ensures value { result ≡ piece_length s.now }
    ensures within { (0 < result) × (result ≤ length s.now) }
{
    let second = lent::byte(s, 1);
    if (s[0] == b'&') & (second == b'&') {
        return 2;
    }
    match start_symbol(s) {
        Some(name) => name.len() + 1,
        None => 1,
    }
}

// Whether the text is one variable symbol.
pub fn is_one_symbol(s: &[u8]) -> bool
    ensures { (q : Bool) → result ≡ is_one_symbol (lexed q s.now) }
{
    match start_symbol(s) {
        Some(name) => name.len() + 1 == s.len(),
        None => false,
    }
}

// Whether the variable symbol that the text starts with is too long.
fn starts_long(s: &[u8]) -> bool
    ensures { result ≡ ltb 7 (start_length s.now) }
{
    match start_symbol(s) {
        Some(name) => name.len() > 7,
        None => false,
    }
}

// Whether a variable symbol of the text is too long.
pub fn has_long(s: &[u8]) -> bool
    ensures { (q : Bool) → result ≡ has_long_symbol (lexed q s.now) }
{
    // (What a piece is, and its size, is told by all that follows it: an iterator over pieces would give the rests that this goes through.)
    let mut rest = s;
    while !rest.is_empty() {
        if starts_long(rest) {
            return true;
        }
        rest = &rest[piece_length(rest)..];
    }
    false
}

// Whether the text has no variable symbol, and no ampersand left over.
pub fn is_plain(s: &[u8]) -> bool
    ensures { (q : Bool) → result ≡ every is_plain (lexed q s.now) }
{
    // (As in `has_long`: each test looks behind the piece.)
    let mut rest = s;
    while !rest.is_empty() {
        let second = lent::byte(rest, 1);
        if (rest[0] == b'&') & (second != b'&') {
            return false;
        }
        rest = &rest[piece_length(rest)..];
    }
    true
}

// Whether the quotes and parentheses of the text pair.
pub fn pairs_up(s: &[u8]) -> bool
    ensures { result ≡ pair_up outside (lexed true s.now) }
{
    let mut seen = fields::Seen::START;
    for (i, &d) in s.iter().enumerate() {
        let next = lent::byte(s, i + 1);
        if parts::is_bare(seen, d, next, b')') {
            return false;
        }
        seen = fields::seen_after(seen, d, next);
    }
    let quoted = seen.quoted;
    let depth = seen.depth;
    !quoted & (depth == 0)
}

// Whether the text may stand as a keyword's default.
pub fn is_default(s: &[u8]) -> bool
    ensures { result ≡ is_default (lexed true s.now) }
{
    let end = parts::bare_at(s, 0, b'=');
    is_plain(s) & pairs_up(s) & (end == s.len())
}

// Whether the text is a variable symbol, or one with `=` and a default.
pub fn is_good_part(s: &[u8]) -> bool
    ensures { result ≡ is_good_part (lexed true s.now) }
{
    let end = parts::bare_at(s, 0, b'=');
    if !is_one_symbol(&s[..end]) {
        return false;
    }
    if end == s.len() {
        return true;
    }
    is_default(&s[end + 1..])
}
