// A prototype's parameters: how many are positionals and keywords, and the keywords with their defaults as a deck has them.
#![tactic(auto)]

ghost use Rattle.std.specs.Prelude.{◌≡◌, true, ◌+◌, ◌≤◌, ◌<◌, ltb, length};
ghost use Rattle.std.specs.Option.{IfSome};
ghost use Rattle.rules.specs.Lexemes.{lexed};
ghost use Rattle.rules.specs.Calls.{divided};
ghost use Rattle.rules.specs.Library.{positional_names, keyword_names};
ghost use Rattle.deck.specs.Coding.{list_of, pair};
ghost use Rattle.deck.specs.Coders.{string};
ghost use Rattle.lent.specs.Splice.{splice};
ghost use Rattle.keywords.specs.Keywords.{positional_in, keyword_in, keyword_found, keywords_in, keywords_code};

use parts::Parts;

// Whether the part is a positional.
fn is_positional(part: &[u8]) -> bool
    ensures { result ≡ ltb 0 (length (positional_in part.now)) }
{
    if operands::has_equals(part) {
        return false;
    }
    declared::start_symbol(part).is_some()
}

// The keyword that the part is, and its default.
fn keyword_in(part: &[u8]) -> Option<(&[u8], &[u8])>
    ensures value { keyword_found result ≡ keyword_in part.now }
    ensures within { IfSome result (λ k. (length k.0.now ≤ length part.now) × (length k.1.now ≤ length part.now)) }
{
    let end = parts::bare_at(part, 0, b'=');
    if part.len() <= end {
        return None;
    }
    let name = declared::start_symbol(part)?;
    Some((name, &part[end + 1..]))
}

// Whether the part is a keyword.
fn is_keyword(part: &[u8]) -> bool
    ensures { result ≡ ltb 0 (length (keyword_in part.now)) }
{
    keyword_in(part).is_some()
}

// How many positionals the operand declares.
pub fn positional_count(operand: &[u8]) -> usize
    ensures { result ≡ length (positional_names (divided (lexed true operand.now))) }
{
    Parts::of(operand)
        .filter(|part| is_positional(part))
        .count()
}

// How many keywords the operand declares.
pub fn keyword_count(operand: &[u8]) -> usize
    ensures { result ≡ length (keyword_names (divided (lexed true operand.now))) }
{
    Parts::of(operand).filter(|part| is_keyword(part)).count()
}

// The text with its length before it, written from `at` on; answers where it ends.
fn put_string(s: &[u8], out: &mut [u8], at: usize) -> usize
    requires { (length s.now < 65536) × (at + 2 + length s.now ≤ length out.old) }
    ensures value { result ≡ at + 2 + length s.now }
    ensures out_after { out.new ≡ splice out.old at (string.put s.now) }
{
    lent::put_two(out, at, s.len());
    lent::copy(out, at + 2, s);
    at + 2 + s.len()
}

// The keyword that the part is, with its default, written from `at` on; answers where it ends.
fn put_keyword(part: &[u8], out: &mut [u8], at: usize) -> usize
    requires { (length part.now < 65536) × (at + length (keywords_code (keyword_in part.now)) ≤ length out.old) }
    ensures value { result ≡ at + length (keywords_code (keyword_in part.now)) }
    ensures out_after { out.new ≡ splice out.old at (keywords_code (keyword_in part.now)) }
{
    match keyword_in(part) {
        Some((name, default)) => {
            let next = put_string(name, out, at);
            put_string(default, out, next)
        }
        None => at,
    }
}

// The keywords of all parts, written from `at` on; answers where they end.
fn put_parts(operand: &[u8], out: &mut [u8], at: usize) -> usize
    requires { (length operand.now < 65536) × (at + length (keywords_code (keywords_in operand.now)) ≤ length out.old) }
    ensures value { result ≡ at + length (keywords_code (keywords_in operand.now)) }
    ensures out_after { out.new ≡ splice out.old at (keywords_code (keywords_in operand.now)) }
{
    let mut to = at;
    for part in Parts::of(operand) {
        to = put_keyword(part, out, to);
    }
    to
}

// The keywords with their defaults, counted, written from `at` on; answers where they end.
pub fn put_keywords(operand: &[u8], out: &mut [u8], at: usize) -> usize
    requires { (length operand.now < 65536) × (at + length ((list_of (pair string string)).put (keyword_names (divided (lexed true operand.now)))) ≤ length out.old) }
    ensures value { result ≡ at + length ((list_of (pair string string)).put (keyword_names (divided (lexed true operand.now)))) }
    ensures out_after { out.new ≡ splice out.old at ((list_of (pair string string)).put (keyword_names (divided (lexed true operand.now)))) }
{
    let count = keyword_count(operand);
    lent::put_two(out, at, count);
    put_parts(operand, out, at + 2)
}
