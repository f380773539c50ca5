// Comparisons of values, and what a condition is made of: orders, relations, and truth that may have come from too long a string.
#![tactic(auto)]

ghost use Rattle.std.specs.Prelude.{◌≡◌, Bool, ℕ, List};
ghost use Rattle.text.specs.Bytes.{bytes};
ghost use Rattle.rules.specs.Values.{string_order, number_order};
ghost use Rattle.rules.specs.Values.{holds as holds_by};
ghost use Rattle.rules.specs.Lexemes.{Lex};
ghost use Rattle.rules.specs.Grammar.{Got, got, then, past_spaces, is_word, relation_at, constant_at};
ghost use Rattle.rules.specs.Grammar.{closed as closed_by};
ghost use Rattle.rules.specs.Evaluate.{Cell};
ghost use Rattle.rules.specs.Evaluate.{Truth as TruthOf};
ghost use Rattle.value_sums.specs.Answers.{toks_by};
ghost use Rattle.value_texts.specs.Held.{held_in};
ghost use Rattle.value_comparisons.specs.Orders.{order_of, relation_of, related_of};
ghost use Rattle.value_comparisons.specs.Truths.{truth_in, bytes_held, strings_held, cutting};
ghost use Rattle.value_comparisons.specs.Conditions.{tells_truth, truth_by};

use refusals::Fault;
use std::cmp::Ordering;
use value_sums::{Numbered, Read, Refused};
use value_texts::Text;

#[derive(Clone, Copy)]
pub enum Relation {
    Eq,
    Ne,
    Lt,
    Le,
    Gt,
    Ge,
}

// What a condition has come to: whether it holds, and whether a string on the way to it was over 255 bytes. Where one was, `holds` says nothing.
#[derive(Clone, Copy)]
pub struct Truth {
    pub holds: bool,
    pub over: bool,
}

// Of two strings the shorter is less; at equal length the first differing byte decides.
pub fn string_order(s: &[u8], t: &[u8]) -> Ordering
    ensures { order_of result ≡ string_order s.now t.now }
{
    match s.len().cmp(&t.len()) {
        Ordering::Equal => s.cmp(t),
        by_size => by_size,
    }
}

pub fn number_order(a: i32, b: i32) -> Ordering
    ensures { order_of result ≡ number_order a b }
{
    a.cmp(&b)
}

// Which of EQ, NE, LT, LE, GT and GE stands at a place, if one does.
pub fn relation_at(code: &[u8], at: usize) -> Option<Relation>
    ensures { (held : ℕ → Cell) → related_of result ≡ relation_at (toks_by held code.now at) }
{
    if conditions::two_letters(code, at, b'E', b'Q') {
        return Some(Relation::Eq);
    }
    if conditions::two_letters(code, at, b'N', b'E') {
        return Some(Relation::Ne);
    }
    if conditions::two_letters(code, at, b'L', b'T') {
        return Some(Relation::Lt);
    }
    if conditions::two_letters(code, at, b'L', b'E') {
        return Some(Relation::Le);
    }
    if conditions::two_letters(code, at, b'G', b'T') {
        return Some(Relation::Gt);
    }
    if conditions::two_letters(code, at, b'G', b'E') {
        return Some(Relation::Ge);
    }
    None
}

// Whether NOT, AND or OR stands at a place.
pub fn not_at(code: &[u8], at: usize) -> bool
    ensures { (held : ℕ → Cell) → result ≡ is_word (bytes "NOT") (toks_by held code.now at) }
{
    conditions::three_letters(code, at, b'N', b'O', b'T')
}

pub fn and_at(code: &[u8], at: usize) -> bool
    ensures { (held : ℕ → Cell) → result ≡ is_word (bytes "AND") (toks_by held code.now at) }
{
    conditions::three_letters(code, at, b'A', b'N', b'D')
}

pub fn or_at(code: &[u8], at: usize) -> bool
    ensures { (held : ℕ → Cell) → result ≡ is_word (bytes "OR") (toks_by held code.now at) }
{
    conditions::two_letters(code, at, b'O', b'R')
}

// Whether a relation holds of two values in this order.
pub fn holds(relation: Relation, order: Ordering) -> bool
    ensures { result ≡ holds_by (relation_of «relation») (order_of «order») }
{
    match relation {
        Relation::Eq => order.is_eq(),
        Relation::Ne => order.is_ne(),
        Relation::Lt => order.is_lt(),
        Relation::Le => order.is_le(),
        Relation::Gt => order.is_gt(),
        Relation::Ge => order.is_ge(),
    }
}

// A truth that no string had a part in.
pub fn certain(holds: bool) -> Truth
    ensures { truth_in result ≡ cutting.constant holds }
{
    Truth { holds, over: false }
}

pub fn negated(t: Truth) -> Truth
    ensures { truth_in result ≡ cutting.negated (truth_in t) }
{
    Truth {
        holds: !t.holds,
        ..t
    }
}

pub fn both(a: Truth, b: Truth) -> Truth
    ensures { truth_in result ≡ cutting.both (truth_in a) (truth_in b) }
{
    Truth {
        holds: a.holds & b.holds,
        over: a.over | b.over,
    }
}

pub fn either(a: Truth, b: Truth) -> Truth
    ensures { truth_in result ≡ cutting.either (truth_in a) (truth_in b) }
{
    Truth {
        holds: a.holds | b.holds,
        over: a.over | b.over,
    }
}

pub fn compare_numbers(relation: Relation, a: i32, b: i32) -> Truth
    ensures { truth_in result ≡ cutting.numbers (relation_of «relation») a b }
{
    certain(holds(relation, number_order(a, b)))
}

// The bytes of a string while they count.
fn bytes_of(out: &[u8], t: Text) -> &[u8]
    ensures { result.now ≡ bytes_held (held_in out.now t) }
{
    if t.over | (limits::STRING < t.size) {
        &[]
    } else {
        spans::part(out, 0, t.size)
    }
}

pub fn compare_strings(relation: Relation, left: &[u8], s: Text, right: &[u8], t: Text) -> Truth
    ensures { truth_in result ≡ strings_held (relation_of «relation») (held_in left.now s) (held_in right.now t) }
{
    let order = string_order(bytes_of(left, s), bytes_of(right, t));
    Truth {
        holds: holds(relation, order),
        over: s.over | t.over,
    }
}

// The place behind the spaces that stand at a place.
pub fn past_spaces(code: &[u8], at: usize) -> usize
    ensures { (held : ℕ → Cell) → toks_by held code.now result ≡ past_spaces (toks_by held code.now at) }
{
    grammar::past_spaces(code, at)
}

// What may have been read, and the parenthesis that closes.
pub fn closed(code: &[u8], so_far: Result<Read<Truth>, Numbered>) -> Result<Read<Truth>, Numbered>
    ensures { (held : ℕ → Cell) → truth_by (toks_by held code.now) result ≡ then (truth_by (toks_by held code.now) so_far) closed_by }
{
    value_sums::by_number(value_sums::closed(code, so_far?))
}

// What may have been read, and the spaces behind it.
pub fn after_spaces(
    code: &[u8],
    so_far: Result<Read<Truth>, Numbered>,
) -> Result<Read<Truth>, Numbered>
    ensures { (held : ℕ → Cell) → truth_by (toks_by held code.now) result ≡ then (truth_by (toks_by held code.now) so_far) (λ b x. got b (past_spaces x)) }
{
    let read = so_far?;
    Ok(Read {
        value: read.value,
        next: past_spaces(code, read.next),
    })
}

// NOT before what may have been read.
pub fn not_so(so_far: Result<Read<Truth>, Numbered>) -> Result<Read<Truth>, Numbered>
    ensures { (from : ℕ → List (Lex Cell)) → truth_by from result ≡ then (truth_by from so_far) (λ b x. got (cutting.negated b) x) }
{
    let read = so_far?;
    Ok(Read {
        value: negated(read.value),
        next: read.next,
    })
}

// AND between a truth and what may have been read behind it.
pub fn and_so(a: Truth, right: Result<Read<Truth>, Numbered>) -> Result<Read<Truth>, Numbered>
    ensures { (from : ℕ → List (Lex Cell)) → truth_by from result ≡ then (truth_by from right) (λ b x. got (cutting.both (truth_in a) b) x) }
{
    let right = right?;
    Ok(Read {
        value: both(a, right.value),
        next: right.next,
    })
}

// OR between a truth and what may have been read behind it.
pub fn or_so(a: Truth, right: Result<Read<Truth>, Numbered>) -> Result<Read<Truth>, Numbered>
    ensures { (from : ℕ → List (Lex Cell)) → truth_by from result ≡ then (truth_by from right) (λ b x. got (cutting.either (truth_in a) b) x) }
{
    let right = right?;
    Ok(Read {
        value: either(a, right.value),
        next: right.next,
    })
}

// 0 or 1, which was read from `here` up to a place.
pub fn constant(code: &[u8], here: usize, at: usize) -> Result<Read<Truth>, Refused>
    ensures { (held : ℕ → Cell) (nest : ℕ) (inner : List (Lex Cell) → Got TruthOf Cell) → tells_truth (toks_by held code.now) result ≡ constant_at cutting nest inner (toks_by held code.now here) (toks_by held code.now at) }
{
    let c = grammar::text_at(code, here);
    let is_constant = ((c == b'0') | (c == b'1')) & conditions::alone(code, here, at);
    if is_constant {
        Ok(Read {
            value: certain(c == b'1'),
            next: at,
        })
    } else {
        Err(Refused {
            fault: Fault::IllFormed,
            at: here,
        })
    }
}
