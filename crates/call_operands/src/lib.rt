// The operands of a call: a field divided at its commas, the positionals first, then the keywords.
#![tactic(auto)]

ghost use Rattle.std.specs.Prelude.{◌≡◌, true, false, map, drop, List, length, ◌+◌, ◌<◌, ◌≤◌, ◌^◌};
ghost use Rattle.std.specs.Iterator.{YieldsFirstBy};
ghost use Rattle.text.specs.Bytes.{Bytes, same};
ghost use Rattle.rules.specs.Limits.{name_limit};
ghost use Rattle.rules.specs.Lexemes.{Lex, lexed, is_name};
ghost use Rattle.rules.specs.Calls.{has_equals};
ghost use Rattle.rules.specs.Machine.{written_operands};
ghost use Rattle.parts.specs.Parts.{parts_of, parts_left, parts_from};
ghost use Rattle.call_operands.specs.Cuts.{IsCut};
ghost use Rattle.call_operands.specs.Calling.{name_of, named_among, may_stand, are_operands, leading, keyword_in, operands_in};

use parts::Parts;

// What stands before a part's `=`, and behind it; all of the part and nothing where it has none.
pub fn keyword_in(part: &[u8]) -> (&[u8], &[u8])
    ensures { (result.0.now, result.1.now) ≡ keyword_in part.now }
{
    let end = parts::bare_at(part, 0, b'=');
    let behind = (end + 1).min(part.len());
    (&part[..end], &part[behind..])
}

// Parts in turn, whose lexemes are told and cut in one way: those of a written operand by its bytes, those of a body's field by its codes.
pub trait Divides<'a>: Copy {
    ghost symbol: { Type 0 };

    ghost lexemes: { Bytes → List (Lex symbol) };

    ghost left: { Self → List (List (Lex symbol)) };

    // The next part, if one is left.
    fn next_part(&mut self) -> Option<&'a [u8]>
        ensures { YieldsFirstBy (λ part. lexemes part.now) left self.old result self.new };

    // Where the first bare `=` of a part stands; its length where none does.
    fn equals_in(part: &[u8]) -> usize
        ensures { IsCut lexemes part.now result };
}

// Whether the part has `=` outside quotes and parentheses.
pub fn has_equals<'a, P: Divides<'a>>(part: &[u8]) -> bool
    ensures { result ≡ has_equals (P.lexemes part.now) }
{
    P::equals_in(part) < part.len()
}

// Whether the part's keyword has this name.
fn is_named<'a, P: Divides<'a>>(part: &[u8], name: &[u8]) -> bool
    requires { is_name name_limit name.now ≡ true }
    ensures { result ≡ same (name_of (P.lexemes part.now)) name.now }
{
    let end = P::equals_in(part);
    lent::equal(&part[..end], name)
}

// Whether one of these parts has a keyword of this name.
fn named_among<'a, P: Divides<'a>>(parts: P, name: &[u8]) -> bool
    requires { is_name name_limit name.now ≡ true }
    ensures { result ≡ named_among name.now (P.left parts) }
{
    let mut rest = parts;
    while let Some(part) = rest.next_part() {
        if is_named::<P>(part, name) {
            return true;
        }
    }
    false
}

// Whether the part may stand before the parts of `rest`, where `keywords` says that one stood before it.
fn may_stand<'a, P: Divides<'a>>(part: &[u8], rest: P, keywords: bool) -> bool
    ensures { result ≡ may_stand keywords (P.lexemes part.now) (P.left rest) }
{
    let end = P::equals_in(part);
    if end == part.len() {
        return !keywords;
    }
    if !statements::is_name(&part[..end], 7) {
        return false;
    }
    if has_equals::<P>(&part[end + 1..]) {
        return false;
    }
    !named_among(rest, &part[..end])
}

// Whether the parts are positionals, and then keywords of which none is repeated.
pub fn are_operands<'a, P: Divides<'a>>(parts: P) -> bool
    ensures { result ≡ are_operands false (P.left parts) }
{
    let mut rest = parts;
    let mut keywords = false;
    while let Some(part) = rest.next_part() {
        if !may_stand(part, rest, keywords) {
            return false;
        }
        keywords = has_equals::<P>(part);
    }
    true
}

// How many positionals stand first.
pub fn positional_count<'a, P: Divides<'a>>(parts: P) -> usize
    requires { length (P.left parts) < 2 ^ 64 }
    ensures { result ≡ leading (P.left parts) }
{
    let mut rest = parts;
    let mut count: usize = 0;
    while let Some(part) = rest.next_part() {
        if has_equals::<P>(part) {
            return count;
        }
        count += 1;
    }
    count
}

// The parts behind the first `number` ones.
pub fn behind<'a, P: Divides<'a>>(parts: P, number: usize) -> P
    ensures { P.left result ≡ drop number (P.left parts) }
{
    let mut rest = parts;
    for _ in 0..number {
        let Some(_) = rest.next_part() else {
            return rest;
        };
    }
    rest
}

impl<'a> Divides<'a> for Parts<'a> {
    ghost symbol = { Bytes };

    ghost lexemes = { lexed true };

    ghost left = { λ parts. map (lexed true) (parts_left parts) };

    fn next_part(&mut self) -> Option<&'a [u8]>
        ensures { YieldsFirstBy (λ part. lexed true part.now) (λ parts. map (lexed true) (parts_left parts)) self.old result self.new }
    {
        self.next()
    }

    fn equals_in(part: &[u8]) -> usize
        ensures { IsCut (lexed true) part.now result }
    {
        parts::bare_at(part, 0, b'=')
    }
}

// How many parts of the operand are positional, where the values are the written bytes; the others are keywords. `None` where the parts break the call rules.
pub fn divide(operand: &[u8]) -> Option<usize>
    ensures { operands_in operand.now result ≡ written_operands operand.now }
{
    if !declared::is_plain(operand) {
        return None;
    }
    if !declared::pairs_up(operand) {
        return None;
    }
    let parts = Parts::of(operand);
    if !are_operands(parts) {
        return None;
    }
    Some(positional_count(parts))
}

// The parts behind the first `number` ones.
pub fn parts_behind(operand: &[u8], number: usize) -> Parts
    ensures { parts_left result ≡ drop number (parts_of operand.now) }
{
    behind(Parts::of(operand), number)
}

// Where the part of this number starts; a place behind the operand's end where there is none.
pub fn part_at(operand: &[u8], number: usize) -> usize
    ensures result_value { parts_from operand.now result ≡ drop number (parts_of operand.now) }
    ensures upper_bound { result ≤ length operand.now + 1 }
{
    if operand.is_empty() {
        return 1;
    }
    let mut at = 0;
    for _part in 0..number {
        if operand.len() < at {
            return at;
        }
        at = parts::bare_at(operand, at, b',') + 1;
    }
    at
}
