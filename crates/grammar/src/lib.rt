// Whether a field is well formed, over its lexeme bytes and the kinds of its slots. Those are two slices and no struct: a third of the functions promise
// something for any kinds, or look at the bytes alone.
#![tactic(auto)]

ghost use Rattle.std.specs.Prelude.{◌≡◌, Bool, not, List, [], ◌∷◌, ℕ, ◌+◌, ◌<◌, eqb, length, get_or};
ghost use Rattle.std.proofs.Math.Option.{some};
ghost use Rattle.text.specs.Bytes.{Bytes, member};
ghost use Rattle.rules.specs.Fields.{is_empty};
ghost use Rattle.rules.specs.Choice.{choose};
ghost use Rattle.rules.specs.Lexemes.{Lex};
ghost use Rattle.rules.specs.Grammar.{Kind as Meant, Got, got, plain, starts_mark, is_attribute, then, broken, decimal_number, deeper, referred, term, product, arithmetic, piece, add_piece, text_within, is_doubled, add_quoted, substringed, string, string_within, past_spaces};
ghost use Rattle.rules.specs.Grammar.{closed as closed_by};
ghost use Rattle.rules.specs.Form.{Nothing, form};
ghost use Rattle.kinds.specs.Kinds.{table_of, kind_for};
ghost use Rattle.kinds.specs.Kinds.{kind_of as meant};
ghost use Rattle.grammar.specs.Tokens.{kind_of, lex_of, toks_at, tells};
ghost use Rattle.grammar.specs.Kinds.{number_of, kind_shown, kind_first, table_numbered};
ghost use Rattle.grammar.specs.Operands.{Operand, Tells, subscribed, expected, past_period, quote_goes, quoted_run, strings_by};

use kinds::{Kind, Set, Stand};

// Why what was read is not well formed, and from which place on: it is ill-formed, or its parentheses go too deep.
#[derive(Clone, Copy, PartialEq, Eq)]
pub enum Fault {
    Broken(usize),
    Deep(usize),
}

// The place that reading comes to.
pub type Formed = Result<usize, Fault>;

// The byte of text at a place; 0 where none stands there, as in the rules' `plain`: no byte that the grammar asks for is 0.
pub fn text_at(code: &[u8], at: usize) -> u8
    ensures { (kinds : Bytes) → result ≡ plain (toks_at kinds code.now at) }
{
    let b = lent::byte(code, at);
    if b < 127 { b } else { 0 }
}

// Whether an attribute mark stands at a place.
fn mark_at(code: &[u8], at: usize) -> bool
    ensures { (kinds : Bytes) → result ≡ starts_mark (toks_at kinds code.now at) }
{
    lent::byte(code, at) == 127
}

// Whether K', N' or T' stands at a place: the letter `c`, and a mark.
pub fn attribute_at(code: &[u8], c: u8, at: usize) -> bool
    requires { 0 < c }
    ensures { (kinds : Bytes) → result ≡ is_attribute c (toks_at kinds code.now at) }
{
    if text_at(code, at) != c {
        return false;
    }
    mark_at(code, at + 1)
}

// The kind that has this number in a deck; unknown where none has.
#[tactic(auto, unfolding(crate::specs::Tokens::kind_of, rules::specs::Choice::choose))]
pub fn kind_numbered(n: u8) -> Kind
    ensures { result ≡ kind_for (kind_of n) }
{
    match n {
        0 => Kind::Parameter,
        1 => Kind::Symbol(Set::A),
        2 => Kind::Symbol(Set::B),
        3 => Kind::Symbol(Set::C),
        _ => Kind::Unknown,
    }
}

// The kind of a variable symbol by its number among all kinds; unknown where it is none.
pub fn kind_meant(number: u8) -> Kind
    ensures { (k : Meant) → number ≡ number_of k → result ≡ kind_for k }
{
    match number {
        0..=4 => kind_numbered(number),
        5 => Kind::List,
        6 => Kind::Index,
        7 => Kind::Section,
        _ => Kind::Unknown,
    }
}

// Where a reference stands by its number: as a term, after K', after N', after T'; in text, whatever other number it is.
pub fn stand_numbered(number: u8) -> Stand
    ensures { table_of result ≡ table_numbered number }
{
    match number {
        0 => Stand::Term,
        1 => Stand::AfterK,
        2 => Stand::AfterN,
        3 => Stand::AfterT,
        _ => Stand::Text,
    }
}

// The kind of a slot; unknown where there is no such slot.
#[tactic(auto, unfolding(crate::specs::Tokens::kind_of, rules::specs::Choice::choose))]
fn slot_kind(kinds: &[u8], i: usize) -> Kind
    ensures { result ≡ kind_for (kind_of (get_or kinds.now i 4)) }
{
    if i < kinds.len() {
        kind_numbered(kinds[i])
    } else {
        Kind::Unknown
    }
}

// The kind of the variable symbol that this byte stands for.
#[tactic(auto, unfolding(crate::specs::Tokens::lex_of, crate::specs::Kinds::kind_shown, rules::specs::Choice::choose))]
fn kind_shown(kinds: &[u8], b: u8) -> Option<Kind>
    ensures { result ≡ kind_shown (lex_of kinds.now b) }
{
    match b {
        128..=223 => Some(slot_kind(kinds, b as usize - 128)),
        224 => Some(Kind::List),
        225 => Some(Kind::Index),
        226 => Some(Kind::Section),
        _ => None,
    }
}

// The kind of the variable symbol at a place.
pub fn kind_at(kinds: &[u8], code: &[u8], at: usize) -> Option<Kind>
    ensures { result ≡ kind_first (toks_at kinds.now code.now at) }
{
    kind_shown(kinds, lent::byte(code, at))
}

// The place behind this byte, where it stands there.
pub fn after_byte(code: &[u8], at: usize, c: u8) -> Option<usize>
    requires { 0 < c }
    ensures { Operand (λ x. eqb (plain x) c) 1 code.now at result }
{
    if text_at(code, at) == c {
        Some(at + 1)
    } else {
        None
    }
}

// The place behind one of these two bytes, where one stands there.
pub fn after_either(code: &[u8], at: usize, a: u8, b: u8) -> Option<usize>
    requires { (0 < a) × (0 < b) }
    ensures { Operand (λ x. member (plain x) (a ∷ b ∷ [])) 1 code.now at result }
{
    let c = text_at(code, at);
    if (c == a) | (c == b) {
        Some(at + 1)
    } else {
        None
    }
}

// The place behind this byte, which must stand there.
fn expected(code: &[u8], at: usize, c: u8) -> Formed
    requires { 0 < c }
    ensures { (kinds : Bytes) → Tells (expected c) kinds code.now at result }
{
    after_byte(code, at, c).ok_or(Fault::Broken(at))
}

// The parenthesis that closes a pair.
const CLOSING: u8 = b')';

// The place behind the parenthesis that closes, which must stand there.
pub fn closed(code: &[u8], at: usize) -> Formed
    ensures { (kinds : Bytes) → Tells (closed_by tt) kinds code.now at result }
{
    expected(code, at, CLOSING)
}

// What was read, and the parenthesis that closes; a refusal stays one.
pub fn closed_so(code: &[u8], so_far: Formed) -> Formed
    ensures { (kinds : Bytes) → tells (toks_at kinds code.now) result ≡ then (tells (toks_at kinds code.now) so_far) closed_by }
{
    closed(code, so_far?)
}

// The largest number that can be written.
const LARGEST: u64 = 2147483647;

// A decimal number. A loop over what is read: it ends at the first byte that is no digit, and at the first number out of range.
fn decimal(code: &[u8], at: usize) -> Formed
    ensures { (kinds : Bytes) (inner : List (Lex Meant) → Got Nothing Meant) → Tells (decimal_number form inner) kinds code.now at result }
{
    let mut n: u64 = 0;
    let mut here = at;
    let mut c = text_at(code, here);
    while chars::digit(c) {
        n = n * 10 + u64::from(c - b'0');
        if LARGEST < n {
            return Err(Fault::Broken(at));
        }
        here += 1;
        c = text_at(code, here);
    }
    if chars::letter(c) {
        return Err(Fault::Broken(at));
    }
    Ok(here)
}

// Whether a reference of this kind may stand there, with no subscript where it is bare.
#[tactic(auto, unfolding(rules::specs::Grammar::as_term, rules::specs::Grammar::after_k, rules::specs::Grammar::after_n, rules::specs::Grammar::after_t, rules::specs::Grammar::in_text))]
pub fn takes(stand: Stand, kind: Kind, bare: bool) -> bool
    ensures { result ≡ table_of stand (meant kind) bare }
{
    match stand {
        Stand::Term => match kind {
            Kind::Parameter | Kind::Symbol(Set::A) | Kind::Symbol(Set::C) | Kind::Index => true,
            Kind::List => !bare,
            Kind::Symbol(Set::B) | Kind::Section | Kind::Unknown => false,
        },
        Stand::AfterK => match kind {
            Kind::Parameter | Kind::Symbol(Set::C) | Kind::Index | Kind::Section => true,
            Kind::List => !bare,
            Kind::Symbol(Set::A) | Kind::Symbol(Set::B) | Kind::Unknown => false,
        },
        Stand::AfterN => match kind {
            Kind::Parameter | Kind::List => true,
            Kind::Symbol(_) | Kind::Index | Kind::Section | Kind::Unknown => false,
        },
        Stand::AfterT => match kind {
            Kind::Parameter => true,
            Kind::List => !bare,
            Kind::Symbol(_) | Kind::Index | Kind::Section | Kind::Unknown => false,
        },
        Stand::Text => match kind {
            Kind::Parameter | Kind::Symbol(_) | Kind::Index | Kind::Section => true,
            Kind::List => !bare,
            Kind::Unknown => false,
        },
    }
}

// What was read up to a place, where it may stand here; else the term at `here` is ill-formed.
#[tactic(auto, unfolding(crate::specs::Tokens::tells, rules::specs::Grammar::broken, rules::specs::Choice::choose))]
fn taken(fits: bool, here: usize, at: usize) -> Formed
    ensures { (from : ℕ → List (Lex Meant)) → tells from result ≡ choose fits (got tt (from at)) (broken (from here)) }
{
    if fits {
        Ok(at)
    } else {
        Err(Fault::Broken(here))
    }
}

// What stands behind an opening parenthesis, where `nest` more may be opened.
#[cycle(arithmetic_inner_product_referred_subscripts_term)]
fn inner(kinds: &[u8], code: &[u8], at: usize, nest: usize) -> Formed
    ensures { Tells (deeper form nest) kinds.now code.now at result }
{
    if nest == 0 {
        Err(Fault::Deep(at))
    } else {
        arithmetic(kinds, code, at, nest - 1)
    }
}

// The subscripts of a reference of this kind, from their opening parenthesis on.
#[cycle(arithmetic_inner_product_referred_subscripts_term)]
fn subscripts(kinds: &[u8], code: &[u8], at: usize, nest: usize, kind: Kind) -> Formed
    requires { at < length code.now }
    ensures { Tells (subscribed (deeper form nest) (meant kind)) kinds.now code.now at result }
{
    match kind {
        Kind::Parameter => closed(code, inner(kinds, code, at + 1, nest)?),
        Kind::List => {
            let first = inner(kinds, code, at + 1, nest)?;
            match after_byte(code, first, b',') {
                None => closed(code, first),
                Some(second) => closed(code, inner(kinds, code, second, nest)?),
            }
        }
        Kind::Symbol(_) | Kind::Index | Kind::Section | Kind::Unknown => Err(Fault::Broken(at)),
    }
}

// A reference that may stand there, as the term that starts at `here`.
#[cycle(arithmetic_inner_product_referred_subscripts_term)]
pub fn referred(
    kinds: &[u8],
    code: &[u8],
    at: usize,
    nest: usize,
    here: usize,
    stand: Stand,
) -> Formed
    ensures { Tells (referred form (deeper form nest) (table_of stand) (λ r. some tt) (toks_at kinds.now code.now here)) kinds.now code.now at result }
{
    let Some(kind) = kind_at(kinds, code, at) else {
        return Err(Fault::Broken(at));
    };
    if text_at(code, at + 1) == b'(' {
        let end = subscripts(kinds, code, at + 1, nest, kind)?;
        return taken(takes(stand, kind, false), here, end);
    }
    taken(takes(stand, kind, true), here, at + 1)
}

#[cycle(arithmetic_inner_product_referred_subscripts_term)]
fn term(kinds: &[u8], code: &[u8], at: usize, nest: usize) -> Formed
    ensures { Tells (term form (deeper form nest)) kinds.now code.now at result }
{
    let c = text_at(code, at);
    if c == b'(' {
        return closed(code, inner(kinds, code, at + 1, nest)?);
    }
    if chars::digit(c) {
        return decimal(code, at);
    }
    if attribute_at(code, b'K', at) {
        return referred(kinds, code, at + 2, nest, at, Stand::AfterK);
    }
    if attribute_at(code, b'N', at) {
        return referred(kinds, code, at + 2, nest, at, Stand::AfterN);
    }
    referred(kinds, code, at, nest, at, Stand::Term)
}

#[cycle(arithmetic_inner_product_referred_subscripts_term)]
fn product(kinds: &[u8], code: &[u8], at: usize, nest: usize) -> Formed
    ensures { Tells (product form (deeper form nest)) kinds.now code.now at result }
{
    let mut here = term(kinds, code, at, nest)?;
    while let Some(next) = after_either(code, here, b'*', b'/') {
        here = term(kinds, code, next, nest)?;
    }
    Ok(here)
}

// An arithmetic expression in which `nest` pairs of parentheses may be open at once.
#[cycle(arithmetic_inner_product_referred_subscripts_term)]
pub fn arithmetic(kinds: &[u8], code: &[u8], at: usize, nest: usize) -> Formed
    ensures { Tells (arithmetic form nest) kinds.now code.now at result }
{
    let mut here = product(kinds, code, at, nest)?;
    while let Some(next) = after_either(code, here, b'+', b'-') {
        here = product(kinds, code, next, nest)?;
    }
    Ok(here)
}

// The place behind the period that is removed after a reference in text.
fn past_period(code: &[u8], at: usize) -> usize
    ensures { (kinds : Bytes) → got tt (toks_at kinds code.now result) ≡ past_period tt (toks_at kinds code.now at) }
{
    after_byte(code, at, b'.').unwrap_or(at)
}

// One piece of a text.
fn piece(kinds: &[u8], code: &[u8], at: usize, nest: usize) -> Formed
    ensures { Tells (piece form (deeper form nest)) kinds.now code.now at result }
{
    if code.len() <= at {
        return Err(Fault::Broken(at));
    }
    if code[at] < 128 {
        return Ok(at + 1);
    }
    let end = referred(kinds, code, at, nest, at, Stand::Text)?;
    Ok(past_period(code, end))
}

// A text to its end. A loop over what is read: each piece says where the next stands, or is refused.
pub fn text(kinds: &[u8], code: &[u8], at: usize, nest: usize) -> Formed
    ensures { Tells (text_within form nest) kinds.now code.now at result }
{
    let mut here = at;
    while here < code.len() {
        here = piece(kinds, code, here, nest)?;
    }
    Ok(here)
}

// Whether two apostrophes stand at a place.
fn doubled(code: &[u8], at: usize) -> bool
    ensures { (kinds : Bytes) (inner : List (Lex Meant) → Got Nothing Meant) → result ≡ is_doubled form inner (toks_at kinds code.now at) }
{
    if text_at(code, at) != b'\'' {
        return false;
    }
    text_at(code, at + 1) == b'\''
}

// Whether what stands between quotes goes on.
fn more_quoted(code: &[u8], at: usize) -> bool
    ensures { (kinds : Bytes) (inner : List (Lex Meant) → Got Nothing Meant) → result ≡ quote_goes inner (toks_at kinds code.now at) }
{
    doubled(code, at) | !((code.len() <= at) | (text_at(code, at) == b'\''))
}

// Two apostrophes, or a piece.
fn quoted_piece(kinds: &[u8], code: &[u8], at: usize, nest: usize) -> Formed
    ensures { Tells (λ x. add_quoted form (deeper form nest) (got tt x)) kinds.now code.now at result }
{
    if doubled(code, at) {
        return Ok(at + 2);
    }
    piece(kinds, code, at, nest)
}

// What stands between quotes, up to the quote that closes it. A loop over what is read, as `text` is.
fn quoted(kinds: &[u8], code: &[u8], at: usize, nest: usize) -> Formed
    ensures { Tells (quoted_run (deeper form nest)) kinds.now code.now at result }
{
    let mut here = at;
    while more_quoted(code, here) {
        here = quoted_piece(kinds, code, here, nest)?;
    }
    Ok(here)
}

// The start and the count behind a string.
fn substring(kinds: &[u8], code: &[u8], at: usize, nest: usize) -> Formed
    ensures { (here : List (Lex Meant)) → Tells (substringed form (deeper form nest) here tt) kinds.now code.now at result }
{
    match after_byte(code, at, b'(') {
        None => Ok(at),
        Some(first) => {
            let start = inner(kinds, code, first, nest)?;
            let second = expected(code, start, b',')?;
            closed(code, inner(kinds, code, second, nest)?)
        }
    }
}

// A quoted string.
fn string(kinds: &[u8], code: &[u8], at: usize, nest: usize) -> Formed
    ensures { Tells (string form (deeper form nest)) kinds.now code.now at result }
{
    let start = expected(code, at, b'\'')?;
    let end = quoted(kinds, code, start, nest)?;
    substring(kinds, code, expected(code, end, b'\'')?, nest)
}

// Strings joined by periods.
fn strings(kinds: &[u8], code: &[u8], at: usize, nest: usize) -> Formed
    ensures { Tells (strings_by (deeper form nest)) kinds.now code.now at result }
{
    let mut here = string(kinds, code, at, nest)?;
    while let Some(next) = after_byte(code, here, b'.') {
        here = string(kinds, code, next, nest)?;
    }
    Ok(here)
}

// A string expression.
pub fn characters(kinds: &[u8], code: &[u8], at: usize, nest: usize) -> Formed
    ensures { Tells (string_within form nest) kinds.now code.now at result }
{
    if attribute_at(code, b'T', at) {
        return referred(kinds, code, at + 2, nest, at, Stand::AfterT);
    }
    strings(kinds, code, at, nest)
}

// The place behind the spaces that stand at a place. A loop, lexeme by lexeme as the rules' `past_spaces` is: a run of bytes would need a law that leads back to it.
pub fn past_spaces(code: &[u8], at: usize) -> usize
    ensures { (kinds : Bytes) → toks_at kinds code.now result ≡ past_spaces (toks_at kinds code.now at) }
{
    let mut here = at;
    while text_at(code, here) == b' ' {
        here += 1;
    }
    here
}
