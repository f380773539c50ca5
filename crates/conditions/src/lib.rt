// Whether a condition is well formed, over its lexeme bytes and the kinds of its slots, two slices as in `grammar`.
#![tactic(auto)]

ghost use Rattle.std.specs.Prelude.{◌≡◌, true, List, [], ◌∷◌, ℕ, suc, eqb, length};
ghost use Rattle.text.specs.Bytes.{Bytes, bytes};
ghost use Rattle.text.specs.Characters.{letter_or_digit};
ghost use Rattle.rules.specs.Lexemes.{Lex};
ghost use Rattle.rules.specs.Grammar.{Kind as Meant, Got, got, then, past_spaces, is_word, compared_strings, constant_at, compared_numbers, arithmetic, string_within, is_flag, element, spaced, negation, conjunction, disjunction, deeper_condition, condition};
ghost use Rattle.rules.specs.Form.{Nothing, form};
ghost use Rattle.grammar.specs.Tokens.{toks_at, tells};
ghost use Rattle.grammar.specs.Operands.{Operand, Tells};
ghost use Rattle.conditions.specs.Words.{is_relation};

use grammar::{Fault, Formed};
use kinds::{Kind, Set, Stand};

// Whether the word at a place is these two letters.
pub fn two_letters(code: &[u8], at: usize, a: u8, b: u8) -> bool
    requires { (letter_or_digit a ≡ true) × (letter_or_digit b ≡ true) }
    ensures { (kinds : Bytes) → result ≡ is_word (a ∷ b ∷ []) (toks_at kinds code.now at) }
{
    if grammar::text_at(code, at) != a {
        return false;
    }
    let second = at + 1;
    if grammar::text_at(code, second) != b {
        return false;
    }
    !chars::letter_or_digit(grammar::text_at(code, second + 1))
}

// Whether the word at a place is these three letters.
pub fn three_letters(code: &[u8], at: usize, a: u8, b: u8, c: u8) -> bool
    requires { (letter_or_digit a ≡ true) × ((letter_or_digit b ≡ true) × (letter_or_digit c ≡ true)) }
    ensures { (kinds : Bytes) → result ≡ is_word (a ∷ b ∷ c ∷ []) (toks_at kinds code.now at) }
{
    if grammar::text_at(code, at) != a {
        return false;
    }
    two_letters(code, at + 1, b, c)
}

// Whether EQ, NE, LT, LE, GT or GE stands at a place.
#[tactic(auto, unfolding(text::specs::Characters::letter_or_digit, text::specs::Characters::letter, text::specs::Characters::digit))]
fn relates(code: &[u8], at: usize) -> bool
    ensures { (kinds : Bytes) → result ≡ is_relation (toks_at kinds code.now at) }
{
    two_letters(code, at, b'E', b'Q')
        | two_letters(code, at, b'N', b'E')
        | two_letters(code, at, b'L', b'T')
        | two_letters(code, at, b'L', b'E')
        | two_letters(code, at, b'G', b'T')
        | two_letters(code, at, b'G', b'E')
}

// The relation and the second string, behind the first.
fn compared_strings(kinds: &[u8], code: &[u8], at: usize, nest: usize) -> Formed
    ensures { (inner : List (Lex Meant) → Got Nothing Meant) → Tells (compared_strings form nest inner tt) kinds.now code.now at result }
{
    if relates(code, at) {
        grammar::characters(kinds, code, grammar::past_spaces(code, at + 2), nest)
    } else {
        Err(Fault::Broken(at))
    }
}

// Whether one lexeme stands from `here` up to a place.
pub fn alone(code: &[u8], here: usize, at: usize) -> bool
    ensures { (kinds : Bytes) → result ≡ eqb (length (toks_at kinds code.now here)) (suc (length (toks_at kinds code.now at))) }
{
    code.len().saturating_sub(here) == code.len().saturating_sub(at) + 1
}

// 0 or 1, which was read from `here` up to a place.
fn constant(code: &[u8], here: usize, at: usize) -> Formed
    ensures { (kinds : Bytes) (nest : ℕ) (inner : List (Lex Meant) → Got Nothing Meant) → tells (toks_at kinds code.now) result ≡ constant_at form nest inner (toks_at kinds code.now here) (toks_at kinds code.now at) }
{
    let c = grammar::text_at(code, here);
    if ((c == b'0') | (c == b'1')) & alone(code, here, at) {
        Ok(at)
    } else {
        Err(Fault::Broken(here))
    }
}

// The relation and the second number, behind the first, which was read from `here` on; or 0 or 1.
fn compared_numbers(kinds: &[u8], code: &[u8], here: usize, at: usize, nest: usize) -> Formed
    ensures { (inner : List (Lex Meant) → Got Nothing Meant) → Tells (compared_numbers form nest inner (toks_at kinds.now code.now here) tt) kinds.now code.now at result }
{
    let relation = grammar::past_spaces(code, at);
    if !relates(code, relation) {
        return constant(code, here, at);
    }
    let second = grammar::past_spaces(code, relation + 2);
    if grammar::text_at(code, second) == b'(' {
        return Err(Fault::Broken(second));
    }
    grammar::arithmetic(kinds, code, second, nest)
}

// Two strings that are compared.
fn strings(kinds: &[u8], code: &[u8], at: usize, nest: usize) -> Formed
    ensures { (inner : List (Lex Meant) → Got Nothing Meant) → Tells (λ x. then (string_within form nest x) (λ s y. compared_strings form nest inner s (past_spaces y))) kinds.now code.now at result }
{
    let end = grammar::characters(kinds, code, at, nest)?;
    compared_strings(kinds, code, grammar::past_spaces(code, end), nest)
}

// Two numbers that are compared; or 0 or 1.
fn numbers(kinds: &[u8], code: &[u8], at: usize, nest: usize) -> Formed
    ensures { (inner : List (Lex Meant) → Got Nothing Meant) → Tells (λ x. then (arithmetic form nest x) (compared_numbers form nest inner x)) kinds.now code.now at result }
{
    let end = grammar::arithmetic(kinds, code, at, nest)?;
    compared_numbers(kinds, code, at, end, nest)
}

// Whether a SETB symbol stands at a place.
fn flag_at(kinds: &[u8], code: &[u8], at: usize) -> bool
    ensures { (nest : ℕ) (inner : List (Lex Meant) → Got Nothing Meant) → result ≡ is_flag form nest inner (toks_at kinds.now code.now at) }
{
    grammar::kind_at(kinds, code, at) == Some(Kind::Symbol(Set::B))
}

// The place behind AND, where it stands there.
#[tactic(auto, unfolding(text::specs::Characters::letter_or_digit, text::specs::Characters::letter, text::specs::Characters::digit))]
fn after_and(code: &[u8], at: usize) -> Option<usize>
    ensures { Operand (is_word (bytes "AND")) 3 code.now at result }
{
    if three_letters(code, at, b'A', b'N', b'D') {
        Some(at + 3)
    } else {
        None
    }
}

// The place behind OR, where it stands there.
#[tactic(auto, unfolding(text::specs::Characters::letter_or_digit, text::specs::Characters::letter, text::specs::Characters::digit))]
fn after_or(code: &[u8], at: usize) -> Option<usize>
    ensures { Operand (is_word (bytes "OR")) 2 code.now at result }
{
    if two_letters(code, at, b'O', b'R') {
        Some(at + 2)
    } else {
        None
    }
}

#[cycle(conjunction_deeper_condition_disjunction_element_negation_spaced)]
fn element(kinds: &[u8], code: &[u8], at: usize, nest: usize) -> Formed
    ensures { Tells (element form nest (deeper_condition form nest)) kinds.now code.now at result }
{
    let c = grammar::text_at(code, at);
    if c == b'(' {
        return grammar::closed(code, deeper_condition(kinds, code, at + 1, nest)?);
    }
    if (c == b'\'') | grammar::attribute_at(code, b'T', at) {
        return strings(kinds, code, at, nest);
    }
    if flag_at(kinds, code, at) {
        return grammar::referred(kinds, code, at, nest, at, Stand::Text);
    }
    numbers(kinds, code, at, nest)
}

// An element with the spaces around it.
#[cycle(conjunction_deeper_condition_disjunction_element_negation_spaced)]
fn spaced(kinds: &[u8], code: &[u8], at: usize, nest: usize) -> Formed
    ensures { Tells (spaced form nest (deeper_condition form nest)) kinds.now code.now at result }
{
    let end = element(kinds, code, grammar::past_spaces(code, at), nest)?;
    Ok(grammar::past_spaces(code, end))
}

#[tactic(auto, unfolding(text::specs::Characters::letter_or_digit, text::specs::Characters::letter, text::specs::Characters::digit))]
#[cycle(conjunction_deeper_condition_disjunction_element_negation_spaced)]
fn negation(kinds: &[u8], code: &[u8], at: usize, nest: usize) -> Formed
    ensures { Tells (negation form nest (deeper_condition form nest)) kinds.now code.now at result }
{
    let here = grammar::past_spaces(code, at);
    if three_letters(code, here, b'N', b'O', b'T') {
        return spaced(kinds, code, here + 3, nest);
    }
    spaced(kinds, code, here, nest)
}

#[cycle(conjunction_deeper_condition_disjunction_element_negation_spaced)]
fn conjunction(kinds: &[u8], code: &[u8], at: usize, nest: usize) -> Formed
    ensures { Tells (conjunction form nest (deeper_condition form nest)) kinds.now code.now at result }
{
    let mut here = negation(kinds, code, at, nest)?;
    while let Some(next) = after_and(code, here) {
        here = negation(kinds, code, next, nest)?;
    }
    Ok(here)
}

#[cycle(conjunction_deeper_condition_disjunction_element_negation_spaced)]
fn disjunction(kinds: &[u8], code: &[u8], at: usize, nest: usize) -> Formed
    ensures { Tells (disjunction form nest (deeper_condition form nest)) kinds.now code.now at result }
{
    let mut here = conjunction(kinds, code, at, nest)?;
    while let Some(next) = after_or(code, here) {
        here = conjunction(kinds, code, next, nest)?;
    }
    Ok(here)
}

// What stands behind an opening parenthesis, where `nest` more may be opened.
#[cycle(conjunction_deeper_condition_disjunction_element_negation_spaced)]
fn deeper_condition(kinds: &[u8], code: &[u8], at: usize, nest: usize) -> Formed
    ensures { Tells (deeper_condition form nest) kinds.now code.now at result }
{
    if nest == 0 {
        Err(Fault::Deep(at))
    } else {
        disjunction(kinds, code, at, nest - 1)
    }
}

// A condition in its outer pair of parentheses, in which `nest` pairs may be open at once.
pub fn condition(kinds: &[u8], code: &[u8], at: usize, nest: usize) -> Formed
    ensures { Tells (condition form nest) kinds.now code.now at result }
{
    if grammar::text_at(code, at) != b'(' {
        return Err(Fault::Broken(at));
    }
    grammar::closed(code, deeper_condition(kinds, code, at + 1, nest)?)
}
