// Whether the line of a macro is well formed, over the lexeme bytes of its fields and the kinds of its slots.
#![tactic(auto)]

ghost use Rattle.std.specs.Prelude.{◌≡◌, List, ℕ, ◌+◌, ◌<◌, ◌≤◌, ◌^◌, length};
ghost use Rattle.text.specs.Bytes.{Bytes};
ghost use Rattle.rules.specs.Choice.{passed};
ghost use Rattle.rules.specs.Lexemes.{Lex, outside, enters};
ghost use Rattle.rules.specs.Statement.{Does as Doing, pairs_first, condition_end};
ghost use Rattle.rules.specs.Grammar.{Kind as Meant, whole, arithmetic, condition, string_within, text_within};
ghost use Rattle.rules.specs.Form.{form, is_got, is_named_by, is_operand_of, is_formed_by};
ghost use Rattle.kinds.specs.Kinds.{set_of, does_for};
ghost use Rattle.grammar.specs.Tokens.{toks_at, tells};
ghost use Rattle.forms.specs.Pairs.{pairs_by, quoted_by, depth_by};

use grammar::Formed;
use kinds::{Does, Kind, Set};

// Whether what was read is well formed, and nothing is left.
fn whole(code: &[u8], read: Formed) -> bool
    ensures { (kinds : Bytes) → result ≡ is_got (whole (tells (toks_at kinds code.now) read)) }
{
    match read {
        Ok(end) => code.len() <= end,
        Err(_) => false,
    }
}

// Whether a field is an arithmetic expression in which at most `nest` pairs of parentheses are open at once.
pub fn is_arithmetic(kinds: &[u8], code: &[u8], nest: usize) -> bool
    ensures { result ≡ is_got (whole (arithmetic form nest (toks_at kinds.now code.now 0))) }
{
    whole(code, grammar::arithmetic(kinds, code, 0, nest))
}

// Whether a field is a condition.
pub fn is_condition(kinds: &[u8], code: &[u8], nest: usize) -> bool
    ensures { result ≡ is_got (whole (condition form nest (toks_at kinds.now code.now 0))) }
{
    whole(code, conditions::condition(kinds, code, 0, nest))
}

// Whether a field is a string expression.
pub fn is_characters(kinds: &[u8], code: &[u8], nest: usize) -> bool
    ensures { result ≡ is_got (whole (string_within form nest (toks_at kinds.now code.now 0))) }
{
    whole(code, grammar::characters(kinds, code, 0, nest))
}

// Whether a field is a text.
pub fn is_text(kinds: &[u8], code: &[u8], nest: usize) -> bool
    ensures { result ≡ is_got (text_within form nest (toks_at kinds.now code.now 0)) }
{
    grammar::text(kinds, code, 0, nest).is_ok()
}

// Whether a field is exactly a SET symbol of this kind.
pub fn is_named_by(kinds: &[u8], code: &[u8], set: Set) -> bool
    ensures { result ≡ is_named_by (set_of set) (toks_at kinds.now code.now 0) }
{
    (code.len() == 1) & (grammar::kind_at(kinds, code, 0) == Some(Kind::Symbol(set)))
}

// Whether a field is what a SET line of this kind has as its operand.
#[tactic(auto, unfolding(rules::specs::Form::is_operand_of))]
fn is_operand_of(kinds: &[u8], code: &[u8], set: Set, nest: usize) -> bool
    ensures { result ≡ is_operand_of nest (set_of set) (toks_at kinds.now code.now 0) }
{
    match set {
        Set::A => is_arithmetic(kinds, code, nest),
        Set::B => is_condition(kinds, code, nest),
        Set::C => is_characters(kinds, code, nest),
    }
}

// Whether a line that does this is well formed, with at most `nest` pairs of parentheses open at once.
pub fn is_formed(
    does: Does,
    kinds: &[u8],
    name: &[u8],
    operation: &[u8],
    operand: &[u8],
    nest: usize,
) -> bool
    ensures { (d : Doing Bytes) → does ≡ does_for d → result ≡ is_formed_by nest (record { does = d; name = toks_at kinds.now name.now 0; operation = toks_at kinds.now operation.now 0; operand = toks_at kinds.now operand.now 0 }) d }
{
    match does {
        Does::Models => {
            is_text(kinds, name, nest)
                & (is_text(kinds, operation, nest) & is_text(kinds, operand, nest))
        }
        Does::BranchesIf => is_condition(kinds, operand, nest),
        Does::Counts => is_arithmetic(kinds, operand, nest),
        Does::Sets(set) => {
            is_named_by(kinds, name, set) & is_operand_of(kinds, operand, set, nest)
        }
        Does::Passes | Does::Ends | Does::Exits | Does::Text | Does::Branches => true,
    }
}

// Whether this byte is the `)` that pairs with the `(` at the start.
#[tactic(auto, unfolding(crate::specs::Pairs::pairs_by))]
fn pairs(c: u8, quoted: bool, depth: usize) -> bool
    ensures { result ≡ pairs_by c quoted depth }
{
    (c == b')') & (!quoted & (depth == 1))
}

// Whether quotes are open behind a byte.
#[tactic(auto, unfolding(crate::specs::Pairs::quoted_by, rules::specs::Choice::choose))]
pub fn quoted_after(c: u8, quoted: bool) -> bool
    ensures { result ≡ quoted_by c quoted }
{
    if c == b'\'' { !quoted } else { quoted }
}

// How many parentheses are open behind a byte.
#[tactic(auto, unfolding(crate::specs::Pairs::depth_by, rules::specs::Choice::choose))]
pub fn depth_after(c: u8, quoted: bool, depth: usize) -> usize
    requires { depth + 1 < 2 ^ 64 }
    ensures { (result ≡ depth_by c quoted depth) × (result ≤ depth + 1) }
{
    if quoted {
        return depth;
    }
    if c == b'(' {
        return depth + 1;
    }
    if c == b')' {
        return depth.saturating_sub(1);
    }
    depth
}

// Where the `)` stands that pairs with the `(` at the start; the field's end where none does.
fn pair_at(code: &[u8]) -> usize
    ensures { ((kinds : Bytes) → result ≡ passed pairs_first enters outside (toks_at kinds code.now 0)) × (result ≤ length code.now) }
{
    let mut quoted = false;
    let mut depth = 0;
    for at in 0..code.len() {
        let c = grammar::text_at(code, at);
        if pairs(c, quoted, depth) {
            return at;
        }
        depth = depth_after(c, quoted, depth);
        quoted = quoted_after(c, quoted);
    }
    code.len()
}

// Where AIF's condition ends: behind the `)` that pairs with the `(` at its start. It is the number of the rules' own definition:
// 0 where the field does not start with one, and one more than the field's length where nothing pairs.
pub fn condition_end(code: &[u8]) -> usize
    ensures { (kinds : Bytes) → result ≡ condition_end (toks_at kinds code.now 0) }
{
    if grammar::text_at(code, 0) != b'(' {
        return 0;
    }
    pair_at(code) + 1
}
