// The tests of good form that are not grammar: names, defaults, lexemes, lines used as they stand, branch targets.
#![tactic(auto)]

ghost use Rattle.std.specs.Prelude.{◌≡◌, true, not, ◌&&◌, map, ℕ, ◌<◌};
ghost use Rattle.text.specs.Bytes.{bytes};
ghost use Rattle.rules.specs.Limits.{name_limit};
ghost use Rattle.rules.specs.Lexemes.{lexed, is_name};
ghost use Rattle.rules.specs.Fields.{Fields, is_ill_written, is_copied_remark, starts_with};
ghost use Rattle.rules.specs.Statement.{Does as Doing};
ghost use Rattle.rules.specs.Faults.{is_default};
ghost use Rattle.deck.specs.Good.{is_keyword, is_lexeme, are_lexemes, is_statement_text, is_text, is_target, is_in_order, does_end, does_count, may_precede};
ghost use Rattle.kinds.specs.Kinds.{does_for};
ghost use Rattle.deck_reading.specs.Reading.{slot_lex};
ghost use Rattle.good_tests.specs.Carried.{Carries};

use deck_reading::{LEXEMES, MARK};
use kinds::Does;

// Whether a keyword may have this name.
pub fn is_keyword_name(name: &[u8]) -> bool
    ensures { result ≡ (is_name name_limit name.now && not (starts_with (bytes "SYS") name.now)) }
{
    let good = statements::is_name(name, limits::NAME);
    let system = declaring::begins_sys(name);
    good & !system
}

// Whether a keyword may have this default: bytes in the set, paired, `&` runs even, no bare `=`.
pub fn is_keyword_default(s: &[u8]) -> bool
    ensures { result ≡ (not (is_ill_written s.now) && is_default (lexed true s.now)) }
{
    let ill = written::is_ill_written(s);
    let default = declared::is_default(s);
    !ill & default
}

// Whether a keyword is as a prototype has it.
pub fn is_keyword(name: &[u8], default: &[u8]) -> bool
    ensures { result ≡ is_keyword (name.now, default.now) }
{
    let named = is_keyword_name(name);
    let valued = is_keyword_default(default);
    named & valued
}

// Whether a lexeme may stand in a line.
fn is_lexeme(c: u8) -> bool
    ensures { result ≡ is_lexeme (slot_lex c) }
{
    if c < MARK {
        return chars::in_set(c);
    }
    c < LEXEMES
}

// Whether a field is no longer than a line, and its lexemes may stand in one.
pub fn are_lexemes(code: &[u8]) -> bool
    ensures { result ≡ are_lexemes (map slot_lex code.now) }
{
    code.len() <= limits::LINE && code.iter().all(|&c| is_lexeme(c))
}

// Whether a statement with these fields is used as it stands.
fn is_statement_text(name: &[u8], operation: &[u8], operand: &[u8]) -> bool
    ensures { (f : Fields) → f.name ≡ name.now → f.operation ≡ operation.now → f.operand ≡ operand.now → result ≡ is_statement_text f }
{
    let word = words::word(operation);
    let first = declared::is_plain(name);
    let second = declared::is_plain(operation);
    let third = declared::is_plain(operand);
    let dot = lent::byte(name, 0);
    (operation.len() != 0) & (word.is_none() & ((first & (second & third)) & (dot != b'.')))
}

// Whether a line is used as it stands: a remark that is copied, or a statement without symbols.
pub fn is_text(line: &[u8]) -> bool
    ensures { result ≡ is_text line.now }
{
    if written::is_ill_written(line) {
        return false;
    }
    if written::is_copied_remark(line) {
        return true;
    }
    if statements::is_remark(line) {
        return false;
    }
    let name = written::name_field(line);
    let operation = statements::operation_of(line);
    let operand = written::operand_field(line);
    is_statement_text(name, operation, operand)
}

// Whether a branch target is a line of the macro, which has `count`, behind its ACTR, which ends before line `actr`.
pub fn is_target(actr: usize, count: usize, target: usize) -> bool
    ensures { result ≡ is_target actr count target }
{
    (target < count) & (actr <= target)
}

// Whether what a line does is in order, in a macro of `count` lines whose ACTR ends before line `actr`.
pub fn is_in_order(does: Does, text: &[u8], target: usize, actr: usize, count: usize) -> bool
    ensures { (d : Doing ℕ) → does ≡ does_for d → Carries text.now target d → result ≡ is_in_order actr count d }
{
    match does {
        Does::Text => is_text(text),
        Does::BranchesIf | Does::Branches => is_target(actr, count, target),
        Does::Passes | Does::Ends | Does::Exits | Does::Models | Does::Counts | Does::Sets(_) => {
            true
        }
    }
}

// Whether a line that does this may stand before ACTR: a declaration or a remark.
pub fn may_precede(does: Does, text: &[u8]) -> bool
    ensures { (d : Doing ℕ) (t : ℕ) → does ≡ does_for d → Carries text.now t d → result ≡ may_precede d }
{
    match does {
        Does::Passes => true,
        Does::Text => written::is_copied_remark(text),
        Does::Ends
        | Does::Exits
        | Does::Models
        | Does::BranchesIf
        | Does::Branches
        | Does::Counts
        | Does::Sets(_) => false,
    }
}

// Whether a line that does this ends its macro.
pub fn does_end(does: Does) -> bool
    ensures { (d : Doing ℕ) → does ≡ does_for d → result ≡ does_end d }
{
    matches!(does, Does::Ends)
}

// Whether a line that does this is ACTR.
pub fn does_count(does: Does) -> bool
    ensures { (d : Doing ℕ) → does ≡ does_for d → result ≡ does_count d }
{
    matches!(does, Does::Counts)
}
