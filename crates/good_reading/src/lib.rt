// Whether fields, lines and defaults are as 01's reader gives them, over a deck's bytes: one for each lexeme.
#![tactic(auto)]

ghost use Rattle.std.specs.Prelude.{◌≡◌, not, ◌&&◌, [], ◌∷◌, map, ℕ, ◌+◌, ◌<◌, eqb, length};
ghost use Rattle.rules.specs.Choice.{choose, every, passed};
ghost use Rattle.rules.specs.Lexemes.{space, byte_of, follows, outside, enters};
ghost use Rattle.rules.specs.Statement.{Line};
ghost use Rattle.deck.specs.Slots.{Slot};
ghost use Rattle.deck.specs.AsRead.{last_byte, follows_in, marks_here, is_read_at, is_field, is_word_field, is_end, is_operand, starts_plainly, is_model_operation, is_read_line, is_read_default};
ghost use Rattle.kinds.specs.Kinds.{does_for};
ghost use Rattle.deck_reading.specs.Reading.{slot_lex};
ghost use Rattle.good_reading.specs.Trails.{before_of, reads_by, trail_after, ends_by};

use coding::Before;
use deck_reading::{LEXEMES, MARK};
use kinds::{Does, Set};

// What lexemes leave behind them: the two bytes before the next one (spaces at the field's start), whether a quote is open, and whether an ampersand
// stands there that is no pair yet.
#[derive(Clone, Copy)]
pub struct Trail {
    pub before: Before,
    pub odd: bool,
}

// The text byte that a lexeme is; 0 for any other, as the definition has it.
fn text_of(c: u8) -> u8
    ensures { result ≡ byte_of (slot_lex c) }
{
    if c < MARK { c } else { 0 }
}

// The byte that a lexeme leaves behind it: 0 behind a variable symbol.
fn last_of(c: u8) -> u8
    ensures { result ≡ last_byte (slot_lex c) }
{
    if c < MARK {
        return c;
    }
    if c == MARK {
        return b'\'';
    }
    if c < LEXEMES { 0 } else { b'&' }
}

// The byte that a lexeme begins with, where a line has it.
fn front_of(c: u8) -> u8
    ensures { follows (result ∷ []) ≡ follows_in (slot_lex c ∷ []) }
{
    if c < MARK {
        return c;
    }
    if c == MARK { b'\'' } else { b'&' }
}

// Whether an apostrophe would be an attribute mark here, before the lexeme `next`.
fn marks_here(trail: Trail, next: u8) -> bool
    ensures { result ≡ marks_here (before_of trail) (slot_lex next ∷ []) }
{
    let front = front_of(next);
    coding::is_mark(trail.before, b'\'', front)
}

// Whether the reader can give the lexeme `c` here, before the lexeme `next`.
fn is_read_at(trail: Trail, c: u8, next: u8) -> bool
    ensures { result ≡ is_read_at (before_of trail) (slot_lex c) (slot_lex next ∷ []) }
{
    let first = trail.before.first;
    let marks = marks_here(trail, next);
    let lettered = chars::letter_or_digit(c);
    if c < MARK {
        return !((first == 0) & lettered) & !((c == b'\'') & marks);
    }
    if c == MARK {
        return marks;
    }
    c < LEXEMES
}

// Whether it can, and an ampersand left over has its pair in it.
fn reads(trail: Trail, c: u8, next: u8) -> bool
    ensures { result ≡ reads_by trail (slot_lex c) (slot_lex next ∷ []) }
{
    let odd = trail.odd;
    let text = text_of(c);
    is_read_at(trail, c, next) & (!odd | (text == b'&'))
}

// Whether a quote is open behind the text byte `text`.
fn quoted_after(quoted: bool, text: u8, quotes: bool) -> bool
    ensures { result ≡ choose (eqb text 39) (quotes && not quoted) quoted }
{
    if text == b'\'' {
        return quotes & !quoted;
    }
    quoted
}

// What the lexeme `c` leaves behind it.
fn trail_after(trail: Trail, c: u8, quotes: bool) -> Trail
    ensures { result ≡ trail_after quotes trail (slot_lex c) }
{
    let text = text_of(c);
    let odd = trail.odd;
    Trail {
        before: Before {
            second: trail.before.first,
            first: last_of(c),
            quoted: quoted_after(trail.before.quoted, text, quotes),
        },
        odd: (text == b'&') & !odd,
    }
}

// Whether a field is as the reader gives it; `quotes` says whether it has quotes.
pub fn is_field(code: &[u8], quotes: bool) -> bool
    ensures { result ≡ is_field quotes (map slot_lex code.now) }
{
    let mut trail = Trail {
        before: Before::START,
        odd: false,
    };
    for (i, &c) in code.iter().enumerate() {
        if !reads(trail, c, lent::byte(code, i + 1)) {
            return false;
        }
        trail = trail_after(trail, c, quotes);
    }
    !trail.odd
}

// Whether a field has no space.
fn is_spaceless(code: &[u8]) -> bool
    ensures { result ≡ every (λ y. not (eqb (byte_of y) space)) (map slot_lex code.now) }
{
    code.iter().all(|&b| b != b' ')
}

// Whether a field is a name or an operation as the reader gives it.
pub fn is_word_field(code: &[u8]) -> bool
    ensures { result ≡ is_word_field (map slot_lex code.now) }
{
    let field = is_field(code, false);
    let spaceless = is_spaceless(code);
    field & spaceless
}

// Whether an operand ends at the text byte `text`, by the quotes and parentheses around it.
fn ends_at(holds: bool, text: u8, quoted: bool, depth: usize) -> bool
    ensures { result ≡ ends_by holds text quoted depth }
{
    (text == b' ') & (!quoted & (!holds | (depth == 0)))
}

// Whether an operand ends nowhere in the field.
fn is_endless(code: &[u8], holds: bool) -> bool
    ensures { result ≡ eqb (passed (is_end holds) enters outside (map slot_lex code.now)) (length (map slot_lex code.now)) }
{
    let mut quoted = false;
    let mut depth = 0;
    for &c in code {
        let text = text_of(c);
        if ends_at(holds, text, quoted, depth) {
            return false;
        }
        depth = forms::depth_after(text, quoted, depth);
        quoted = forms::quoted_after(text, quoted);
    }
    true
}

// Whether a field is an operand as the reader gives it; if `holds`, parentheses hold spaces in it.
pub fn is_operand(code: &[u8], holds: bool) -> bool
    ensures { result ≡ is_operand holds (map slot_lex code.now) }
{
    let field = is_field(code, true);
    let endless = is_endless(code, holds);
    field & endless
}

// Whether a name makes its line no remark, and is no sequence symbol.
pub fn starts_plainly(code: &[u8]) -> bool
    ensures { result ≡ starts_plainly (map slot_lex code.now) }
{
    let first = lent::byte(code, 0);
    !((first == b'.') | (first == b'*'))
}

// Whether an operation is there, as the reader gives it, and is no language word.
pub fn is_model_operation(code: &[u8]) -> bool
    ensures { result ≡ is_model_operation (map slot_lex code.now) }
{
    let word = words::word(code);
    let field = is_word_field(code);
    (code.len() != 0) & (field & word.is_none())
}

// Whether a line that does this has fields as the reader gives them; a field that it does not have is empty.
pub fn is_read_line(does: Does, name: &[u8], operation: &[u8], operand: &[u8]) -> bool
    ensures { (l : Line Slot ℕ) → does ≡ does_for l.does → l.name ≡ map slot_lex name.now → l.operation ≡ map slot_lex operation.now → l.operand ≡ map slot_lex operand.now → result ≡ is_read_line l }
{
    match does {
        Does::Models => {
            is_word_field(name)
                & (starts_plainly(name)
                    & (is_model_operation(operation) & is_operand(operand, false)))
        }
        Does::BranchesIf => is_operand(operand, true),
        Does::Sets(set) => is_operand(operand, set == Set::B),
        Does::Counts => is_operand(operand, false),
        Does::Passes | Does::Ends | Does::Exits | Does::Text | Does::Branches => true,
    }
}

// Whether a keyword's default is as the reader gives it.
pub fn is_read_default(s: &[u8]) -> bool
    ensures { result ≡ is_read_default s.now }
{
    let comma = parts::bare_at(s, 0, b',');
    let space = fields::operand_end(s, 0, false);
    (comma == s.len()) & (space == s.len())
}
