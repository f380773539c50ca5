// The parts of an operand, divided at its commas outside quotes and parentheses: those of a prototype or a declaration; and the symbols that they start with.
#![tactic(auto)]

ghost use Rattle.std.specs.Prelude.{◌≡◌, true, false, length};
ghost use Rattle.std.specs.Iterator.{YieldsFirstRef, item_count};
ghost use Rattle.text.specs.Bytes.{same};
ghost use Rattle.rules.specs.Choice.{every, any};
ghost use Rattle.rules.specs.Lexemes.{lexed};
ghost use Rattle.rules.specs.Calls.{divided, has_equals};
ghost use Rattle.rules.specs.Library.{is_one_symbol, start_symbols};
ghost use Rattle.rules.specs.Faults.{has_long_symbol, before_equals, are_good_parts};
ghost use Rattle.operands.specs.Symbols.{symbols_left};

use parts::Parts;

// Whether the part has `=` outside quotes and parentheses.
pub fn has_equals(part: &[u8]) -> bool
    ensures { result ≡ has_equals (lexed true part.now) }
{
    parts::bare_at(part, 0, b'=') < part.len()
}

// Whether a variable symbol before the part's `=` is too long.
fn has_long_name(part: &[u8]) -> bool
    ensures { result ≡ has_long_symbol (before_equals (lexed true part.now)) }
{
    let end = parts::bare_at(part, 0, b'=');
    declared::has_long(&part[..end])
}

// How many parts the operand has.
pub fn part_count(operand: &[u8]) -> usize
    ensures { result ≡ length (divided (lexed true operand.now)) }
{
    Parts::of(operand).count()
}

// Whether each part is one variable symbol.
pub fn are_symbols(operand: &[u8]) -> bool
    ensures { result ≡ every is_one_symbol (divided (lexed true operand.now)) }
{
    Parts::of(operand).all(|part| declared::is_one_symbol(part))
}

// Whether the parts are variable symbols, and then variable symbols with `=` and a default.
pub fn are_good_parts(operand: &[u8]) -> bool
    ensures { result ≡ are_good_parts false (divided (lexed true operand.now)) }
{
    let mut keywords = false;
    for part in Parts::of(operand) {
        if !declared::is_good_part(part) {
            return false;
        }
        let keyword = has_equals(part);
        if keywords & !keyword {
            return false;
        }
        keywords = keyword;
    }
    true
}

// Whether a part has a variable symbol before its `=` that is too long.
pub fn has_long_parts(operand: &[u8]) -> bool
    ensures { result ≡ any (λ part. has_long_symbol (before_equals part)) (divided (lexed true operand.now)) }
{
    Parts::of(operand).any(|part| has_long_name(part))
}

// The symbols that an operand's parts start with, those that are still to come.
#[derive(Clone, Copy)]
pub struct Symbols<'a> {
    parts: Parts<'a>,
}

impl<'a> Symbols<'a> {
    // All of them.
    pub fn of(operand: &'a [u8]) -> Symbols<'a>
        ensures { symbols_left result ≡ start_symbols (divided (lexed true operand.now)) }
    {
        Symbols {
            parts: Parts::of(operand),
        }
    }
}

impl<'a> Iterator for Symbols<'a> {
    type Item = &'a [u8];

    ghost next_gives = { YieldsFirstRef symbols_left };

    ghost remaining = { item_count symbols_left };

    fn next(&mut self) -> Option<&'a [u8]> {
        while let Some(part) = self.parts.next() {
            if let Some(name) = declared::start_symbol(part) {
                return Some(name);
            }
        }
        None
    }
}

// Whether one of the symbols has this name.
pub fn symbol_among(symbols: Symbols, name: &[u8]) -> bool
    ensures { result ≡ any (same name.now) (symbols_left symbols.entry) }
{
    let mut rest = symbols;
    rest.any(|symbol| lent::equal(name, symbol))
}
