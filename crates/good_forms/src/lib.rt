// Whether a line of a deck is in good form: its lexemes, its order, and its form by the grammar's check of translation.
#![tactic(auto)]

ghost use Rattle.std.specs.Prelude.{◌≡◌, List, length};
ghost use Rattle.rules.specs.Statement.{Set, map_line};
ghost use Rattle.rules.specs.Form.{is_formed};
ghost use Rattle.deck.specs.Slots.{DeckMacro, slot_kind};
ghost use Rattle.deck.specs.Good.{is_in_order, is_line};
ghost use Rattle.deck_reading.specs.Reading.{line_at, line_in};
ghost use Rattle.good_forms.specs.Kinded.{Kinded, are_tested};

use deck_reading::Fields;

// Whether a line is well formed, with at most 8 pairs of parentheses open at once.
pub fn is_formed_line(deck: &[u8], kinds: &[u8], f: Fields) -> bool
    ensures { (globals : List Set) (m : DeckMacro) → Kinded kinds.now globals m → result ≡ is_formed 8 (map_line (slot_kind globals m) (λ t. t) (line_in deck.now f)) }
{
    let name = deck_reading::run_at(deck, f.name);
    let operation = deck_reading::run_at(deck, f.operation);
    let operand = deck_reading::run_at(deck, f.operand);
    forms::is_formed(f.does, kinds, name, operation, operand, limits::NEST)
}

// Whether the three fields of a line have lexemes that may stand there.
pub fn have_lexemes(deck: &[u8], f: Fields) -> bool
    ensures { result ≡ are_tested (line_in deck.now f) }
{
    let name = deck_reading::run_at(deck, f.name);
    let operation = deck_reading::run_at(deck, f.operation);
    let operand = deck_reading::run_at(deck, f.operand);
    good_tests::are_lexemes(name)
        & (good_tests::are_lexemes(operation) & good_tests::are_lexemes(operand))
}

// Whether what a line does is in order, in a macro of `count` lines whose ACTR stands before line `actr`.
pub fn is_in_order(deck: &[u8], f: Fields, actr: usize, count: usize) -> bool
    ensures { result ≡ is_in_order actr count (line_in deck.now f).does }
{
    let text = deck_reading::run_at(deck, f.first);
    let target = deck_reading::two_at(deck, f.first);
    good_tests::is_in_order(f.does, text, target, actr, count)
}

// Whether the line at a place is in good form, in a macro of `count` lines whose ACTR stands before line `actr`.
pub fn is_good_line(deck: &[u8], at: usize, kinds: &[u8], actr: usize, count: usize) -> bool
    ensures { (globals : List Set) (m : DeckMacro) → Kinded kinds.now globals m → length m.lines ≡ count → result ≡ is_line globals m actr (line_at deck.now at) }
{
    let f = deck_reading::line_fields(deck, at);
    is_in_order(deck, f, actr, count) & (have_lexemes(deck, f) & is_formed_line(deck, kinds, f))
}
