// The numbers 2 to 5 of a statement in a body.
#![tactic(auto)]

ghost use Rattle.std.specs.Prelude.{◌≡◌, Bool, ◌&&◌, ◌||◌, true, [], ◌≤◌, length};
ghost use Rattle.text.specs.Bytes.{Bytes};
ghost use Rattle.rules.specs.Lexemes.{lexed, is_sequence};
ghost use Rattle.kinds.specs.Kinds.{set_of, statement_by};
ghost use Rattle.deck.specs.Coders.{set_code};
ghost use Rattle.rules.specs.Faults.{has_long_symbol, declares_wrongly, is_bad_target, is_named_or_empty, is_declaration};
ghost use Rattle.rules.specs.Fields.{lines_of};
ghost use Rattle.symbols.specs.Held.{unknown_in};
ghost use Rattle.declaring.specs.Declared.{symbols_in, is_taken};
ghost use Rattle.checking.specs.Body.{tables_of, misplaced, bad_symbols, good_fields, too_many};

use kinds::Word;
use names::Names;

// The tables of names, and the kinds of their slots.
#[derive(Clone, Copy)]
pub struct Tables<'a> {
    pub names: Names<'a>,
    pub kinds: &'a [u8],
}

// The lines of a body before a line, and that line with all behind it.
#[derive(Clone, Copy)]
pub struct Lines<'a> {
    pub before: &'a [u8],
    pub from: &'a [u8],
}

// 2: whether a statement is out of place: `empty` says that it has no operation, `ended` that a statement stands before which is no declaration.
#[tactic(auto, unfolding(crate::specs::Body::misplaced))]
pub fn is_misplaced(word: Option<Word>, empty: bool, ended: bool) -> bool
    ensures { result ≡ misplaced (statement_by word) empty ended }
{
    match word {
        Some(Word::Macro) => true,
        Some(Word::Mend) => false,
        Some(Word::Mexit) => false,
        Some(Word::Lcl(_)) => ended,
        Some(Word::Gbl(_)) => ended,
        Some(Word::Set(_)) => false,
        Some(Word::Aif) => false,
        Some(Word::Ago) => false,
        Some(Word::Anop) => false,
        Some(Word::Actr) => ended,
        None => empty,
    }
}

// Whether a declaration has no name and declares symbols, nothing else.
fn is_declaration(name: &[u8], operand: &[u8]) -> bool
    ensures { result ≡ is_declaration (record { name = name.entry.now; gap = []; operation = []; gap₂ = []; operand = operand.now; remarks = [] }) }
{
    let symbols = operands::are_symbols(operand);
    (name.len() == 0) & ((operand.len() != 0) & symbols)
}

// Whether a branch has a sequence symbol or nothing as its name, and a sequence symbol as its target.
fn branches_well(name: &[u8], target: &[u8]) -> bool
    ensures { result ≡ (is_named_or_empty name.now && is_sequence target.now) }
{
    let named = statements::is_named_or_empty(name);
    named & statements::is_sequence(target)
}

// 4: whether the fields around what the grammar reads are good; `target` has the codes of a branch target.
#[tactic(auto, unfolding(crate::specs::Body::good_fields))]
pub fn are_fields_good(word: Option<Word>, name: &[u8], operand: &[u8], target: &[u8]) -> bool
    ensures { result ≡ good_fields name.now operand.now target.now (statement_by word) }
{
    match word {
        Some(Word::Macro) => name.len() == 0,
        Some(Word::Mend) => statements::is_named_or_empty(name),
        Some(Word::Mexit) => statements::is_named_or_empty(name),
        Some(Word::Lcl(_)) => is_declaration(name, operand),
        Some(Word::Gbl(_)) => is_declaration(name, operand),
        Some(Word::Set(_)) => true,
        Some(Word::Aif) => branches_well(name, target),
        Some(Word::Ago) => branches_well(name, target),
        Some(Word::Anop) => statements::is_named_or_empty(name),
        Some(Word::Actr) => name.len() == 0,
        None => statements::is_model_name(name),
    }
}

// 3: whether a symbol of a declaration is too long, begins SYS or is declared twice.
fn declares_badly(operand: &[u8], own: &[u8], global: &[u8]) -> bool
    ensures { result ≡ (has_long_symbol (lexed true operand.now) || declares_wrongly (is_taken own.now global.now) (symbols_in operand.now)) }
{
    let long = declared::has_long(operand);
    let wrong = declaring::declares_wrongly(operand, own, global);
    long | wrong
}

// 3: whether a symbol in a branch's operand is not known, or its target names no line.
fn branches_badly(operand_code: &[u8], target: &[u8], lines: Lines) -> bool
    ensures { result ≡ (unknown_in operand_code.now || is_bad_target (lines_of lines.entry.before.now) (lines_of lines.entry.from.now) target.now) }
{
    let unknown = symbols::has_unknown(operand_code);
    unknown | labels::is_bad_target(lines.before, lines.from, target)
}

// 3, by statement: whether a symbol in its operation or operand is too long, not known or declared twice, or its target names no line.
#[tactic(auto, unfolding(crate::specs::Body::bad_symbols))]
pub fn has_bad_symbols(
    word: Option<Word>,
    operand: &[u8],
    operation_code: &[u8],
    operand_code: &[u8],
    target: &[u8],
    lines: Lines,
    tables: Tables,
) -> bool
    ensures { result ≡ bad_symbols (tables_of tables.entry) (lines_of lines.entry.before.now) (lines_of lines.entry.from.now) operand.now operation_code.now operand_code.now target.now (statement_by word) }
{
    match word {
        Some(Word::Macro) => false,
        Some(Word::Mend) => false,
        Some(Word::Mexit) => false,
        Some(Word::Lcl(_)) => declares_badly(operand, tables.names.own, tables.names.global),
        Some(Word::Gbl(set)) => {
            let badly = declares_badly(operand, tables.names.own, tables.names.global);
            let other = declaring::gives_other_kind(
                operand,
                set,
                tables.names.shared,
                tables.kinds,
            );
            badly | other
        }
        Some(Word::Set(_)) => symbols::has_unknown(operand_code),
        Some(Word::Aif) => branches_badly(operand_code, target, lines),
        Some(Word::Ago) => branches_badly(operand_code, target, lines),
        Some(Word::Anop) => false,
        Some(Word::Actr) => symbols::has_unknown(operand_code),
        None => {
            let unknown = symbols::has_unknown(operation_code);
            unknown | symbols::has_unknown(operand_code)
        }
    }
}

// 5: whether a declaration declares more locals than a macro may have, which has `locals`, or more globals than a library may have.
#[tactic(auto, unfolding(crate::specs::Body::too_many))]
pub fn declares_too_many(word: Option<Word>, locals: usize, operand: &[u8], shared: &[u8]) -> bool
    requires { (locals ≤ 64) × (length operand.now ≤ 71) }
    ensures { (own global kinds : Bytes) → result ≡ too_many (record { own = own; global = global; shared = shared.now; kinds = kinds }) locals operand.now (statement_by word) }
{
    match word {
        Some(Word::Macro) => false,
        Some(Word::Mend) => false,
        Some(Word::Mexit) => false,
        Some(Word::Lcl(_)) => {
            let count = declaring::symbol_count(operand);
            (0 < count) & (16 < locals + count)
        }
        Some(Word::Gbl(_)) => {
            let count = declaring::symbol_count(operand);
            let new = declaring::new_count(operand, shared);
            (0 < count) & (16 < shared.len() / 8 + new)
        }
        Some(Word::Set(_)) => false,
        Some(Word::Aif) => false,
        Some(Word::Ago) => false,
        Some(Word::Anop) => false,
        Some(Word::Actr) => false,
        None => false,
    }
}
