// What the lines of a macro declare, put into tables: its prototype's parameters, and the SET symbols of its body.
#![tactic(auto)]

ghost use Rattle.std.specs.Prelude.{◌≡◌, false, [], ◌++◌, ◌+◌, ◌*◌, ◌≤◌, ◌<◌, length, take, drop, replicate};
ghost use Rattle.rules.specs.Choice.{any};
ghost use Rattle.rules.specs.Lexemes.{is_long};
ghost use Rattle.rules.specs.Fields.{lines_of};
ghost use Rattle.rules.specs.Library.{names_in as names_of};
ghost use Rattle.rules.specs.ByLines.{own_names};
ghost use Rattle.rules.specs.Grammar.{symbol};
ghost use Rattle.kinds.specs.Kinds.{set_of};
ghost use Rattle.deck.specs.Coders.{set_code};
ghost use Rattle.grammar.specs.Kinds.{number_of};
ghost use Rattle.lent.specs.Splice.{splice};
ghost use Rattle.names.specs.Names.{names_in};
ghost use Rattle.declaring.specs.Declared.{symbols_in};
ghost use Rattle.filling.specs.Added.{Adds};
ghost use Rattle.collecting.specs.Collected.{Room, Declares, Counted, Prototype, Starts};
ghost use Rattle.collecting.specs.Bodies.{RoomFor, DeclaresBehind};

use kinds::{Set, Word};
use line_reader::LineReader;

// How many rows the tables have: of own names, of the names of the macro's GBL statements, and of the library's globals.
#[derive(Clone, Copy)]
pub struct Rows {
    pub own: usize,
    pub global: usize,
    pub shared: usize,
}

// The operand's symbols, in rows behind the first `rows`, with the kind of this number; answers how many rows there are then.
fn declare_locals(
    own: &mut [u8],
    kinds: &mut [u8],
    rows: usize,
    operand: &[u8],
    number: u8,
) -> usize
    requires { ((rows + length operand.now) * 8 ≤ length own.old) × ((rows + length (symbols_in operand.now) ≤ length kinds.old) × (any is_long (symbols_in operand.now) ≡ false)) }
    ensures value { result ≡ rows + length (symbols_in operand.now) }
    ensures own_after { names_in (take (result * 8) own.new) ≡ names_in (take (rows * 8) own.old) ++ symbols_in operand.now }
    ensures kinds_after { kinds.new ≡ splice kinds.old rows (replicate (length (symbols_in operand.now)) number) }
{
    let end = filling::append_symbols(own, rows, operand);
    lent::fill(kinds, rows, number, end - rows);
    end
}

// The operand's symbols as the macro's globals, and those that are not among the library's yet, with their kind; answers how many rows there are then.
fn declare_globals(
    global: &mut [u8],
    shared: &mut [u8],
    kinds: &mut [u8],
    rows: Rows,
    operand: &[u8],
    set: Set,
) -> Rows
    requires { ((rows.global + length operand.now) * 8 ≤ length global.old) × (((rows.shared + length operand.now) * 8 ≤ length shared.old) × ((64 + (rows.shared + length operand.now) ≤ length kinds.old) × (any is_long (symbols_in operand.now) ≡ false))) }
    ensures own_value { (result.own ≡ rows.own) × ((result.global ≡ rows.global + length (symbols_in operand.now)) × (result.shared ≤ rows.shared + length (symbols_in operand.now))) }
    ensures global_after { names_in (take (result.global * 8) global.new) ≡ names_in (take (rows.global * 8) global.old) ++ symbols_in operand.now }
    ensures adds { Adds (set_code (set_of set)) shared.old kinds.old rows.shared (symbols_in operand.now) shared.new kinds.new result.shared }
{
    let mine = filling::append_symbols(global, rows.global, operand);
    let theirs = filling::add_globals(shared, kinds, rows.shared, operand, set);
    Rows {
        global: mine,
        shared: theirs,
        ..rows
    }
}

// What a line of a body declares, put into the tables behind the first rows; answers how many rows there are then.
pub fn declare_line(
    line: &[u8],
    rows: Rows,
    own: &mut [u8],
    global: &mut [u8],
    shared: &mut [u8],
    kinds: &mut [u8],
) -> Rows
    requires { Room line.now rows own.old global.old shared.old kinds.old }
    ensures declares { Declares line.now rows own.old global.old shared.old kinds.old result own.new global.new shared.new kinds.new }
    ensures counted { Counted line.now rows result }
{
    if statements::is_remark(line) {
        return rows;
    }
    let cuts = fields::cuts_of(line);
    let from = cuts.operation;
    let to = cuts.space;
    let word = words::word(&line[from..to]);
    let start = cuts.operand;
    let end = cuts.remarks;
    let operand = &line[start..end];
    match word {
        Some(Word::Lcl(set)) => {
            if rows.own == 64 {
                return rows;
            }
            let mine = declare_locals(own, kinds, rows.own, operand, filling::number_of(set));
            Rows { own: mine, ..rows }
        }
        Some(Word::Gbl(set)) => { declare_globals(global, shared, kinds, rows, operand, set) }
        Some(Word::Macro) => rows,
        Some(Word::Mend) => rows,
        Some(Word::Mexit) => rows,
        Some(Word::Set(_)) => rows,
        Some(Word::Aif) => rows,
        Some(Word::Ago) => rows,
        Some(Word::Anop) => rows,
        Some(Word::Actr) => rows,
        None => rows,
    }
}

// A prototype's parameters, put into the tables; answers how many.
pub fn declare_prototype(line: &[u8], own: &mut [u8], kinds: &mut [u8]) -> usize
    requires { Prototype line.now own.old kinds.old }
    ensures starts { Starts line.now kinds.old result own.new kinds.new }
    ensures value { result ≡ length (own_names (names_of line.now [])) }
    ensures kinds_unchanged { drop 64 kinds.new ≡ drop 64 kinds.old }
{
    let cuts = fields::cuts_of(line);
    let gap = cuts.gap;
    let start = cuts.operand;
    let end = cuts.remarks;
    let count = filling::declare_parameters(own, &line[0..gap], &line[start..end]);
    lent::fill(kinds, 0, 0, count);
    count
}

// What all lines of a body declare, put into the tables behind a prototype's parameters; answers how many rows there are then.
pub fn declare_body(
    body: &[u8],
    rows: Rows,
    own: &mut [u8],
    global: &mut [u8],
    shared: &mut [u8],
    kinds: &mut [u8],
) -> Rows
    requires { RoomFor (lines_of body.now) rows own.old global.old shared.old kinds.old }
    ensures { DeclaresBehind [] (lines_of body.now) rows own.old global.old shared.old kinds.old result own.new global.new shared.new kinds.new }
{
    let mut count = rows;
    for line in LineReader::new(body) {
        count = declare_line(line, count, own, global, shared, kinds);
    }
    count
}
