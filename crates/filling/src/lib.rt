// Declared symbols put into tables: a macro's own names, and the library's globals with their kinds.
#![tactic(auto)]

ghost use Rattle.std.specs.Prelude.{◌≡◌, false, [], ◌∷◌, ◌++◌, ◌+◌, ◌*◌, ◌≤◌, ◌<◌, length, take};
ghost use Rattle.rules.specs.Choice.{any};
ghost use Rattle.rules.specs.Lexemes.{is_long, lexed};
ghost use Rattle.rules.specs.Grammar.{symbol};
ghost use Rattle.rules.specs.Library.{start_symbol};
ghost use Rattle.deck.specs.Coders.{set_code};
ghost use Rattle.names.specs.Names.{names_in};
ghost use Rattle.grammar.specs.Kinds.{number_of};
ghost use Rattle.kinds.specs.Kinds.{set_of};
ghost use Rattle.declared.specs.Declared.{start_name};
ghost use Rattle.declaring.specs.Declared.{symbols_in};
ghost use Rattle.filling.specs.Added.{Adds};

use kinds::Set;
use operands::Symbols;

// The symbol that the part starts with, if it does with one, in a row behind the first `rows`; answers how many rows there are then.
fn append_start(table: &mut [u8], rows: usize, part: &[u8]) -> usize
    requires { ((rows + length (start_name part.now)) * 8 ≤ length table.old) × (any is_long (start_name part.now) ≡ false) }
    ensures value { result ≡ rows + length (start_name part.now) }
    ensures table_after { names_in (take (result * 8) table.new) ≡ names_in (take (rows * 8) table.old) ++ start_name part.now }
{
    match declared::start_symbol(part) {
        Some(name) => {
            tables::declare(table, rows, name);
            rows + 1
        }
        None => rows,
    }
}

// The operand's symbols, in rows behind the first `rows`; answers how many rows there are then.
pub fn append_symbols(table: &mut [u8], rows: usize, operand: &[u8]) -> usize
    requires { ((rows + length operand.now) * 8 ≤ length table.old) × (any is_long (symbols_in operand.now) ≡ false) }
    ensures value { result ≡ rows + length (symbols_in operand.now) }
    ensures table_after { names_in (take (result * 8) table.new) ≡ names_in (take (rows * 8) table.old) ++ symbols_in operand.now }
{
    let mut count = rows;
    for name in Symbols::of(operand) {
        tables::declare(table, count, name);
        count += 1;
    }
    count
}

// A prototype's parameters, from the table's start on: its name's symbol, then its operand's; answers how many.
pub fn declare_parameters(table: &mut [u8], name: &[u8], operand: &[u8]) -> usize
    requires { ((1 + length operand.now) * 8 ≤ length table.old) × ((any is_long (start_symbol (lexed false name.now)) ≡ false) × (any is_long (symbols_in operand.now) ≡ false)) }
    ensures value { result ≡ length (start_symbol (lexed false name.now) ++ symbols_in operand.now) }
    ensures table_after { names_in (take (result * 8) table.new) ≡ start_symbol (lexed false name.now) ++ symbols_in operand.now }
{
    let rows = append_start(table, 0, name);
    append_symbols(table, rows, operand)
}

// The number by which tables have a set.
pub fn number_of(set: Set) -> u8
    ensures { result ≡ number_of (symbol (set_of set)) }
{
    match set {
        Set::A => 1,
        Set::B => 2,
        Set::C => 3,
    }
}

// The name with its kind, behind the first `rows`, if it is not among the library's globals yet; answers how many rows there are then.
fn add_global(shared: &mut [u8], kinds: &mut [u8], rows: usize, name: &[u8], set: Set) -> usize
    requires { (rows * 8 + 8 ≤ length shared.old) × ((64 + rows < length kinds.old) × (length name.now ≤ 7)) }
    ensures upper_bound { result ≤ rows + 1 }
    ensures adds { Adds (set_code (set_of set)) shared.old kinds.old rows (name.now ∷ []) shared.new kinds.new result }
{
    if names::place(&shared[..rows * 8], name) < rows {
        return rows;
    }
    tables::declare(shared, rows, name);
    kinds[64 + rows] = number_of(set);
    rows + 1
}

// Those of the operand's symbols that are not among the library's globals yet, with their kind, behind the first `rows`; answers how many rows there are then.
pub fn add_globals(
    shared: &mut [u8],
    kinds: &mut [u8],
    rows: usize,
    operand: &[u8],
    set: Set,
) -> usize
    requires { ((rows + length operand.now) * 8 ≤ length shared.old) × ((64 + (rows + length operand.now) ≤ length kinds.old) × (any is_long (symbols_in operand.now) ≡ false)) }
    ensures upper_bound { result ≤ rows + length (symbols_in operand.now) }
    ensures adds { Adds (set_code (set_of set)) shared.old kinds.old rows (symbols_in operand.now) shared.new kinds.new result }
{
    let mut count = rows;
    for name in Symbols::of(operand) {
        count = add_global(shared, kinds, count, name, set);
    }
    count
}
