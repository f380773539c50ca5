// What an operand declares: symbols that may not be declared, how many there are, and how many are new to the library.
#![tactic(auto)]

ghost use Rattle.std.specs.Prelude.{◌≡◌, not, length};
ghost use Rattle.text.specs.Bytes.{bytes, same};
ghost use Rattle.rules.specs.Choice.{any, count};
ghost use Rattle.rules.specs.Fields.{starts_with};
ghost use Rattle.rules.specs.Faults.{declares_wrongly, has_other_kind};
ghost use Rattle.kinds.specs.Kinds.{set_of};
ghost use Rattle.names.specs.Names.{names_in};
ghost use Rattle.declaring.specs.Declared.{symbols_in, is_taken, set_numbered, globals_in};

use kinds::Set;
use operands::Symbols;

// Whether the name is one of the table's.
fn is_among(name: &[u8], table: &[u8]) -> bool
    ensures { result ≡ any (same name.now) (names_in table.now) }
{
    names::place(table, name) < table.len() / 8
}

// Whether the name begins SYS.
pub fn begins_sys(name: &[u8]) -> bool
    ensures { result ≡ starts_with (bytes "SYS") name.now }
{
    name.starts_with(b"SYS")
}

// The set that a table has by this number.
fn set_numbered(number: u8) -> Set
    ensures { set_of result ≡ set_numbered number }
{
    match number {
        1 => Set::A,
        2 => Set::B,
        _ => Set::C,
    }
}

// Whether one of the library's globals has the name and another kind.
fn has_other_kind(name: &[u8], set: Set, shared: &[u8], kinds: &[u8]) -> bool
    ensures { result ≡ has_other_kind (set_of set) (globals_in shared.now kinds.now) name.now }
{
    for i in 0..shared.len() / 8 {
        let row = names::name_at(shared, i);
        let held = set_numbered(lent::byte(kinds, 64 + i));
        if lent::equal(row, name) & (held != set) {
            return true;
        }
    }
    false
}

// Whether the operand declares a symbol that begins SYS, stands in it twice, or is taken already.
pub fn declares_wrongly(operand: &[u8], own: &[u8], global: &[u8]) -> bool
    ensures { result ≡ declares_wrongly (is_taken own.now global.now) (symbols_in operand.now) }
{
    let mut symbols = Symbols::of(operand);
    while let Some(name) = symbols.next() {
        let system = begins_sys(name);
        let mine = is_among(name, own);
        let theirs = is_among(name, global);
        let later = operands::symbol_among(symbols, name);
        if system | ((mine | theirs) | later) {
            return true;
        }
    }
    false
}

// Whether the operand declares one of the library's globals with another kind.
pub fn gives_other_kind(operand: &[u8], set: Set, shared: &[u8], kinds: &[u8]) -> bool
    ensures { result ≡ any (has_other_kind (set_of set) (globals_in shared.now kinds.now)) (symbols_in operand.now) }
{
    Symbols::of(operand).any(|name| has_other_kind(name, set, shared, kinds))
}

// How many symbols the operand declares.
pub fn symbol_count(operand: &[u8]) -> usize
    ensures { result ≡ length (symbols_in operand.now) }
{
    Symbols::of(operand).count()
}

// How many of them are none of the library's globals.
pub fn new_count(operand: &[u8], shared: &[u8]) -> usize
    ensures { result ≡ count (λ n. not (any (same n) (names_in shared.now))) (symbols_in operand.now) }
{
    Symbols::of(operand)
        .filter(|name| !is_among(name, shared))
        .count()
}
