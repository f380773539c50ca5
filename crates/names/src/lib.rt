// Names in lent tables of rows of eight bytes: where a name stands, what it is in a deck, and the search of a macro's name.
#![tactic(auto)]

ghost use Rattle.std.specs.Prelude.{◌≡◌, ◌+◌, ◌*◌, ◌≤◌, ◌<◌, min, length, get_or, drop};
ghost use Rattle.text.specs.Words.{place_among};
ghost use Rattle.deck.specs.Slots.{system_slot};
ghost use Rattle.deck.specs.Coders.{slot_code, no_code};
ghost use Rattle.names.specs.Names.{name_in, names_in, slot_byte, titles_in, padded};

// The byte of a name that is not known.
pub const UNKNOWN: u8 = 254;

// The tables that tell what a variable symbol is: a macro's own names, those of its GBL statements, and the library's globals.
#[derive(Clone, Copy)]
pub struct Names<'a> {
    pub own: &'a [u8],
    pub global: &'a [u8],
    pub shared: &'a [u8],
}

// The length that a row's first byte tells: at most 7.
fn size(byte: u8) -> usize
    ensures { result ≡ min byte 7 }
{
    usize::from(byte.min(7))
}

// The name in row k.
pub fn name_at(table: &[u8], k: usize) -> &[u8]
    requires { k * 8 + 8 ≤ length table.now }
    ensures { result.now ≡ name_in (drop (k * 8) table.now) }
{
    let start = k * 8 + 1;
    let end = start + size(table[k * 8]);
    &table[start..end]
}

// The number of the first row that holds the name, or the number of rows: a new name's row is the one behind the last, as in the rules' `place_among`.
pub fn place(table: &[u8], name: &[u8]) -> usize
    ensures { result ≡ place_among (names_in table.now) name.now }
{
    let rows = table.len() / 8;
    for k in 0..rows {
        let row = name_at(table, k);
        if lent::equal(row, name) {
            return k;
        }
    }
    rows
}

// The code of a place, counted from `first` on; 255 where it is no byte.
fn code(first: usize, place: usize) -> u8
    requires { first ≤ no_code }
    ensures { result ≡ min (first + place) no_code }
{
    if place < 255 - first {
        return (first + place) as u8;
    }
    255
}

// The byte of a system symbol; any other name is not known.
fn system_byte(name: &[u8]) -> u8
    ensures { result ≡ min (slot_code (system_slot name.now)) no_code }
{
    if lent::equal(name, b"SYSLIST") {
        return 224;
    }
    if lent::equal(name, b"SYSNDX") {
        return 225;
    }
    if lent::equal(name, b"SYSECT") {
        return 226;
    }
    UNKNOWN
}

// The byte that a variable symbol is in a deck, by the tables of names.
pub fn slot_byte(name: &[u8], names: Names) -> u8
    ensures { result ≡ slot_byte names.entry.own.now names.entry.global.now names.entry.shared.now name.now }
{
    let mine = place(names.own, name);
    if mine < names.own.len() / 8 {
        return code(128, mine);
    }
    if place(names.global, name) < names.global.len() / 8 {
        return code(192, place(names.shared, name));
    }
    system_byte(name)
}

// The byte at a place of the name with blanks behind it.
fn padded_byte(name: &[u8], i: usize) -> u8
    requires { i < 8 }
    ensures { result ≡ get_or (padded name.now) i 0 }
{
    if i < name.len() {
        return name[i];
    }
    b' '
}

// The number of the first row that is the name with blanks behind it, or the number of rows. 01 names this form: labelled nested loops over macros and name
// bytes, broken out with the macro's number.
pub fn find_macro(table: &[u8], name: &[u8]) -> usize
    ensures { result ≡ place_among (titles_in table.now) (padded name.now) }
{
    let rows = table.len() / 8;
    if 8 < name.len() {
        return rows;
    }
    let mut number = 0;
    let found = 'search: loop {
        if number == rows {
            break 'search rows;
        }
        let mut i = 0;
        while i < 8 {
            let b = padded_byte(name, i);
            if table[number * 8 + i] != b {
                number += 1;
                continue 'search;
            }
            i += 1;
        }
        break 'search number;
    };
    found
}
