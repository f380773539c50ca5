// Macros in a deck: one macro's bytes, those of all macros of a library, and the whole deck. The tables are separate slices, since each is written
// (memory is fixed, and one struct of `&mut` slices would be taken apart and put together again at each call).
#![tactic(auto)]

ghost use Rattle.std.specs.Prelude.{◌≡◌, List, map, ◌+◌, ◌-◌, ◌≤◌, ◌<◌, length, take, drop};
ghost use Rattle.rules.specs.Statement.{Set};
ghost use Rattle.rules.specs.Grammar.{symbol};
ghost use Rattle.rules.specs.Faults.{accepted, verdict};
ghost use Rattle.grammar.specs.Kinds.{number_of};
ghost use Rattle.deck.specs.Translation.{deck_of};
ghost use Rattle.lent.specs.Splice.{splice};
ghost use Rattle.decks.specs.Decks.{macro_put, macros_put, front_of};
ghost use Rattle.macros.specs.Macros.{globals_of_library, macro_of, Holds, globals_at, Lent, parts_put, Parts, tables_put, Tabled, Writable};

use names::Names;

// A macro's bytes by its prototype, the kinds of its locals and the tables of its names, from `at` on; answers where they end.
fn put_parts(
    prototype: &[u8],
    body: &[u8],
    kinds: &[u8],
    names: Names,
    code: &mut [u8],
    out: &mut [u8],
    at: usize,
) -> usize
    requires { Parts prototype.now body.now kinds.now names.own.now names.global.now names.shared.now code.old out.old at }
    ensures { (ks : List Set) → kinds.now ≡ map (λ k. number_of (symbol k)) ks → (result ≡ at + length (parts_put prototype.now ks names.entry.own.now names.entry.global.now names.entry.shared.now body.now)) × (out.new ≡ splice out.old at (parts_put prototype.now ks names.entry.own.now names.entry.global.now names.entry.shared.now body.now)) }
{
    let head = headers::put_header(prototype, out, at);
    let end = writing::put_kinds(out, head, kinds);
    bodies::put_body(body, names, code, out, end)
}

// The same by whole tables: a macro with so many parameters, and the rows that its names have.
fn put_tables(
    prototype: &[u8],
    body: &[u8],
    parameters: usize,
    rows: collecting::Rows,
    names: Names,
    kinds: &[u8],
    code: &mut [u8],
    out: &mut [u8],
    at: usize,
) -> usize
    requires { Tabled prototype.now body.now parameters rows names.own.now names.global.now names.shared.now kinds.now code.old out.old at }
    ensures { (ks : List Set) → take (rows.own - parameters) (drop parameters kinds.now) ≡ map (λ k. number_of (symbol k)) ks → (result ≡ at + length (tables_put prototype.now ks rows names.entry.own.now names.entry.global.now names.entry.shared.now body.now)) × (out.new ≡ splice out.old at (tables_put prototype.now ks rows names.entry.own.now names.entry.global.now names.entry.shared.now body.now)) }
{
    let named = rows.own;
    let mine = named * 8;
    let theirs = rows.global * 8;
    let ours = rows.shared * 8;
    put_parts(
        prototype,
        body,
        &kinds[parameters..named],
        Names {
            own: &names.own[..mine],
            global: &names.global[..theirs],
            shared: &names.shared[..ours],
        },
        code,
        out,
        at,
    )
}

// A macro's bytes in a deck, from `at` on; answers where they end. Its names are put into the tables, behind the library's `globals` globals.
pub fn put_macro(
    prototype: &[u8],
    body: &[u8],
    globals: usize,
    own: &mut [u8],
    global: &mut [u8],
    shared: &mut [u8],
    kinds: &mut [u8],
    code: &mut [u8],
    out: &mut [u8],
    at: usize,
) -> usize
    requires { Writable (globals_at globals shared.old kinds.old) (macro_of prototype.now body.now) globals own.old global.old shared.old kinds.old code.old out.old at }
    ensures value { result ≡ at + length (macro_put (globals_at globals shared.old kinds.old) (macro_of prototype.now body.now)) }
    ensures out_after { out.new ≡ splice out.old at (macro_put (globals_at globals shared.old kinds.old) (macro_of prototype.now body.now)) }
    ensures holds { Holds (globals_at globals shared.old kinds.old) globals shared.new kinds.new }
{
    let parameters = collecting::declare_prototype(prototype, own, kinds);
    let first = collecting::Rows {
        own: parameters,
        global: 0,
        shared: globals,
    };
    let rows = collecting::declare_body(body, first, own, global, shared, kinds);
    let names = Names {
        own,
        global,
        shared,
    };
    put_tables(
        prototype, body, parameters, rows, names, kinds, code, out, at,
    )
}

// The bytes of all macros of an accepted library, from `at` on; answers where they end.
pub fn put_macros(
    library: &[u8],
    globals: usize,
    own: &mut [u8],
    global: &mut [u8],
    shared: &mut [u8],
    kinds: &mut [u8],
    code: &mut [u8],
    out: &mut [u8],
    at: usize,
) -> usize
    requires library_value { (verdict library.now ≡ accepted) × (Lent own.old global.old shared.old kinds.old code.old × Holds (globals_of_library library.now) globals shared.old kinds.old) }
    requires library_in_bounds { at + length (macros_put (globals_of_library library.now) library.now 0) ≤ length out.old }
    ensures value { result ≡ at + length (macros_put (globals_of_library library.now) library.now 0) }
    ensures out_after { out.new ≡ splice out.old at (macros_put (globals_of_library library.now) library.now 0) }
{
    let mut next = 0;
    let mut to = at;
    while let Some(found) = decks::next_macro(library, next) {
        to = put_macro(
            found.prototype,
            found.body,
            globals,
            own,
            global,
            shared,
            kinds,
            code,
            out,
            to,
        );
        next = found.next;
    }
    to
}

// What stands between a deck's count of bytes and its macros: the version, the globals' kinds, the number of macros; answers where it ends.
fn put_front(kinds: &[u8], count: usize, out: &mut [u8]) -> usize
    requires { (length kinds.now ≤ 64) × ((count < 65536) × (65536 ≤ length out.old)) }
    ensures { (ks : List Set) → kinds.now ≡ map (λ k. number_of (symbol k)) ks → (result ≡ 4 + length (front_of ks count)) × (out.new ≡ splice out.old 4 (front_of ks count)) }
{
    out[4] = 1;
    writing::put_kinds(out, 5, kinds);
    let end = kinds.len() + 7;
    lent::put_two(out, end, count);
    end + 2
}

// The deck of an accepted library, from the buffer's start on; answers how many bytes it has. The tables hold the library's `globals` globals.
pub fn put_deck(
    library: &[u8],
    globals: usize,
    own: &mut [u8],
    global: &mut [u8],
    shared: &mut [u8],
    kinds: &mut [u8],
    code: &mut [u8],
    out: &mut [u8],
) -> usize
    requires library_value { (verdict library.now ≡ accepted) × (Lent own.old global.old shared.old kinds.old code.old × Holds (globals_of_library library.now) globals shared.old kinds.old) }
    requires in_bounds { 65536 ≤ length out.old }
    ensures value { result ≡ length (deck_of library.now) }
    ensures out_after { out.new ≡ splice out.old 0 (deck_of library.now) }
{
    let count = decks::macro_count(library);
    let past = 64 + globals;
    let start = put_front(&kinds[64..past], count, out);
    let end = put_macros(
        library, globals, own, global, shared, kinds, code, out, start,
    );
    lent::put_four(out, 0, end - 4);
    end
}
