// The lexemes of one field, written for a deck: a byte each.
#![tactic(auto)]

ghost use Rattle.std.specs.Prelude.{◌≡◌, [], ◌∷◌, ◌+◌, ◌-◌, ◌≤◌, ◌<◌, length};
ghost use Rattle.rules.specs.Lexemes.{is_mark};
ghost use Rattle.lent.specs.Splice.{splice};
ghost use Rattle.names.specs.Names.{slot_byte};
ghost use Rattle.coding.specs.Coded.{field_code, before_of, Leads};

use fields::Seen;
use names::Names;

// What stands before a place of a field: two bytes (spaces at the field's start), and whether a quote is open.
#[derive(Clone, Copy)]
pub struct Before {
    pub second: u8,
    pub first: u8,
    pub quoted: bool,
}

impl Before {
    // Nothing stands before a field's start.
    pub const START: Before = Before {
        second: b' ',
        first: b' ',
        quoted: false,
    };
}

// A piece of a field: `count` times a byte, up to place `next`; and what stands before that place.
#[derive(Clone, Copy)]
pub struct Piece {
    pub byte: u8,
    pub count: usize,
    pub next: usize,
    pub behind: Before,
}

// Whether the byte c is an attribute mark, by what stands before it and the byte behind it (0 where there is none).
pub fn is_mark(before: Before, c: u8, next: u8) -> bool
    ensures { result ≡ is_mark (before_of before) c (next ∷ []) }
{
    let seen = Seen {
        second: before.second,
        first: before.first,
        quoted: before.quoted,
        depth: 0,
    };
    fields::is_mark(seen, c, next)
}

// The piece at a place: a pair of ampersands, a variable symbol, an ampersand left over, an attribute mark or a byte.
fn piece_at(field: &[u8], at: usize, before: Before, quotes: bool, names: Names) -> Piece
    requires { at < length field.now }
    ensures { Leads (slot_byte names.entry.own.now names.entry.global.now names.entry.shared.now) quotes field.now at (before_of before) result }
{
    let c = field[at];
    let next = lent::byte(field, at + 1);
    if c == b'&' {
        if next == b'&' {
            return Piece {
                byte: c,
                count: 2,
                next: at + 2,
                behind: Before {
                    second: c,
                    first: c,
                    ..before
                },
            };
        }
        if chars::letter(next) {
            let end = chars::symbol_end(field, at + 2);
            return Piece {
                byte: names::slot_byte(&field[at + 1..end], names),
                count: 1,
                next: end,
                behind: Before {
                    second: field[end - 2],
                    first: field[end - 1],
                    ..before
                },
            };
        }
        return Piece {
            byte: 255,
            count: 1,
            next: at + 1,
            behind: Before {
                second: before.first,
                first: c,
                ..before
            },
        };
    }
    if is_mark(before, c, next) {
        return Piece {
            byte: 127,
            count: 1,
            next: at + 1,
            behind: Before {
                second: before.first,
                first: c,
                ..before
            },
        };
    }
    if c == b'\'' {
        return Piece {
            byte: c,
            count: 1,
            next: at + 1,
            behind: Before {
                second: before.first,
                first: c,
                quoted: quotes & !before.quoted,
            },
        };
    }
    Piece {
        byte: c,
        count: 1,
        next: at + 1,
        behind: Before {
            second: before.first,
            first: c,
            ..before
        },
    }
}

// The field's bytes, written from `from` on; answers where they end. An operand has quotes, a name or an operation none.
pub fn put_field(field: &[u8], quotes: bool, names: Names, out: &mut [u8], from: usize) -> usize
    requires { from + length field.now ≤ length out.old }
    ensures value { result ≡ from + length (field_code quotes names.entry.own.now names.entry.global.now names.entry.shared.now field.now) }
    ensures out_after { out.new ≡ splice out.old from (field_code quotes names.entry.own.now names.entry.global.now names.entry.shared.now field.now) }
{
    let mut at = 0;
    let mut to = from;
    let mut before = Before::START;
    // A piece has one byte or several, so the place goes on by what the piece says.
    while at < field.len() {
        let piece = piece_at(field, at, before, quotes, names);
        lent::fill(out, to, piece.byte, piece.count);
        to += piece.count;
        at = piece.next;
        before = piece.behind;
    }
    to
}
