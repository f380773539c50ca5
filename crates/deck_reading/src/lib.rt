// A deck's heads and lines, read from its bytes.
#![tactic(auto)]

ghost use Rattle.std.specs.Prelude.{◌≡◌, ◌+◌, ◌<◌, ℕ, drop};
ghost use Rattle.text.specs.Bytes.{Bytes};
ghost use Rattle.deck.specs.Coding.{two, pair, list_of};
ghost use Rattle.deck.specs.Coders.{field, string, flag, kind, line};
ghost use Rattle.kinds.specs.Kinds.{set_for, does_for};
ghost use Rattle.deck_reading.specs.Reading.{two_at, run_at, run_end, found, run_found, below_found, field_at, flag_at, kinds_at, keyword_at, set_at, line_at, does_found, does_taken, does_by, does_in, line_in, reads};

use kinds::{Does, Set};

// A lexeme's byte is text below this one, which is an attribute mark's; variable symbols follow.
pub const MARK: u8 = 127;

// Behind the last byte that a lexeme has in a deck in good form.
pub const LEXEMES: u8 = 227;

// Behind the last byte that a kind of SET symbols has.
const KINDS: u8 = 3;

// What a line does, and where what it has stands: the place behind its first byte, and its three fields.
#[derive(Clone, Copy)]
pub struct Fields {
    pub does: Does,
    pub first: usize,
    pub name: usize,
    pub operation: usize,
    pub operand: usize,
}

// Two bytes as a number, the greater first.
pub fn two_at(s: &[u8], at: usize) -> usize
    ensures { (result ≡ two_at s.now at) × (result < 65536) }
{
    let rest = lent::behind(s, at);
    usize::from(lent::byte(rest, 0)) * 256 + usize::from(lent::byte(rest, 1))
}

// The place `count` bytes on, if they are all there.
fn reach(s: &[u8], at: usize, count: usize) -> Option<usize>
    ensures { result ≡ found s.now (at + count) }
{
    let end = at.checked_add(count)?;
    (end <= s.len()).then_some(end)
}

// Where the counted run of bytes at a place ends, if it is all there.
pub fn run_end(s: &[u8], at: usize) -> Option<usize>
    ensures { result ≡ run_found s.now at }
{
    let from = reach(s, at, 2)?;
    reach(s, from, two_at(s, at))
}

// The counted run of bytes at a place.
pub fn run_at(s: &[u8], at: usize) -> &[u8]
    ensures { result.now ≡ run_at s.now at }
{
    spans::part(s, behind_two(s, at), two_at(s, at))
}

// Where the run at a place ends, if it is all there and each of its bytes is below a limit.
fn run_below(s: &[u8], at: usize, limit: u8) -> Option<usize>
    ensures { result ≡ below_found limit s.now at }
{
    let end = run_end(s, at)?;
    let below = run_at(s, at).iter().all(|&b| b < limit);
    if below { Some(end) } else { None }
}

// The string at a place.
pub fn read_string(s: &[u8], at: usize) -> Option<usize>
    ensures { reads (run_at s.now at) s.now result ≡ string.get (drop at s.now) }
{
    run_end(s, at)
}

// The field at a place.
pub fn read_field(s: &[u8], at: usize) -> Option<usize>
    ensures { reads (field_at s.now at) s.now result ≡ field.get (drop at s.now) }
{
    run_below(s, at, LEXEMES)
}

// The kinds of SET symbols at a place.
pub fn read_kinds(s: &[u8], at: usize) -> Option<usize>
    ensures { reads (kinds_at s.now at) s.now result ≡ (list_of kind).get (drop at s.now) }
{
    run_below(s, at, KINDS)
}

// The number at a place.
pub fn read_two(s: &[u8], at: usize) -> Option<usize>
    ensures { reads (two_at s.now at) s.now result ≡ two.get (drop at s.now) }
{
    reach(s, at, 2)
}

// The yes or no at a place.
pub fn read_flag(s: &[u8], at: usize) -> Option<usize>
    ensures { reads (flag_at s.now at) s.now result ≡ flag.get (drop at s.now) }
{
    if 1 < lent::byte(s, at) {
        return None;
    }
    reach(s, at, 1)
}

// The keyword at a place: its name and its default.
pub fn read_keyword(s: &[u8], at: usize) -> Option<usize>
    ensures { reads (keyword_at s.now at) s.now result ≡ (pair string string).get (drop at s.now) }
{
    let default = read_string(s, at)?;
    read_string(s, default)
}

// What a line with this first byte does.
pub fn does_of(code: u8) -> Option<Does>
    ensures { result ≡ does_found code }
{
    match code {
        0 => Some(Does::Passes),
        1 => Some(Does::Ends),
        2 => Some(Does::Exits),
        3 => Some(Does::Text),
        4 => Some(Does::Models),
        5 => Some(Does::BranchesIf),
        6 => Some(Does::Branches),
        7 => Some(Does::Counts),
        8 => Some(Does::Sets(Set::A)),
        9 => Some(Does::Sets(Set::B)),
        10 => Some(Does::Sets(Set::C)),
        _ => None,
    }
}

// What a line with this first byte does; a byte that no line has is taken as SETA's.
pub fn does_taken(code: u8) -> Does
    ensures value { result ≡ does_taken code }
    ensures meaning { (s : Bytes) (at : ℕ) → does_in result s at ≡ does_by code s at }
{
    does_of(code).unwrap_or(Does::Sets(Set::A))
}

// The kind of SET symbols with this number; SETA where none has it.
pub fn set_numbered(number: u8) -> Set
    ensures { result ≡ set_for (set_at number) }
{
    match number {
        1 => Set::B,
        2 => Set::C,
        _ => Set::A,
    }
}

// The line at a place.
pub fn read_line(s: &[u8], at: usize) -> Option<usize>
    ensures { reads (line_at s.now at) s.now result ≡ line.get (drop at s.now) }
{
    let from = reach(s, at, 1)?;
    match does_of(lent::byte(s, at))? {
        Does::Passes | Does::Ends | Does::Exits => Some(from),
        Does::Text => read_string(s, from),
        Does::Models => {
            let operation = read_field(s, from)?;
            let operand = read_field(s, operation)?;
            read_field(s, operand)
        }
        Does::BranchesIf => {
            let operand = read_two(s, from)?;
            read_field(s, operand)
        }
        Does::Branches => read_two(s, from),
        Does::Counts => read_field(s, from),
        Does::Sets(_) => {
            let operand = read_field(s, from)?;
            read_field(s, operand)
        }
    }
}

// The place behind the run at a place; the end, where the run is not all there.
pub fn behind_run(s: &[u8], at: usize) -> usize
    ensures { drop result s.now ≡ drop (run_end s.now at) s.now }
{
    run_end(s, at).unwrap_or(s.len())
}

// The place behind the number at a place; the end, where it is not all there.
pub fn behind_two(s: &[u8], at: usize) -> usize
    ensures { drop result s.now ≡ drop (at + 2) s.now }
{
    reach(s, at, 2).unwrap_or(s.len())
}

// What the line at a place does; a first byte that no line has is taken as SETA's.
pub fn does_at(s: &[u8], at: usize) -> Does
    ensures { result ≡ does_for (line_at s.now at).does }
{
    does_taken(lent::byte(s, at))
}

// What the line at a place does, and where its fields stand.
pub fn line_fields(s: &[u8], at: usize) -> Fields
    ensures { line_in s.now result ≡ line_at s.now at }
{
    let end = s.len();
    let first = reach(s, at, 1).unwrap_or(end);
    let does = does_at(s, at);
    let bare = Fields {
        does,
        first,
        name: end,
        operation: end,
        operand: end,
    };
    match does {
        Does::Passes | Does::Ends | Does::Exits | Does::Text | Does::Branches => bare,
        Does::Models => {
            let operation = behind_run(s, first);
            let operand = behind_run(s, operation);
            Fields {
                name: first,
                operation,
                operand,
                ..bare
            }
        }
        Does::BranchesIf => Fields {
            operand: behind_two(s, first),
            ..bare
        },
        Does::Counts => Fields {
            operand: first,
            ..bare
        },
        Does::Sets(_) => Fields {
            name: first,
            operand: behind_run(s, first),
            ..bare
        },
    }
}
