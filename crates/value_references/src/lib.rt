// What a reference stands for: its text where it is kept, and its number.
#![tactic(auto)]

ghost use Rattle.std.specs.Prelude.{◌≡◌, true, List, [], Some, ℕ, pred, ◌+◌, ◌*◌, ◌≤◌, ◌<◌, length, get_or, pos, IfSome};
ghost use Rattle.text.specs.Bytes.{Bytes};
ghost use Rattle.std.proofs.Math.Option.{some};
ghost use Rattle.rules.specs.Values.{number_in, number_of_entries};
ghost use Rattle.rules.specs.Fields.{is_empty};
ghost use Rattle.rules.specs.Evaluate.{Cell, and_then, of_parameter, of_list, text_of, as_number, count_bytes, count_entries};
ghost use Rattle.rules.specs.Grammar.{as_term, after_k, after_n};
ghost use Rattle.kinds.specs.Kinds.{kind_for, table_of};
ghost use Rattle.grammar.specs.Tokens.{kind_of};
ghost use Rattle.value_sums.specs.Answers.{option_of, toks_by};
ghost use Rattle.value_sublists.specs.Entries.{part_in};
ghost use Rattle.value_sublists.specs.Entries.{part_of as part_found};
ghost use Rattle.work_frames.specs.Frames.{run_at, runs_at, place_in, parameter_at, level_in};
ghost use Rattle.work_frames.specs.Layout.{text_in};
ghost use Rattle.work_frames.specs.Holding.{set_kind, kind_in, Holding};
ghost use Rattle.value_references.specs.Referring.{ref_to, listed, first_of, first_read, place_of, kind_by, cell_number, is_placed, basis_of, run_place, meaning_of};

use kinds::{Kind, Set, Stand};
use value_sublists::Part;
use value_sums::{Numbered, Read, Refused};
use work_frames::Frame;

// What a field is evaluated in: the deck, the workspace, and the frame of the level that reads it.
#[derive(Clone, Copy)]
pub struct Scene<'a> {
    pub deck: &'a [u8],
    pub work: &'a [u8],
    pub frame: Frame,
    pub ghost shallow: { frame.depth < 6 },
}

// The subscripts of a reference: none, one or two.
#[derive(Clone, Copy)]
pub enum Subscripts {
    Bare,
    One(i32),
    Two(i32, i32),
}

// The kind of the SET symbol at place `q`, of which the deck has the kinds from `at` on; unknown behind the last.
fn set_kind(deck: &[u8], at: usize, q: usize) -> Kind
    ensures { result ≡ kind_for (kind_of (set_kind deck.now at q)) }
{
    let kinds = deck_reading::run_at(deck, at);
    if kinds.len() <= q {
        return Kind::Unknown;
    }
    match kinds[q] {
        1 => Kind::Symbol(Set::B),
        2 => Kind::Symbol(Set::C),
        _ => Kind::Symbol(Set::A),
    }
}

// The kind of a slot: parameters come first, then locals; from 192 on globals.
fn slot_kind(deck: &[u8], f: Frame, slot: u8) -> Kind
    requires { 128 ≤ slot }
    ensures { result ≡ kind_for (kind_of (kind_in deck.now f slot)) }
{
    let place = usize::from(slot);
    if 192 <= place {
        return set_kind(deck, 5, place - 192);
    }
    let own = place - 128;
    let params = usize::from(f.params);
    if own < params {
        return Kind::Parameter;
    }
    set_kind(deck, f.locals as usize, own - params)
}

// The kind of the variable symbol at a place, if one stands there.
pub fn kind_of(deck: &[u8], f: Frame, code: &[u8], at: usize) -> Option<Kind>
    ensures { (w : Bytes) (held : ℕ → Cell) → Holding deck.now w f held → result ≡ kind_by (toks_by held code.now at) }
{
    let b = lent::byte(code, at);
    if b < 128 {
        return None;
    }
    if b < 224 {
        return Some(slot_kind(deck, f, b));
    }
    match b {
        224 => Some(Kind::List),
        225 => Some(Kind::Index),
        226 => Some(Kind::Section),
        _ => None,
    }
}

// The cell in which a SET symbol is kept.
pub fn cell_of(f: Frame, slot: u8) -> usize
    requires { (f.depth < 6) × (128 ≤ slot) }
    ensures { (result ≡ cell_number f slot) × (result < 65536) }
{
    let place = usize::from(slot);
    if 192 <= place {
        return place - 192;
    }
    16 * usize::from(f.depth) + (place - 128).saturating_sub(usize::from(f.params))
}

// A run of bytes behind its length.
fn run_in(work: &[u8], at: usize) -> &[u8]
    requires { at < 4294967296 }
    ensures { (result.now ≡ run_at work.now at) × (length result.now < 65536) }
{
    spans::part(work, at + 1, usize::from(lent::byte(work, at)))
}

// The place in a parameter's row.
fn place_in(work: &[u8], at: usize) -> usize
    requires { at < 65536 }
    ensures { (result ≡ place_in work.now at) × (result < 16777216) }
{
    let a = usize::from(lent::byte(work, at + 1));
    let b = usize::from(lent::byte(work, at + 2));
    let c = usize::from(lent::byte(work, at + 3));
    (a * 256 + b) * 256 + c
}

// A parameter's value, by its row.
fn parameter<'a>(deck: &'a [u8], work: &'a [u8], at: usize) -> &'a [u8]
    requires { at < 65536 }
    ensures { (result.now ≡ parameter_at work.now deck.now at) × (length result.now < 65536) }
{
    let place = place_in(work, at);
    if lent::byte(work, at) == 0 {
        return run_in(work, place);
    }
    let high = usize::from(lent::byte(deck, place));
    let low = usize::from(lent::byte(deck, place + 1));
    spans::part(deck, place + 2, high * 256 + low)
}

// The place of the run that stands behind `n` others.
fn run_place(work: &[u8], at: usize, n: usize) -> usize
    requires { (at < 65536) × (n < 256) }
    ensures { (result ≡ run_place work.now at n) × (result < 4294967296) }
{
    let mut here = at;
    for _ in 0..n {
        here = here + 1 + usize::from(lent::byte(work, here));
    }
    here
}

// Run `n` of `count` runs that start at `at`; empty behind the last.
fn listed(work: &[u8], at: usize, count: u8, n: usize) -> &[u8]
    requires { at < 65536 }
    ensures { (result.now ≡ get_or (runs_at work.now at count) n []) × (length result.now < 65536) }
{
    if usize::from(count) <= n {
        return &[];
    }
    run_in(work, run_place(work, at, n))
}

// A level's bytes: all that is read of it is read inside.
fn level_of(work: &[u8], depth: u16) -> &[u8]
    requires { depth < 6 }
    ensures { result.now ≡ level_in work.now depth }
{
    spans::part(work, work_frames::level_at(usize::from(depth)), 224)
}

// The text of which a reference takes all or an entry.
pub fn basis<'a>(scene: Scene<'a>, slot: u8, kind: Kind, n: usize) -> &'a [u8]
    requires { (128 ≤ slot) × (slot < 227) }
    ensures { ((held : ℕ → Cell) → Holding scene.entry.deck.now scene.entry.work.now scene.entry.frame held → kind ≡ kind_for (held slot).kind → is_placed (held slot).kind ≡ true → result.now ≡ basis_of (held slot) n) × (length result.now < 65536) }
{
    let level = level_of(scene.work, scene.frame.depth);
    match kind {
        Kind::Symbol(_) => work_cells::string_in(scene.work, cell_of(scene.frame, slot)),
        Kind::Parameter => parameter(scene.deck, level, 72 + 4 * (usize::from(slot) - 128)),
        Kind::List => listed(level, 137, lent::byte(level, 136), n),
        Kind::Section => run_in(level, 0),
        Kind::Index => &[],
        Kind::Unknown => &[],
    }
}

// A subscript as a place in a list; 0 where it is none.
fn place_of(n: i32) -> usize
    ensures { result ≡ place_of n }
{
    if n < 0 { 0 } else { n as usize }
}

// The first subscript as a place in a list; 0 where there is none. (Only &SYSLIST reads the place, and without a subscript takes nothing.)
pub fn first_of(subscripts: Subscripts) -> usize
    ensures { result ≡ first_of subscripts }
{
    match subscripts {
        Subscripts::Bare => 0,
        Subscripts::One(a) => place_of(a),
        Subscripts::Two(a, _) => place_of(a),
    }
}

// The same of a reference that may have been read; 0 for a refusal.
pub fn first_read(so_far: Result<Read<Subscripts>, Numbered>) -> usize
    ensures { result ≡ first_read so_far }
{
    match so_far {
        Ok(read) => first_of(read.value),
        Err(_) => 0,
    }
}

// All of a text, as a part of it.
fn whole(s: &[u8]) -> Part
    ensures { part_in s.now (Some result) ≡ some s.now }
{
    Part {
        at: 0,
        size: s.len(),
    }
}

// Where what a parameter's reference takes of its value stands.
fn of_parameter(s: &[u8], subscripts: Subscripts) -> Option<Part>
    ensures { part_in s.now result ≡ of_parameter s.now (listed subscripts) }
{
    match subscripts {
        Subscripts::Bare => Some(whole(s)),
        Subscripts::One(a) => value_sublists::entry_place(s, a),
        Subscripts::Two(a, _) => value_sublists::entry_place(s, a),
    }
}

// Where what a reference to &SYSLIST takes of the operand that its first subscript names stands.
fn of_list(s: &[u8], subscripts: Subscripts) -> Option<Part>
    ensures { (all : List Bytes) → s.now ≡ get_or all (first_of subscripts) [] → part_in s.now result ≡ of_list all (listed subscripts) }
{
    match subscripts {
        Subscripts::Bare => Some(Part { at: 0, size: 0 }),
        Subscripts::One(a) => { if a < 0 { None } else { Some(whole(s)) } }
        Subscripts::Two(a, b) => {
            if a < 0 {
                None
            } else {
                value_sublists::entry_place(s, b)
            }
        }
    }
}

// Where what a reference takes of its basis stands.
pub fn part_place(s: &[u8], kind: Kind, subscripts: Subscripts) -> Option<Part>
    ensures { (c : Cell) → kind ≡ kind_for c.kind → is_placed c.kind ≡ true → s.now ≡ basis_of c (first_of subscripts) → part_in s.now result ≡ text_of (ref_to c (listed subscripts)) }
{
    match kind {
        Kind::Parameter => of_parameter(s, subscripts),
        Kind::List => of_list(s, subscripts),
        Kind::Symbol(_) | Kind::Index | Kind::Section | Kind::Unknown => Some(whole(s)),
    }
}

// What a reference takes of its basis.
pub fn part_of(s: &[u8], kind: Kind, subscripts: Subscripts) -> Option<&[u8]>
    ensures { ((c : Cell) → kind ≡ kind_for c.kind → is_placed c.kind ≡ true → s.now ≡ basis_of c (first_of subscripts) → part_found result ≡ text_of (ref_to c (listed subscripts))) × IfSome result (λ t. length t.now ≤ length s.now) }
{
    let part = part_place(s, kind, subscripts)?;
    Some(spans::part(s, part.at, part.size))
}

// What a reference takes of the text that its symbol stands for.
pub fn text_of<'a>(
    scene: Scene<'a>,
    slot: u8,
    kind: Kind,
    subscripts: Subscripts,
) -> Option<&'a [u8]>
    requires { (128 ≤ slot) × (slot < 227) }
    ensures { ((held : ℕ → Cell) → Holding scene.entry.deck.now scene.entry.work.now scene.entry.frame held → kind ≡ kind_for (held slot).kind → is_placed (held slot).kind ≡ true → part_found result ≡ text_of (ref_to (held slot) (listed subscripts))) × IfSome result (λ t. length t.now < 65536) }
{
    let s = basis(scene, slot, kind, first_of(subscripts));
    part_of(s, kind, subscripts)
}

// The number that a text is.
fn number_in(text: Option<&[u8]>) -> Option<i32>
    ensures { option_of result ≡ and_then (part_found text.entry) number_in }
{
    value_sums::digits_in(text?)
}

// The number of bytes of a text.
fn bytes_in(text: Option<&[u8]>) -> Option<i32>
    requires { IfSome text (λ t. length t.now < 65536) }
    ensures { option_of result ≡ and_then (part_found text.entry) (λ t. some (pos (length t))) }
{
    Some(text?.len() as i32)
}

// The number of entries of a text.
fn entries_in(text: Option<&[u8]>) -> Option<i32>
    requires { IfSome text (λ t. length t.now < 65536) }
    ensures { option_of result ≡ and_then (part_found text.entry) (λ t. some (pos (number_of_entries t))) }
{
    Some(value_sublists::entry_count(text?) as i32)
}

// The number of the call's positionals: its list without the name.
fn positionals(work: &[u8], depth: u16) -> i32
    requires { depth < 6 }
    ensures { result ≡ pos (pred (get_or (level_in work.now depth) text_in 0)) }
{
    i32::from(lent::byte(level_of(work, depth), 136).saturating_sub(1))
}

// The number that a reference stands for as a term.
fn term_of<'a>(scene: Scene<'a>, slot: u8, kind: Kind, subscripts: Subscripts) -> Option<i32>
    requires { (128 ≤ slot) × (slot < 227) }
    ensures { (held : ℕ → Cell) → Holding scene.entry.deck.now scene.entry.work.now scene.entry.frame held → kind ≡ kind_for (held slot).kind → as_term (held slot).kind (is_empty (listed subscripts)) ≡ true → option_of result ≡ as_number (ref_to (held slot) (listed subscripts)) }
{
    match kind {
        Kind::Symbol(set) => match set {
            Set::A => Some(work_cells::number_in(scene.work, cell_of(scene.frame, slot))),
            Set::B => None,
            Set::C => number_in(text_of(scene, slot, kind, subscripts)),
        },
        Kind::Index => Some(i32::from(scene.frame.number)),
        // The other kinds have a text, or may not stand here.
        _ => number_in(text_of(scene, slot, kind, subscripts)),
    }
}

// The number of bytes of what a reference stands for.
fn length_of<'a>(scene: Scene<'a>, slot: u8, kind: Kind, subscripts: Subscripts) -> Option<i32>
    requires { (128 ≤ slot) × (slot < 227) }
    ensures { (held : ℕ → Cell) → Holding scene.entry.deck.now scene.entry.work.now scene.entry.frame held → kind ≡ kind_for (held slot).kind → after_k (held slot).kind (is_empty (listed subscripts)) ≡ true → option_of result ≡ count_bytes (ref_to (held slot) (listed subscripts)) }
{
    match kind {
        Kind::Index => Some(4),
        // The other kinds have a text, or may not stand here.
        _ => bytes_in(text_of(scene, slot, kind, subscripts)),
    }
}

// The number of entries of what a reference stands for; of &SYSLIST alone, the number of positionals.
fn count_of<'a>(scene: Scene<'a>, slot: u8, kind: Kind, subscripts: Subscripts) -> Option<i32>
    requires { (128 ≤ slot) × (slot < 227) }
    ensures { (held : ℕ → Cell) → Holding scene.entry.deck.now scene.entry.work.now scene.entry.frame held → kind ≡ kind_for (held slot).kind → after_n (held slot).kind (is_empty (listed subscripts)) ≡ true → option_of result ≡ count_entries (ref_to (held slot) (listed subscripts)) }
{
    match (kind, subscripts) {
        (Kind::List, Subscripts::Bare) => Some(positionals(scene.work, scene.frame.depth)),
        // Every other reference that may stand here has a text.
        _ => entries_in(text_of(scene, slot, kind, subscripts)),
    }
}

// What a reference stands for as a term, after K' and after N', if it may stand there.
pub fn value_of<'a>(
    scene: Scene<'a>,
    slot: u8,
    kind: Kind,
    stand: Stand,
    subscripts: Subscripts,
) -> Option<i32>
    requires { (128 ≤ slot) × (slot < 227) }
    ensures { (held : ℕ → Cell) → Holding scene.entry.deck.now scene.entry.work.now scene.entry.frame held → kind ≡ kind_for (held slot).kind → table_of stand (held slot).kind (is_empty (listed subscripts)) ≡ true → option_of result ≡ meaning_of stand (ref_to (held slot) (listed subscripts)) }
{
    match stand {
        Stand::Term => term_of(scene, slot, kind, subscripts),
        Stand::AfterK => length_of(scene, slot, kind, subscripts),
        Stand::AfterN => count_of(scene, slot, kind, subscripts),
        Stand::AfterT => None,
        Stand::Text => None,
    }
}
