// A body line's bytes in a deck, and what stands before a macro's lines: its name, its flag, counts and kinds.
#![tactic(auto)]

ghost use Rattle.std.specs.Prelude.{◌≡◌, ℕ, Bool, List, ◌∷◌, ◌++◌, map, ◌+◌, ◌-◌, ◌≤◌, ◌<◌, length, take};
ghost use Rattle.text.specs.Bytes.{Bytes};
ghost use Rattle.rules.specs.Statement.{Set as Of};
ghost use Rattle.rules.specs.Grammar.{symbol};
ghost use Rattle.grammar.specs.Kinds.{number_of};
ghost use Rattle.deck.specs.Coding.{two, list_of};
ghost use Rattle.deck.specs.Coders.{kind, flag_code, string, flag};
ghost use Rattle.lent.specs.Splice.{splice};
ghost use Rattle.shapes.specs.Shapes.{part};
ghost use Rattle.writing.specs.Bytes.{counted, does_code, behind_first, shape_bytes, Writable, line_bytes_by, numbered_bytes, WritableBy, lessened, title_bytes};

use kinds::{Does, Set};

// A text with its count before it, written from `at` on; answers where it ends.
pub fn put_counted(out: &mut [u8], at: usize, s: &[u8]) -> usize
    requires { (at + (length s.now + 2) ≤ length out.old) × (length s.now < 65536) }
    ensures value { result ≡ at + length (counted s.now) }
    ensures out_after { out.new ≡ splice out.old at (counted s.now) }
{
    lent::put_two(out, at, s.len());
    let start = at + 2;
    lent::copy(out, start, s);
    start + s.len()
}

// Every byte one less, from `at` on; 0 stays.
fn put_lessened(out: &mut [u8], at: usize, s: &[u8])
    requires { at + length s.now ≤ length out.old }
    ensures { out.new ≡ splice out.old at (lessened s.now) }
{
    for i in 0..s.len() {
        out[at + i] = s[i].saturating_sub(1);
    }
}

// The kinds of SET symbols, counted: one less than the tables have them.
pub fn put_kinds(out: &mut [u8], at: usize, kinds: &[u8]) -> usize
    requires { (at + (length kinds.now + 2) ≤ length out.old) × (length kinds.now < 65536) }
    ensures { (ks : List Of) → kinds.now ≡ map (λ k. number_of (symbol k)) ks → (result ≡ at + length ((list_of kind).put ks)) × (out.new ≡ splice out.old at ((list_of kind).put ks)) }
{
    lent::put_two(out, at, kinds.len());
    let start = at + 2;
    put_lessened(out, start, kinds);
    start + kinds.len()
}

// A number in two bytes and a text with its count; answers where they end.
fn put_branch(out: &mut [u8], at: usize, target: usize, operand: &[u8]) -> usize
    requires { (at + (length operand.now + 4) ≤ length out.old) × ((length operand.now < 65536) × (target < 65536)) }
    ensures value { result ≡ at + length (two.put target ++ counted operand.now) }
    ensures out_after { out.new ≡ splice out.old at (two.put target ++ counted operand.now) }
{
    lent::put_two(out, at, target);
    put_counted(out, at + 2, operand)
}

// Two texts with their counts; answers where they end.
fn put_pair(out: &mut [u8], at: usize, first: &[u8], second: &[u8]) -> usize
    requires { (at + (length first.now + length second.now + 4) ≤ length out.old) × ((length first.now < 65536) × (length second.now < 65536)) }
    ensures value { result ≡ at + length (counted first.now ++ counted second.now) }
    ensures out_after { out.new ≡ splice out.old at (counted first.now ++ counted second.now) }
{
    let end = put_counted(out, at, first);
    put_counted(out, end, second)
}

// Three texts with their counts; answers where they end.
fn put_three(out: &mut [u8], at: usize, name: &[u8], operation: &[u8], operand: &[u8]) -> usize
    requires { (at + (length name.now + length operation.now + length operand.now + 6) ≤ length out.old) × ((length name.now < 65536) × ((length operation.now < 65536) × (length operand.now < 65536))) }
    ensures value { result ≡ at + length (counted name.now ++ (counted operation.now ++ counted operand.now)) }
    ensures out_after { out.new ≡ splice out.old at (counted name.now ++ (counted operation.now ++ counted operand.now)) }
{
    let end = put_counted(out, at, name);
    put_pair(out, end, operation, operand)
}

// What a line does, as a deck has it: the first of the line's bytes.
#[tactic(auto, unfolding(crate::specs::Bytes::does_code, deck::specs::Coders::set_code))]
fn does_code(does: Does) -> u8
    ensures { result ≡ does_code does }
{
    match does {
        Does::Passes => 0,
        Does::Ends => 1,
        Does::Exits => 2,
        Does::Text => 3,
        Does::Models => 4,
        Does::BranchesIf => 5,
        Does::Branches => 6,
        Does::Counts => 7,
        Does::Sets(Set::A) => 8,
        Does::Sets(Set::B) => 9,
        Does::Sets(Set::C) => 10,
    }
}

// A line's bytes behind the first, by what it does, written from `at` on; answers where they end.
fn put_behind(
    does: Does,
    line: &[u8],
    target: usize,
    name: &[u8],
    operation: &[u8],
    operand: &[u8],
    out: &mut [u8],
    at: usize,
) -> usize
    requires line_len_bound { (length line.now < 65536) × ((target < 65536) × ((length name.now < 65536) × ((length operation.now < 65536) × (length operand.now < 65536)))) }
    requires operand_in_bounds { at + length (behind_first does line.now target name.now operation.now operand.now) ≤ length out.old }
    ensures value { result ≡ at + length (behind_first does line.now target name.now operation.now operand.now) }
    ensures out_after { out.new ≡ splice out.old at (behind_first does line.now target name.now operation.now operand.now) }
{
    match does {
        Does::Passes | Does::Ends | Does::Exits => at,
        Does::Text => put_counted(out, at, line),
        Does::Models => put_three(out, at, name, operation, operand),
        Does::BranchesIf => put_branch(out, at, target, operand),
        Does::Branches => {
            lent::put_two(out, at, target);
            at + 2
        }
        Does::Counts => put_counted(out, at, operand),
        Does::Sets(_) => put_pair(out, at, name, operand),
    }
}

// A body line's bytes, written from `at` on; answers where they end.
pub fn put_line(
    line: &[u8],
    shape: shapes::Shape,
    code: &[u8],
    target: usize,
    out: &mut [u8],
    at: usize,
) -> usize
    requires { Writable line.now shape code.now target out.old at }
    ensures value { result ≡ at + length (shape_bytes line.now shape code.now target) }
    ensures out_after { out.new ≡ splice out.old at (shape_bytes line.now shape code.now target) }
{
    let does = shape.does;
    let end = shape.name;
    let name = &code[..end];
    let start = shape.operation;
    let gap = shape.gap;
    let operation = &code[start..gap];
    let behind = shape.operand;
    let rest = shape.rest;
    let operand = &code[behind..rest];
    out[at] = does_code(does);
    put_behind(does, line, target, name, operation, operand, out, at + 1)
}

// What a line does whose bytes start in this number; where it stands for no line, the bytes behind it are a SET line's.
#[tactic(auto, unfolding(crate::specs::Bytes::line_bytes_by, crate::specs::Bytes::behind_first, rules::specs::Choice::choose))]
fn does_of(number: u8) -> Does
    ensures { (line : Bytes) → (target : ℕ) → (name : Bytes) → (operation : Bytes) → (operand : Bytes) → line_bytes_by number line target name operation operand ≡ number ∷ behind_first result line target name operation operand }
{
    match number {
        0 => Does::Passes,
        1 => Does::Ends,
        2 => Does::Exits,
        3 => Does::Text,
        4 => Does::Models,
        5 => Does::BranchesIf,
        6 => Does::Branches,
        7 => Does::Counts,
        8 => Does::Sets(Set::A),
        9 => Does::Sets(Set::B),
        10 => Does::Sets(Set::C),
        _ => Does::Sets(Set::A),
    }
}

// A line's bytes by the number in which they start, whatever number it is, written from `at` on; answers where they end.
// Of the shape only the places count.
pub fn put_numbered(
    number: u8,
    line: &[u8],
    shape: shapes::Shape,
    code: &[u8],
    target: usize,
    out: &mut [u8],
    at: usize,
) -> usize
    requires { WritableBy number line.now shape code.now target out.old at }
    ensures value { result ≡ at + length (numbered_bytes number line.now shape code.now target) }
    ensures out_after { out.new ≡ splice out.old at (numbered_bytes number line.now shape code.now target) }
{
    let does = does_of(number);
    let end = shape.name;
    let name = &code[..end];
    let start = shape.operation;
    let gap = shape.gap;
    let operation = &code[start..gap];
    let behind = shape.operand;
    let rest = shape.rest;
    let operand = &code[behind..rest];
    out[at] = number;
    put_behind(does, line, target, name, operation, operand, out, at + 1)
}

// A macro's name, whether it has a name parameter, and the number of its positionals, from `at` on.
pub fn put_title(out: &mut [u8], at: usize, title: &[u8], named: bool, positionals: usize) -> usize
    requires { (at + (length title.now + 5) ≤ length out.old) × ((length title.now < 65536) × (positionals < 65536)) }
    ensures value { result ≡ at + length (title_bytes title.now named positionals) }
    ensures out_after { out.new ≡ splice out.old at (title_bytes title.now named positionals) }
{
    let end = put_counted(out, at, title);
    out[end] = u8::from(named);
    lent::put_two(out, end + 1, positionals);
    end + 3
}
