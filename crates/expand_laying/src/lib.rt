// A model statement laid out anew, from what is kept of its three fields: their first bytes, and their lengths with and without trailing spaces.
#![tactic(auto)]

ghost use Rattle.std.specs.Prelude.{◌≡◌, ℕ, ◌+◌, ◌-◌, ◌≤◌, ◌<◌, ◌^◌, length};
ghost use Rattle.rules.specs.Limits.{line_limit, string_limit};
ghost use Rattle.lent.specs.Splice.{splice};
ghost use Rattle.spans.specs.Spans.{part_of};
ghost use Rattle.expand_laying.specs.Solid.{solid_both};
ghost use Rattle.expand_laying.specs.Solid.{gap as gap_of};
ghost use Rattle.expand_laying.specs.Solid.{solid as solid_in};
ghost use Rattle.expand_laying.specs.Kept.{kept_of, kept_in, at_most, joined_kept, put_kept, laid_kept};

// What a line is at most.
const LINE_LIMIT: usize = 71;

// What is kept of a field's bytes.
const FIELD_LIMIT: usize = 255;

// How many bytes stand before the operation and before the operand, where there is room.
const OPERATION: usize = 9;

const OPERAND: usize = 15;

// A text's true length, and its length without trailing spaces.
#[derive(Clone, Copy)]
pub struct Field {
    pub size: usize,
    pub solid: usize,
}

impl Field {
    // So many spaces.
    fn spaces(size: usize) -> Self
        ensures { (result.size ≡ size) × (result.solid ≡ 0) }
    {
        Self { size, solid: 0 }
    }
}

// The three fields of a model statement.
#[derive(Clone, Copy)]
pub struct Model {
    pub name: Field,
    pub operation: Field,
    pub operand: Field,
}

// How long a text is without its trailing spaces.
pub fn solid_of(s: &[u8]) -> usize
    ensures { result ≡ solid_in s.now }
{
    for at in (0..s.len()).rev() {
        if s[at] != b' ' {
            return at + 1;
        }
    }
    0
}

// The lengths of a text with another behind it.
#[tactic(auto, unfolding(crate::specs::Solid::solid_both, rules::specs::Choice::choose))]
fn both(f: Field, g: Field) -> Field
    requires { (g.solid ≤ g.size) × (f.size + g.size < 2 ^ 64) }
    ensures { (result.size ≡ f.size + g.size) × (result.solid ≡ solid_both f.size f.solid g.solid) }
{
    let solid = if g.solid == 0 {
        f.solid
    } else {
        f.size + g.solid
    };
    Field {
        size: f.size + g.size,
        solid,
    }
}

// So much of s, from `at` on, as stands before the limit.
fn copy_front(out: &mut [u8], limit: usize, at: usize, s: &[u8])
    requires { limit ≤ length out.old }
    ensures { out.new ≡ splice out.old at (part_of s.now 0 (limit - at)) }
{
    if at < limit {
        lent::copy(out, at, spans::part(s, 0, limit - at));
    }
}

// A text behind another, of which so many bytes are kept.
fn add(out: &mut [u8], limit: usize, f: Field, s: &[u8], g: Field) -> Field
    requires { (limit ≤ length out.old) × (at_most limit g.size ≤ length s.now) × (g.solid ≤ g.size) × (f.size + g.size < 2 ^ 64) }
    ensures { kept_in limit out.new result ≡ joined_kept limit (kept_in limit out.old f) (kept_in limit s.now g) }
{
    let at = f.size;
    let count = g.size;
    copy_front(out, limit, at, spans::part(s, 0, count));
    both(f, g)
}

// More bytes behind a field.
pub fn append_field(out: &mut [u8], f: Field, s: &[u8]) -> Field
    requires { (string_limit ≤ length out.old) × (f.size + length s.now < 2 ^ 64) }
    ensures { kept_in string_limit out.new result ≡ joined_kept string_limit (kept_in string_limit out.old f) (kept_of string_limit s.now) }
{
    let size = s.len();
    let solid = solid_of(s);
    add(out, FIELD_LIMIT, f, s, Field { size, solid })
}

// How many spaces stand between a line of n bytes and the field that follows.
#[tactic(auto, unfolding(crate::specs::Solid::gap, rules::specs::Choice::choose))]
fn gap(before: usize, n: usize) -> usize
    ensures { result ≡ gap_of before n }
{
    if n < before { before - n } else { 1 }
}

// A field behind a line, at its column or one space on.
fn put(line: &mut [u8], before: usize, l: Field, s: &[u8], f: Field) -> Field
    requires { (line_limit ≤ length line.old) × (before ≤ 15) × (line_limit ≤ length s.now) × (f.solid ≤ f.size) × (l.size + f.size + 16 < 2 ^ 64) }
    ensures { kept_in line_limit line.new result ≡ put_kept before (kept_in line_limit line.old l) (kept_in line_limit s.now f) }
{
    let spaces = Field::spaces(gap(before, l.size));
    let spaced = add(line, LINE_LIMIT, l, b"               ", spaces);
    add(line, LINE_LIMIT, spaced, s, f)
}

// The line of a model statement: its first 71 bytes are written, its lengths are answered.
pub fn lay(line: &mut [u8], name: &[u8], operation: &[u8], operand: &[u8], m: Model) -> Field
    requires { (line_limit ≤ length line.old) × (line_limit ≤ length name.now) × (line_limit ≤ length operation.now) × (line_limit ≤ length operand.now) × (m.name.solid ≤ m.name.size) × (m.operation.solid ≤ m.operation.size) × (m.operand.solid ≤ m.operand.size) × (m.name.size + m.operation.size + m.operand.size + 32 < 2 ^ 64) }
    ensures { kept_in line_limit line.new result ≡ laid_kept (kept_in line_limit name.now m.name) (kept_in line_limit operation.now m.operation) (kept_in line_limit operand.now m.operand) }
{
    let start = add(line, LINE_LIMIT, Field::spaces(0), name, m.name);
    let operated = put(line, OPERATION, start, operation, m.operation);
    if m.operand.size == 0 {
        return operated;
    }
    put(line, OPERAND, operated, operand, m.operand)
}
