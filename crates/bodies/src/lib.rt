// A macro's body in a deck: each line's bytes by the tables of names, all lines counted.
#![tactic(auto)]

ghost use Rattle.std.specs.Prelude.{◌≡◌, ◌+◌, ◌-◌, ◌≤◌, ◌<◌, length, drop};
ghost use Rattle.rules.specs.Fields.{lines_of, is_dropped_remark};
ghost use Rattle.rules.specs.Statement.{statements};
ghost use Rattle.rules.specs.Library.{line_named};
ghost use Rattle.lent.specs.Splice.{splice};
ghost use Rattle.bodies.specs.Lines.{target_by, kept_bytes, remark_bytes, fields_in, statement_in, line_in, lines_in, body_in};
ghost use Rattle.bodies.specs.Room.{Kept, Held, Ready, AllReady};

use kinds::Does;
use line_reader::LineReader;
use names::Names;

// The number of the line that a target names, its period left out.
fn number_of(body: &[u8], target: &[u8]) -> usize
    ensures { result ≡ line_named (drop 1 target.now) (lines_of body.now) }
{
    if target.len() == 0 {
        return labels::line_named(body, target);
    }
    labels::line_named(body, &target[1..])
}

// The number of the line that a branch goes to; 0 where the line is no branch.
#[tactic(auto, unfolding(crate::specs::Lines::target_by))]
fn target_number(does: Does, body: &[u8], target: &[u8]) -> usize
    ensures { result ≡ target_by body.now does target.now }
{
    match does {
        Does::BranchesIf | Does::Branches => number_of(body, target),
        Does::Passes | Does::Ends | Does::Exits | Does::Text => 0,
        Does::Models | Does::Counts | Does::Sets(_) => 0,
    }
}

// Whether the line is a remark that is dropped.
fn is_dropped_remark(line: &[u8]) -> bool
    ensures { result ≡ is_dropped_remark line.now }
{
    let first = lent::byte(line, 0);
    let second = lent::byte(line, 1);
    (first == b'.') & (second == b'*')
}

// A remark's bytes, written from `at` on; answers where they end.
fn put_remark(does: Does, line: &[u8], out: &mut [u8], at: usize) -> usize
    requires { (length line.now < 65536) × (at + length (remark_bytes does line.now) ≤ length out.old) }
    ensures value { result ≡ at + length (remark_bytes does line.now) }
    ensures out_after { out.new ≡ splice out.old at (remark_bytes does line.now) }
{
    let shape = shapes::Shape {
        does,
        name: 0,
        operation: 0,
        gap: 0,
        operand: 0,
        rest: 0,
        end: 0,
    };
    writing::put_line(line, shape, &line[0..0], 0, out, at)
}

// The bytes of a line by its shape over codes, written from `at` on; answers where they end.
fn put_kept(
    line: &[u8],
    body: &[u8],
    shape: shapes::Shape,
    code: &[u8],
    out: &mut [u8],
    at: usize,
) -> usize
    requires { Kept line.now body.now shape code.now out.old at }
    ensures value { result ≡ at + length (kept_bytes body.now line.now shape code.now) }
    ensures out_after { out.new ≡ splice out.old at (kept_bytes body.now line.now shape code.now) }
{
    let does = shape.does;
    let from = shape.rest;
    let to = shape.end;
    let target = target_number(does, body, &code[from..to]);
    writing::put_line(line, shape, code, target, out, at)
}

// A statement's bytes by its fields, written from `at` on; answers where they end.
fn put_fields(
    line: &[u8],
    name: &[u8],
    operation: &[u8],
    operand: &[u8],
    body: &[u8],
    names: Names,
    code: &mut [u8],
    out: &mut [u8],
    at: usize,
) -> usize
    requires held { Held line.now body.now name.now operation.now operand.now code.old }
    requires operand_in_bounds { at + length (fields_in names.own.now names.global.now names.shared.now body.now line.now name.now operation.now operand.now) ≤ length out.old }
    ensures value { result ≡ at + length (fields_in names.entry.own.now names.entry.global.now names.entry.shared.now body.now line.now name.now operation.now operand.now) }
    ensures out_after { out.new ≡ splice out.old at (fields_in names.entry.own.now names.entry.global.now names.entry.shared.now body.now line.now name.now operation.now operand.now) }
{
    let codes = shapes::code_fields(name, operation, operand, names, code);
    let end = codes.operand;
    let all = &code[..end];
    let word = words::word(operation);
    let label = statements::is_sequence(name);
    let shape = shapes::shape_of(word, label, codes, all);
    put_kept(line, body, shape, all, out, at)
}

// A statement's bytes in a deck, written from `at` on; answers where they end.
fn put_statement(
    line: &[u8],
    body: &[u8],
    names: Names,
    code: &mut [u8],
    out: &mut [u8],
    at: usize,
) -> usize
    requires ready { Ready line.now body.now code.old }
    requires line_in_bounds { at + length (statement_in names.own.now names.global.now names.shared.now body.now line.now) ≤ length out.old }
    ensures value { result ≡ at + length (statement_in names.entry.own.now names.entry.global.now names.entry.shared.now body.now line.now) }
    ensures out_after { out.new ≡ splice out.old at (statement_in names.entry.own.now names.entry.global.now names.entry.shared.now body.now line.now) }
{
    let cuts = fields::cuts_of(line);
    let gap = cuts.gap;
    let start = cuts.operation;
    let space = cuts.space;
    let behind = cuts.operand;
    let remarks = cuts.remarks;
    let name = &line[0..gap];
    let operation = &line[start..space];
    let operand = &line[behind..remarks];
    put_fields(line, name, operation, operand, body, names, code, out, at)
}

// A body line's bytes in a deck, written from `at` on; answers where they end. `code` is a buffer for its fields' codes.
pub fn put_body_line(
    line: &[u8],
    body: &[u8],
    names: Names,
    code: &mut [u8],
    out: &mut [u8],
    at: usize,
) -> usize
    requires ready { Ready line.now body.now code.old }
    requires line_in_bounds { at + length (line_in names.own.now names.global.now names.shared.now body.now line.now) ≤ length out.old }
    ensures value { result ≡ at + length (line_in names.entry.own.now names.entry.global.now names.entry.shared.now body.now line.now) }
    ensures out_after { out.new ≡ splice out.old at (line_in names.entry.own.now names.entry.global.now names.entry.shared.now body.now line.now) }
{
    if written::is_copied_remark(line) {
        return put_remark(Does::Text, line, out, at);
    }
    if is_dropped_remark(line) {
        return put_remark(Does::Passes, line, out, at);
    }
    put_statement(line, body, names, code, out, at)
}

// How many lines there are.
pub fn line_count(lines: &[u8]) -> usize
    ensures { result ≡ length (lines_of lines.now) }
{
    LineReader::new(lines).count()
}

// The bytes of all lines, one behind another, written from `at` on; answers where they end.
fn put_lines(body: &[u8], names: Names, code: &mut [u8], out: &mut [u8], at: usize) -> usize
    requires all_ready { AllReady body.now code.old }
    requires body_in_bounds { at + length (lines_in names.own.now names.global.now names.shared.now body.now (lines_of body.now)) ≤ length out.old }
    ensures value { result ≡ at + length (lines_in names.entry.own.now names.entry.global.now names.entry.shared.now body.now (lines_of body.now)) }
    ensures out_after { out.new ≡ splice out.old at (lines_in names.entry.own.now names.entry.global.now names.entry.shared.now body.now (lines_of body.now)) }
{
    let mut to = at;
    for line in LineReader::new(body) {
        to = put_body_line(line, body, names, code, out, to);
    }
    to
}

// All lines of a body, counted, written from `at` on; answers where they end.
pub fn put_body(body: &[u8], names: Names, code: &mut [u8], out: &mut [u8], at: usize) -> usize
    requires all_ready { AllReady body.now code.old }
    requires body_in_bounds { at + length (body_in names.own.now names.global.now names.shared.now body.now) ≤ length out.old }
    ensures value { result ≡ at + length (body_in names.entry.own.now names.entry.global.now names.entry.shared.now body.now) }
    ensures out_after { out.new ≡ splice out.old at (body_in names.entry.own.now names.entry.global.now names.entry.shared.now body.now) }
{
    let count = line_count(body);
    lent::put_two(out, at, count);
    put_lines(body, names, code, out, at + 2)
}
