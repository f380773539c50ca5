// How a line is written: whether its bytes are in the set, whether it is a remark that is copied, and its name and operand, whatever its operation is.
#![tactic(auto)]

ghost use Rattle.std.specs.Prelude.{◌≡◌};
ghost use Rattle.text.specs.Characters.{in_set};
ghost use Rattle.rules.specs.Choice.{every};
ghost use Rattle.rules.specs.Fields.{is_ill_written, is_copied_remark, fields_of};

// Whether every byte is in the set.
fn all_in_set(line: &[u8]) -> bool
    ensures { result ≡ every in_set line.now }
{
    line.iter().all(|b| chars::in_set(*b))
}

// Whether a line has a byte outside the set or is too long.
pub fn is_ill_written(line: &[u8]) -> bool
    ensures { result ≡ is_ill_written line.now }
{
    let good = all_in_set(line);
    (71 < line.len()) | !good
}

// Whether a line is a remark that is copied.
pub fn is_copied_remark(line: &[u8]) -> bool
    ensures { result ≡ is_copied_remark line.now }
{
    lent::byte(line, 0) == b'*'
}

// The name of a line, read as a statement.
pub fn name_field(line: &[u8]) -> &[u8]
    ensures { result.now ≡ (fields_of line.now).name }
{
    let end = fields::run_end(line, 0, false);
    &line[0..end]
}

// The operand of a line, read as a statement.
pub fn operand_field(line: &[u8]) -> &[u8]
    ensures { result.now ≡ (fields_of line.now).operand }
{
    let gap = fields::run_end(line, 0, false);
    let operation = fields::run_end(line, gap, true);
    let space = fields::run_end(line, operation, false);
    let operand = fields::run_end(line, space, true);
    let holds = fields::holds_spaces(&line[operation..space]);
    let end = fields::operand_end(line, operand, holds);
    &line[operand..end]
}
