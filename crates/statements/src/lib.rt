// A line's name and operation, and what names and sequence symbols are.
#![tactic(auto)]

ghost use Rattle.std.specs.Prelude.{◌≡◌, length};
ghost use Rattle.rules.specs.Lexemes.{is_name, sequence_start, is_sequence};
ghost use Rattle.rules.specs.Fields.{is_remark, statement_fields};
ghost use Rattle.rules.specs.Library.{operation_of, is_macro, is_mend, is_named};
ghost use Rattle.rules.specs.Faults.{is_long_sequence, is_named_or_empty, is_model_name};

// Whether `s` is a letter, then letters or digits, at most `limit` in all.
pub fn is_name(s: &[u8], limit: usize) -> bool
    ensures { result ≡ is_name limit s.now }
{
    let starts = chars::letter(lent::byte(s, 0));
    let end = chars::symbol_end(s, 1);
    starts & ((end == s.len()) & (s.len() <= limit))
}

// How long the sequence symbol at the start of `s` is, without its period; 0 where there is none, the length of the rules' `sequence_start`, which is empty there.
pub fn symbol_length(s: &[u8]) -> usize
    ensures { result ≡ length (sequence_start s.now) }
{
    let period = lent::byte(s, 0) == b'.';
    let starts = chars::letter(lent::byte(s, 1));
    if period & starts {
        return chars::symbol_end(s, 2) - 1;
    }
    0
}

// Whether `s` is exactly a sequence symbol.
pub fn is_sequence(s: &[u8]) -> bool
    ensures { result ≡ is_sequence s.now }
{
    if s.len() == 0 {
        return false;
    }
    let name = is_name(&s[1..], 7);
    (s[0] == b'.') & name
}

// Whether the line is a remark.
pub fn is_remark(line: &[u8]) -> bool
    ensures { result ≡ is_remark line.now }
{
    let first = lent::byte(line, 0);
    let second = lent::byte(line, 1);
    (first == b'*') | ((first == b'.') & (second == b'*'))
}

// The name of a line; empty where it is a remark.
pub fn name_of(line: &[u8]) -> &[u8]
    ensures { result.now ≡ (statement_fields line.now).name }
{
    if is_remark(line) {
        return &line[0..0];
    }
    let end = fields::run_end(line, 0, false);
    &line[0..end]
}

// The operation of a line; empty where it is a remark.
pub fn operation_of(line: &[u8]) -> &[u8]
    ensures { result.now ≡ operation_of line.now }
{
    if is_remark(line) {
        return &line[0..0];
    }
    let gap = fields::run_end(line, 0, false);
    let start = fields::run_end(line, gap, true);
    let end = fields::run_end(line, start, false);
    &line[start..end]
}

// Whether the line ends a macro.
pub fn is_mend(line: &[u8]) -> bool
    ensures { result ≡ is_mend line.now }
{
    lent::equal(operation_of(line), b"MEND")
}

// Whether the line starts a macro.
pub fn is_macro(line: &[u8]) -> bool
    ensures { result ≡ is_macro line.now }
{
    lent::equal(operation_of(line), b"MACRO")
}

// Whether the sequence symbol names the line; `symbol` has no period.
pub fn is_named(line: &[u8], symbol: &[u8]) -> bool
    ensures { result ≡ is_named symbol.now line.now }
{
    let name = name_of(line);
    if !is_sequence(name) {
        return false;
    }
    lent::equal(&name[1..], symbol)
}

// Whether the name begins with a sequence symbol that is too long.
pub fn is_long_sequence(name: &[u8]) -> bool
    ensures { result ≡ is_long_sequence name.now }
{
    7 < symbol_length(name)
}

// Whether the name is a sequence symbol or empty.
pub fn is_named_or_empty(name: &[u8]) -> bool
    ensures { result ≡ is_named_or_empty name.now }
{
    if name.len() == 0 {
        return true;
    }
    is_sequence(name)
}

// Whether the name may stand on a line that is copied: one that starts with a period is a sequence symbol.
pub fn is_model_name(name: &[u8]) -> bool
    ensures { result ≡ is_model_name name.now }
{
    let other = lent::byte(name, 0) != b'.';
    let sequence = is_sequence(name);
    other | sequence
}
