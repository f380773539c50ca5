// Searches over lines: which of them a sequence symbol names, where a macro's body ends, and where the next macro starts.
#![tactic(auto)]

ghost use Rattle.std.specs.Prelude.{◌≡◌, ◌+◌, ◌-◌, ◌≤◌, length};
ghost use Rattle.rules.specs.Choice.{any};
ghost use Rattle.rules.specs.Fields.{lines_of};
ghost use Rattle.rules.specs.Library.{is_named, line_named};
ghost use Rattle.rules.specs.Faults.{is_named_up_to_mend, is_used_twice, is_bad_target};
ghost use Rattle.labels.specs.Searches.{past_newline, is_operation, behind, body_end, prototype_start};

use line_reader::LineReader;
pub use lines::past_newline;

// Behind the first line from `at` on that has this operation; the file's end where none has.
fn behind(file: &[u8], at: usize, word: &[u8]) -> usize
    ensures value { result ≡ behind (is_operation word.now) file.now at }
    ensures lower_bound { (at ≤ result) × (result ≤ at + (length file.now - at)) }
{
    let mut reader = LineReader { src: file, at };
    while let Some(line) = reader.next_line() {
        if lent::equal(statements::operation_of(line), word) {
            break;
        }
    }
    reader.at
}

// Where the body of a macro that starts at `at` ends: behind its MEND line, or the library's end.
pub fn body_end(library: &[u8], at: usize) -> usize
    ensures value { result ≡ body_end library.now at }
    ensures lower_bound { (at ≤ result) × (result ≤ at + (length library.now - at)) }
{
    behind(library, at, b"MEND")
}

// Where the prototype of the next macro starts: behind the next MACRO line from `at` on, or the library's end.
pub fn prototype_start(library: &[u8], at: usize) -> usize
    ensures value { result ≡ prototype_start library.now at }
    ensures lower_bound { (at ≤ result) × (result ≤ at + (length library.now - at)) }
{
    behind(library, at, b"MACRO")
}

// Whether the sequence symbol names one of the lines.
pub fn any_named(lines: &[u8], symbol: &[u8]) -> bool
    ensures { result ≡ any (is_named symbol.now) (lines_of lines.now) }
{
    LineReader::new(lines).any(|line| statements::is_named(line, symbol))
}

// The number of the first line that the sequence symbol names, counted from 0; how many lines there are where it names none.
pub fn line_named(lines: &[u8], symbol: &[u8]) -> usize
    ensures { result ≡ line_named symbol.now (lines_of lines.now) }
{
    LineReader::new(lines)
        .take_while(|line| !statements::is_named(line, symbol))
        .count()
}

// Whether the sequence symbol names one of the lines up to MEND, or up to the last one.
pub fn named_up_to_mend(lines: &[u8], symbol: &[u8]) -> bool
    ensures { result ≡ is_named_up_to_mend symbol.now (lines_of lines.now) }
{
    let end = body_end(lines, 0);
    any_named(&lines[0..end], symbol)
}

// Whether the name is a sequence symbol that names a line before.
pub fn is_used_twice(before: &[u8], name: &[u8]) -> bool
    ensures { result ≡ is_used_twice (lines_of before.now) name.now }
{
    if !statements::is_sequence(name) {
        return false;
    }
    any_named(before, &name[1..])
}

// Whether the symbol of a branch's target is too long, or names no line of the body: `before` are the lines before the branch, `from` starts with it.
pub fn is_bad_target(before: &[u8], from: &[u8], target: &[u8]) -> bool
    ensures { result ≡ is_bad_target (lines_of before.now) (lines_of from.now) target.now }
{
    let length = statements::symbol_length(target);
    if length == 0 {
        return false;
    }
    if 7 < length {
        return true;
    }
    let symbol = &target[1..length + 1];
    if any_named(before, symbol) {
        return false;
    }
    !named_up_to_mend(from, symbol)
}
