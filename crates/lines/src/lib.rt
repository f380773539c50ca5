// The lines of a file, one after another: where each ends.
#![tactic(auto)]

ghost use Rattle.std.specs.Prelude.{◌≡◌, ◌+◌, ◌-◌, ◌≤◌, length};
ghost use Rattle.lines.specs.Ends.{line_end, past_newline};

// What ends a line.
const NEWLINE: u8 = b'\n';

// Where the line that starts at `at` ends: its newline, or the file's end.
pub fn line_end(file: &[u8], at: usize) -> usize
    ensures value { result ≡ line_end file.now at }
    ensures lower_bound { (at ≤ result) × (result ≤ at + (length file.now - at)) }
{
    lent::run_end(file, at, |c| c != NEWLINE)
}

// Behind the newline at `end`; `end` itself where the file ends there.
pub fn past_newline(file: &[u8], end: usize) -> usize
    ensures { result ≡ past_newline file.now end }
{
    if end < file.len() {
        return end + 1;
    }
    end
}
