// A line of output: its bytes where there is room, and the section's name that it may bring.
#![tactic(auto)]

ghost use Rattle.std.specs.Prelude.{◌≡◌, ◌≤◌, length};
ghost use Rattle.rules.specs.Machine.{is_section};
ghost use Rattle.expand_output.specs.Puts.{put_at, with_line, noted};

// A line and its newline, from `pos` on: where the output goes on, or none where there is no room.
pub fn put_out(out: &mut [u8], pos: usize, line: &[u8]) -> Option<usize>
    requires { pos ≤ length out.old }
    ensures { (result ≡ put_at (length out.old) pos (length line.now)) × (out.new ≡ with_line out.old pos line.now) }
{
    let size = line.len();
    if out.len() - pos <= size {
        return None;
    }
    lent::copy(out, pos, line);
    let end = pos + size;
    out[end] = b'\n';
    Some(end + 1)
}

// Whether an operation starts a section.
#[tactic(auto, unfolding(rules::specs::Machine::is_section))]
pub fn is_section(operation: &[u8]) -> bool
    ensures { result ≡ is_section operation.now }
{
    lent::equal(operation, b"CSECT")
        || lent::equal(operation, b"DSECT")
        || lent::equal(operation, b"START")
}

// The section's name behind a line of output.
pub fn note_section(work: &mut [u8], line: &[u8])
    requires { (27464 ≤ length work.old) × (length line.now ≤ 71) }
    ensures { work.new ≡ noted work.old line.now }
{
    if is_section(statements::operation_of(line)) {
        let name = statements::name_of(line);
        work[work_frames::SECTION] = name.len() as u8;
        lent::copy(work, work_frames::SECTION + 1, name);
    }
}
