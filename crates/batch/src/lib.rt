// The batch format of docs/BATCH.md: the cases of an input.
#![tactic(auto)]

ghost use Rattle.std.specs.Prelude.{◌≡◌, ◌+◌, ◌-◌, ◌≤◌, ◌<◌, length, take, drop};
ghost use Rattle.lent.specs.Splice.{splice};
ghost use Rattle.batch.specs.Format.{is_printable, id_end, number_at, pair_at, laid_out, headed, case_at};

// A number, and the place behind the byte that ends it.
#[derive(Clone, Copy)]
struct Number {
    value: usize,
    next: usize,
}

// Two numbers, and the place behind them.
#[derive(Clone, Copy)]
struct Pair {
    first: usize,
    second: usize,
    next: usize,
}

// What stands at a place of a batch: a case, the batch's end, or something that is no case.
// A case's id stands from `id` to `blank`, its library from `library` to `program`, its program from there to `stop`;
// the next case stands at `next`. Three words, since the driver goes on differently at each.
#[derive(Clone, Copy)]
pub enum Case {
    Found {
        id: usize,
        blank: usize,
        library: usize,
        program: usize,
        stop: usize,
        next: usize,
        output: usize,
        workspace: usize,
    },
    End,
    Broken,
}

// Whether an id may have the byte `b`.
fn is_printable(b: u8) -> bool
    ensures { result ≡ is_printable b }
{
    (33 <= b) & (b <= 126)
}

// Where the id that starts at `at` ends.
fn id_end(input: &[u8], at: usize) -> usize
    ensures value { result ≡ id_end input.now at }
    ensures lower_bound { (at ≤ result) × (result ≤ at + (length input.now - at)) }
{
    lent::run_end(input, at, is_printable)
}

// The decimal number at `at`, which the byte `stop` ends. A loop over what is read: it ends at the first byte that is no digit, and at the first number over the limit.
fn number_at(input: &[u8], at: usize, stop: u8) -> Option<Number>
    requires { 0 < stop }
    ensures { result ≡ number_at stop input.now at }
{
    let mut i = at;
    let mut n: usize = 0;
    while chars::digit(lent::byte(input, i)) {
        n = n * 10 + (input[i] - 48) as usize;
        if 999999999999999999 < n {
            return None;
        }
        i += 1;
    }
    if i == at {
        return None;
    }
    if lent::byte(input, i) != stop {
        return None;
    }
    Some(Number {
        value: n,
        next: i + 1,
    })
}

// Two numbers at `at`: a space ends the first, the byte `stop` the second.
fn pair_at(input: &[u8], at: usize, stop: u8) -> Option<Pair>
    requires { 0 < stop }
    ensures { result ≡ pair_at stop input.now at }
{
    let first = number_at(input, at, b' ')?;
    let second = number_at(input, first.next, stop)?;
    Some(Pair {
        first: first.value,
        second: second.value,
        next: second.next,
    })
}

// The case with these sizes, whose files start at `start`.
fn laid_out(
    input: &[u8],
    id: usize,
    blank: usize,
    start: usize,
    library: usize,
    program: usize,
    output: usize,
    workspace: usize,
) -> Case
    requires { start ≤ length input.now }
    ensures { result ≡ laid_out input.now id blank start library program output workspace }
{
    if input.len() - start < library {
        return Case::Broken;
    }
    let middle = start + library;
    if input.len() - middle < program {
        return Case::Broken;
    }
    let stop = middle + program;
    if lent::byte(input, stop) != b'\n' {
        return Case::Broken;
    }
    Case::Found {
        id: id,
        blank: blank,
        library: start,
        program: middle,
        stop: stop,
        next: stop + 1,
        output: output,
        workspace: workspace,
    }
}

// The case whose id stands from `id` to `blank`.
fn headed(input: &[u8], id: usize, blank: usize) -> Case
    requires { blank < length input.now }
    ensures { result ≡ headed input.now id blank }
{
    let Some(sizes) = pair_at(input, blank + 1, b' ') else {
        return Case::Broken;
    };
    let Some(rooms) = pair_at(input, sizes.next, b'\n') else {
        return Case::Broken;
    };
    laid_out(
        input,
        id,
        blank,
        rooms.next,
        sizes.first,
        sizes.second,
        rooms.first,
        rooms.second,
    )
}

// What stands at `at`.
pub fn case_at(input: &[u8], at: usize) -> Case
    ensures { result ≡ case_at input.now at }
{
    if input.len() <= at {
        return Case::End;
    }
    if input.len() - at < 5 {
        return Case::Broken;
    }
    let id = at + 5;
    if !lent::equal(&input[at..id], b"CASE ") {
        return Case::Broken;
    }
    let blank = id_end(input, id);
    if blank == id {
        return Case::Broken;
    }
    if lent::byte(input, blank) != b' ' {
        return Case::Broken;
    }
    headed(input, id, blank)
}

// The bytes from `from` to `end` at the buffer's front.
pub fn keep(buffer: &mut [u8], from: usize, end: usize)
    requires { (from ≤ end) × (end ≤ length buffer.old) }
    ensures { buffer.new ≡ splice buffer.old 0 (take (end - from) (drop from buffer.old)) }
{
    for i in 0..end - from {
        buffer[i] = buffer[from + i];
    }
}
