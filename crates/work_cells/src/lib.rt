// Values of SET symbols in the workspace, in cells of 256 bytes.
#![tactic(auto)]

ghost use Rattle.std.specs.Prelude.{◌≡◌, ℕ, ◌+◌, ◌*◌, ◌≤◌, ◌<◌, length, ◌∷◌, ◌^◌};
ghost use Rattle.lent.specs.Splice.{splice};
ghost use Rattle.work_cells.specs.Cells.{cell_of, four_in, integer_in, four_of, integer_cell, string_in, truth_cell, string_cell};
ghost use Rattle.std.specs.Int.Signed.{mag};

// How many bytes a cell has.
const CELL: usize = 256;

// The string in a cell.
pub fn string_in(work: &[u8], cell: usize) -> &[u8]
    requires { cell < 65536 }
    ensures { result.now ≡ string_in (cell_of work.now cell) }
{
    let at = cell * CELL;
    let n = usize::from(lent::byte(work, at));
    spans::part(work, at + 1, n)
}

// A string of at most 255 bytes into a cell.
pub fn keep_string(work: &mut [u8], cell: usize, s: &[u8])
    requires { (cell * 256 + 256 ≤ length work.old) × (length s.now < 256) }
    ensures { work.new ≡ splice work.old (256 * cell) (string_cell s.now) }
{
    let at = cell * CELL;
    work[at] = s.len() as u8;
    lent::copy(work, at + 1, s);
}

// A condition's value into a cell.
pub fn keep_truth(work: &mut [u8], cell: usize, b: bool)
    requires { cell * 256 + 256 ≤ length work.old }
    ensures { work.new ≡ splice work.old (256 * cell) (truth_cell b) }
{
    work[cell * CELL] = u8::from(b);
}

// The four bytes of a number, 31 bits of them.
fn four_in(work: &[u8], cell: usize) -> u32
    requires { cell < 65536 }
    ensures { (result ≡ four_in (cell_of work.now cell)) × (result < 2147483648) }
{
    let at = cell * CELL;
    u32::from_be_bytes([
        lent::byte(work, at + 1) % 128,
        lent::byte(work, at + 2),
        lent::byte(work, at + 3),
        lent::byte(work, at + 4),
    ])
}

// The number in a cell.
pub fn number_in(work: &[u8], cell: usize) -> i32
    requires { cell < 65536 }
    ensures { result ≡ integer_in (cell_of work.now cell) }
{
    let n = four_in(work, cell) as i32;
    if lent::byte(work, cell * CELL) == 0 {
        n
    } else {
        -1 - n
    }
}

// A sign byte and a number in four bytes into a cell.
fn put_signed(work: &mut [u8], cell: usize, sign: u8, n: usize)
    requires { (cell * 256 + 256 ≤ length work.old) × (n < 2 ^ 32) }
    ensures { work.new ≡ splice work.old (256 * cell) (sign ∷ four_of n) }
{
    let at = cell * CELL;
    work[at] = sign;
    lent::put_four(work, at + 1, n);
}

// What is kept of a number in four bytes: n of n and of -(n + 1).
fn magnitude(v: i32) -> usize
    ensures { (result ≡ mag v) × (result < 2 ^ 32) }
{
    (if v < 0 { -1 - v } else { v }) as usize
}

// A number's value into a cell.
pub fn keep_number(work: &mut [u8], cell: usize, v: i32)
    requires { cell * 256 + 256 ≤ length work.old }
    ensures { work.new ≡ splice work.old (256 * cell) (integer_cell v) }
{
    put_signed(work, cell, u8::from(v < 0), magnitude(v));
}
