// Where things stand in the workspace.
#![tactic(auto)]

ghost use Rattle.std.specs.Prelude.{◌≡◌, ℕ, Some, ◌<◌, ◌^◌};
ghost use Rattle.work_frames.specs.Layout.{level_at};
ghost use Rattle.work_frames.specs.Frames.{index_in};
ghost use Rattle.work_frames.specs.Indexed.{four_at, found_in, macros_in, title_rows, frame_in};

// The places of the layout: where the section's name stands behind its length, the levels, and the index of lines, macros and titles.
pub const SECTION: usize = 27392;

const LEVELS: usize = 27240;

const LEVEL_SIZE: usize = 224;

const INDEX: usize = 24576;

const INDEX_SIZE: usize = 2816;

// In the index: a macro's row, what stands in the row of the first macro, and the titles.
const ROW: usize = 16;

const FIRST: usize = 2052;

const COUNT: usize = 2054;

const PARAMETERS: usize = 2059;

const LOCALS: usize = 2060;

const TITLES: usize = 2560;

const TITLE: usize = 8;

// What evaluation needs to know of the level that runs: how deep it is, how many parameters its macro has, its call's number, and where the deck has the
// kinds of its locals.
#[derive(Clone, Copy)]
pub struct Frame {
    pub depth: u16,
    pub params: u16,
    pub number: u16,
    pub locals: u32,
}

// Where the texts of a level stand, the outermost being level 1.
#[tactic(auto, unfolding(crate::specs::Layout::level_at))]
pub fn level_at(depth: usize) -> usize
    requires { depth < 6 }
    ensures { result ≡ level_at depth }
{
    LEVELS + LEVEL_SIZE * depth
}

// The index of lines, macros and titles.
#[tactic(auto, unfolding(crate::specs::Frames::index_in))]
fn index(work: &[u8]) -> &[u8]
    ensures { result.now ≡ index_in work.now }
{
    spans::part(work, INDEX, INDEX_SIZE)
}

// Four bytes as a number, the greatest first.
#[tactic(auto, unfolding(crate::specs::Indexed::four_at))]
fn four_at(s: &[u8], at: usize) -> usize
    requires { at < 2 ^ 32 }
    ensures { (result ≡ four_at s.now at) × (result < 2 ^ 32) }
{
    deck_reading::two_at(s, at) * 65536 + deck_reading::two_at(s, at + 2)
}

// Where line `line` of macro `body` stands in the deck; none where the macro has no such line.
pub fn line_place(work: &[u8], body: usize, line: usize) -> Option<usize>
    requires { body < 32 }
    ensures { (result ≡ found_in (index_in work.now) body line) × ((at : ℕ) → result ≡ Some at → (line < 65535) × (at < 2 ^ 32)) }
{
    let index = index(work);
    let count = deck_reading::two_at(index, COUNT + ROW * body);
    if count <= line {
        return None;
    }
    let first = deck_reading::two_at(index, FIRST + ROW * body);
    Some(four_at(index, 4 * (first + line)))
}

// What evaluation needs to know of a level at a depth.
pub fn frame_of(work: &[u8], level: expand_levels::Level, depth: usize) -> Frame
    requires { (level.body < 32) × (depth < 6) }
    ensures { result ≡ frame_in (index_in work.now) level depth }
{
    let index = index(work);
    let body = level.body as usize;
    Frame {
        depth: depth as u16,
        params: u16::from(lent::byte(index, PARAMETERS + ROW * body)),
        number: level.number,
        locals: four_at(index, LOCALS + ROW * body) as u32,
    }
}

// The rows of the titles: one for each macro.
pub fn title_rows<'a>(deck: &[u8], work: &'a [u8]) -> &'a [u8]
    ensures { result.now ≡ title_rows (index_in work.now) (macros_in deck.now) }
{
    let count = deck_reading::two_at(deck, 7 + deck_reading::two_at(deck, 5));
    let index = index(work);
    spans::part(index, TITLES, TITLE * count)
}
