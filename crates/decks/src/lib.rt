// The macros of a library, one after another, and how many there are.
#![tactic(auto)]

ghost use Rattle.std.specs.Prelude.{◌≡◌, ◌≤◌, length, MatchOption};
ghost use Rattle.rules.specs.Faults.{accepted, verdict};
ghost use Rattle.labels.specs.Searches.{prototype_start};
ghost use Rattle.decks.specs.Decks.{macros_at, Stands};

// A macro where it stands in a library: its prototype, its body, and the place behind it.
#[derive(Clone, Copy)]
pub struct Macro<'a> {
    pub prototype: &'a [u8],
    pub body: &'a [u8],
    pub next: usize,
}

// The next macro from `at` on, if there is one.
pub fn next_macro(library: &[u8], at: usize) -> Option<Macro<'_>>
    ensures { MatchOption result (length library.now ≤ prototype_start library.now at) (Stands library.now at) }
{
    let start = labels::prototype_start(library, at);
    if library.len() <= start {
        return None;
    }
    let end = lines::line_end(library, start);
    let body = lines::past_newline(library, end);
    let next = labels::body_end(library, body);
    Some(Macro {
        prototype: &library[start..end],
        body: &library[body..next],
        next,
    })
}

// How many macros an accepted library has.
pub fn macro_count(library: &[u8]) -> usize
    requires { verdict library.now ≡ accepted }
    ensures { result ≡ length (macros_at library.now 0) }
{
    let mut at = 0;
    let mut count = 0;
    while let Some(found) = next_macro(library, at) {
        at = found.next;
        count += 1;
    }
    count
}
