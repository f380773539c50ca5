// The test of good form in one pass over a deck's bytes: the lines of a body. (The laws of the whole pass are in proofs/.)
#![tactic(auto)]

ghost use Rattle.std.specs.Prelude.{◌≡◌, List, ◌+◌, ◌<◌, ◌^◌, drop};
ghost use Rattle.rules.specs.Statement.{Set};
ghost use Rattle.deck.specs.Slots.{DeckMacro};
ghost use Rattle.deck.specs.Good.{may_precede};
ghost use Rattle.deck_reading.specs.Reading.{line_at};
ghost use Rattle.good_forms.specs.Kinded.{Kinded};
ghost use Rattle.good_decks.specs.Walk.{unseen, seen_after, ends_where, counts_where, is_placed_here, placed_lines, rest_of, stops};

// What the pass has seen of a body: how many lines, how many of them up to ACTR and with it (none of them where it has not come, so 0),
// and whether ACTR may still come.
#[derive(Clone, Copy)]
pub struct Seen {
    pub lines: usize,
    pub actr: usize,
    pub clear: bool,
}

// Whether the line at a place may stand before ACTR: a line that passes, or a remark.
fn may_precede(deck: &[u8], at: usize) -> bool
    ensures { result ≡ may_precede (line_at deck.now at).does }
{
    let f = deck_reading::line_fields(deck, at);
    good_tests::may_precede(f.does, deck_reading::run_at(deck, f.first))
}

// What has been seen behind the line at a place.
fn seen_after(deck: &[u8], at: usize, seen: Seen) -> Seen
    requires { seen.lines + 1 < 2 ^ 64 }
    ensures { result ≡ seen_after seen (line_at deck.now at) }
{
    let lines = seen.lines + 1;
    let clear = seen.clear & may_precede(deck, at);
    if good_tests::does_count(deck_reading::does_at(deck, at)) {
        return Seen {
            lines,
            actr: lines,
            clear,
        };
    }
    Seen {
        lines,
        clear,
        ..seen
    }
}

// Whether the line at a place ends the body exactly where the body ends.
fn ends_where(deck: &[u8], at: usize, seen: Seen, count: usize) -> bool
    requires { seen.lines + 1 < 2 ^ 64 }
    ensures { result ≡ ends_where count seen (line_at deck.now at) }
{
    let ends = good_tests::does_end(deck_reading::does_at(deck, at));
    if seen.lines + 1 == count {
        return ends;
    }
    !ends
}

// Whether the line at a place is no ACTR, or stands where ACTR may.
fn counts_where(deck: &[u8], at: usize, seen: Seen) -> bool
    ensures { result ≡ counts_where seen (line_at deck.now at) }
{
    !good_tests::does_count(deck_reading::does_at(deck, at)) | seen.clear
}

// Whether the line at a place is in its place, in order and well formed.
fn is_placed(deck: &[u8], at: usize, kinds: &[u8], seen: Seen, count: usize) -> bool
    requires { seen.lines + 1 < 2 ^ 64 }
    ensures { (globals : List Set) (h : DeckMacro) → Kinded kinds.now globals h → result ≡ is_placed_here globals h count seen (line_at deck.now at) }
{
    let actr = seen.actr;
    ends_where(deck, at, seen, count)
        & (counts_where(deck, at, seen) & good_forms::is_good_line(deck, at, kinds, actr, count))
}

// The place behind `count` lines from a place on, each of them in its place; or nothing.
pub fn walk_lines(deck: &[u8], kinds: &[u8], at: usize, count: usize) -> Option<usize>
    ensures { (globals : List Set) (h : DeckMacro) → Kinded kinds.now globals h → stops deck.now result ≡ rest_of (placed_lines globals h count count unseen (drop at deck.now)) }
{
    let mut place = at;
    let mut seen = Seen {
        lines: 0,
        actr: 0,
        clear: true,
    };
    for _ in 0..count {
        let next = deck_reading::read_line(deck, place)?;
        if !is_placed(deck, place, kinds, seen, count) {
            return None;
        }
        seen = seen_after(deck, place, seen);
        place = next;
    }
    Some(place)
}
