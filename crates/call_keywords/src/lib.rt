// A macro's keywords and their defaults, read in the deck where they stand.
#![tactic(auto)]

ghost use Rattle.std.specs.Prelude.{◌≡◌, ◌+◌, ◌*◌, ◌≤◌, ◌<◌, ◌^◌};
ghost use Rattle.text.specs.Bytes.{Bytes};
ghost use Rattle.rules.specs.Calls.{is_among};
ghost use Rattle.rules.specs.Machine.{keyword_value};
ghost use Rattle.deck_reading.specs.Reading.{run_end};
ghost use Rattle.call_keywords.specs.Defaults.{keywords_at, given_by, given_from, are_known, value_by, value_between};

use parts::Parts;

// Where the value that an operand gives for a keyword stands in it: from a place to another.
#[derive(Clone, Copy)]
pub struct Given {
    pub at: usize,
    pub end: usize,
}

// Where the counted run of bytes at a place of the deck ends.
pub fn run_end(deck: &[u8], at: usize) -> usize
    requires { at + 65537 < 2 ^ 64 }
    ensures { (result ≡ run_end deck.now at) × (result ≤ at + 65537) }
{
    let size = deck_reading::two_at(deck, at);
    at + 2 + size
}

// Whether one of the `count` keywords at `at` has this name.
pub fn is_known(deck: &[u8], at: usize, count: usize, name: &[u8]) -> bool
    requires { at + 131074 * count < 2 ^ 64 }
    ensures { result ≡ is_among name.now (keywords_at deck.now at count) }
{
    let mut place = at;
    for _ in 0..count {
        if lent::equal(deck_reading::run_at(deck, place), name) {
            return true;
        }
        let default = run_end(deck, place);
        place = run_end(deck, default);
    }
    false
}

// Whether each keyword that these parts of an operand give is one of the macro's `count` keywords at `at`.
pub fn are_known(deck: &[u8], at: usize, count: usize, given: Parts) -> bool
    requires { at + 131074 * count < 2 ^ 64 }
    ensures { result ≡ are_known (keywords_at deck.now at count) (given_by given.entry) }
{
    let mut rest = given;
    rest.all(|part| is_known(deck, at, count, call_operands::keyword_in(part).0))
}

// The value that these parts of an operand give for the keyword of this name; none where its default stands.
pub fn given_for<'a>(given: Parts<'a>, name: &[u8]) -> Option<&'a [u8]>
    ensures { (default : Bytes) → value_by default result ≡ keyword_value name.now default (given_by given.entry) }
{
    for part in given {
        let (keyword, value) = call_operands::keyword_in(part);
        if lent::equal(keyword, name) {
            return Some(value);
        }
    }
    None
}

// Whether each keyword that the operand gives from `from` on is one of the macro's `count` keywords at `at`.
pub fn are_known_from(deck: &[u8], at: usize, count: usize, operand: &[u8], from: usize) -> bool
    requires { at + 131074 * count < 2 ^ 64 }
    ensures { result ≡ are_known (keywords_at deck.now at count) (given_from operand.now from) }
{
    are_known(deck, at, count, Parts::at(operand, from))
}

// Where the operand gives from `from` on the value for the keyword of this name; none where its default stands.
pub fn given_at(operand: &[u8], from: usize, name: &[u8]) -> Option<Given>
    ensures { (default : Bytes) → value_between operand.now default result ≡ keyword_value name.now default (given_from operand.now from) }
{
    let mut at = from;
    for part in Parts::at(operand, from) {
        let end = at + part.len();
        let cut = parts::bare_at(part, 0, b'=');
        if lent::equal(&part[..cut], name) {
            return Some(Given {
                at: at + cut + 1,
                end,
            });
        }
        at = end + 1;
    }
    None
}
