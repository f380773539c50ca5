// Which bytes are legal, which of them are letters and digits, and where a run of these ends: document 01, "Lines and fields".
#![tactic(auto)]

ghost use Rattle.std.specs.Prelude.{◌≡◌, ◌+◌, ◌-◌, ◌≤◌, length};
ghost use Rattle.text.specs.Characters.{in_set, letter, digit, letter_or_digit};
ghost use Rattle.chars.specs.Ends.{symbol_end};

// Whether a line may have the byte `b`.
pub fn in_set(b: u8) -> bool
    ensures { result ≡ in_set b }
{
    match b {
        b'A'..=b'Z'
        | b'0'..=b'9'
        | b' '
        | b'$'
        | b'#'
        | b'@'
        | b'_'
        | b'+'
        | b'-'
        | b'*'
        | b'='
        | b','
        | b'.'
        | b'('
        | b')'
        | b'/'
        | b'\''
        | b'&' => true,
        _ => false,
    }
}

// Whether `b` is a letter: a symbol starts with one.
pub fn letter(b: u8) -> bool
    ensures { result ≡ letter b }
{
    match b {
        b'A'..=b'Z' | b'$' | b'#' | b'@' | b'_' => true,
        _ => false,
    }
}

// Whether `b` is a digit.
pub fn digit(b: u8) -> bool
    ensures { result ≡ digit b }
{
    match b {
        b'0'..=b'9' => true,
        _ => false,
    }
}

// Whether `b` is a letter or a digit: a symbol goes on with these.
pub fn letter_or_digit(b: u8) -> bool
    ensures { result ≡ letter_or_digit b }
{
    letter(b) || digit(b)
}

// Where the letters and digits from `at` on end.
pub fn symbol_end(s: &[u8], at: usize) -> usize
    ensures value { result ≡ symbol_end s.now at }
    ensures lower_bound { (at ≤ result) × (result ≤ at + (length s.now - at)) }
{
    lent::run_end(s, at, letter_or_digit)
}
