// The operands of a call in a body: a deck's field, one byte for each lexeme, divided at its commas before anything is replaced.
#![tactic(auto)]

ghost use Rattle.std.specs.Prelude.{◌≡◌, true, false, ℕ, ◌+◌, ◌-◌, ◌≤◌, length, drop};
ghost use Rattle.std.specs.Iterator.{YieldsFirstBy, item_count};
ghost use Rattle.rules.specs.Lexemes.{byte_of, outside};
ghost use Rattle.rules.specs.Calls.{pair_up, divided, operands_of};
ghost use Rattle.rules.specs.Evaluate.{Cell};
ghost use Rattle.value_sums.specs.Answers.{toks_by};
ghost use Rattle.call_operands.specs.Cuts.{IsCut};
ghost use Rattle.call_codes.specs.Codes.{code_lex, lexemes, cut_at, parts_from, parts_left, split_by};

use call_operands::Divides;

// The text byte that a code byte is; 0 for any other lexeme, as the rules' `byte_of` has it.
fn text_of(b: u8) -> u8
    ensures { result ≡ byte_of (code_lex b) }
{
    if b < 127 { b } else { 0 }
}

// The first place from `at` on where `c` stands outside quotes and parentheses, read as from a field's start; the field's end where it stands nowhere, for what is cut there is the whole then.
// (An attribute mark is told apart in a code, so a text byte is seen as if nothing followed it.)
pub fn bare_at(code: &[u8], at: usize, c: u8) -> usize
    ensures value { result ≡ at + cut_at c (drop at code.now) }
    ensures lower_bound { (at ≤ result) × (result ≤ at + (length code.now - at)) }
{
    let mut seen = fields::Seen::START;
    for i in at..code.len() {
        let d = text_of(code[i]);
        if parts::is_bare(seen, d, 0, c) {
            return i;
        }
        seen = fields::seen_after(seen, d, 0);
    }
    at.max(code.len())
}

// Whether the quotes and parentheses of the field pair.
fn pairs_up(code: &[u8]) -> bool
    ensures { result ≡ pair_up outside (lexemes code.now) }
{
    let mut seen = fields::Seen::START;
    for &b in code {
        let d = text_of(b);
        if parts::is_bare(seen, d, 0, b')') {
            return false;
        }
        seen = fields::seen_after(seen, d, 0);
    }
    let quoted = seen.quoted;
    let depth = seen.depth;
    !quoted & (depth == 0)
}

// The parts of a field that are still to come. An empty field has none; behind a comma there is always one, even if it is empty.
#[derive(Clone, Copy)]
pub struct Parts<'a> {
    rest: Option<&'a [u8]>,
}

impl<'a> Parts<'a> {
    // All parts of the field.
    pub fn of(code: &'a [u8]) -> Parts<'a>
        ensures { parts_left result ≡ divided (lexemes code.now) }
    {
        if code.is_empty() {
            return Parts { rest: None };
        }
        Parts { rest: Some(code) }
    }
}

impl<'a> Iterator for Parts<'a> {
    type Item = &'a [u8];

    ghost next_gives = { YieldsFirstBy (λ part. lexemes part.now) parts_left };

    ghost remaining = { item_count parts_left };

    fn next(&mut self) -> Option<&'a [u8]> {
        let rest = self.rest?;
        let end = bare_at(rest, 0, b',');
        self.rest = rest.get(end + 1..);
        Some(&rest[..end])
    }
}

impl<'a> Divides<'a> for Parts<'a> {
    ghost symbol = { ℕ };

    ghost lexemes = { lexemes };

    ghost left = { parts_left };

    fn next_part(&mut self) -> Option<&'a [u8]>
        ensures { YieldsFirstBy (λ part. lexemes part.now) parts_left self.old result self.new }
    {
        self.next()
    }

    fn equals_in(part: &[u8]) -> usize
        ensures { IsCut lexemes part.now result }
    {
        bare_at(part, 0, b'=')
    }
}

// How many parts of the field are positional, whatever its symbols stand for; the others are keywords. `None` where the parts break the call rules.
pub fn divide(code: &[u8]) -> Option<usize>
    ensures { (held : ℕ → Cell) → split_by held code.now result ≡ operands_of (toks_by held code.now 0) }
{
    if !pairs_up(code) {
        return None;
    }
    let parts = Parts::of(code);
    if !call_operands::are_operands(parts) {
        return None;
    }
    Some(call_operands::positional_count(parts))
}

// The parts behind the first `number` ones.
pub fn parts_behind(code: &[u8], number: usize) -> Parts
    ensures { parts_left result ≡ drop number (divided (lexemes code.now)) }
{
    call_operands::behind(Parts::of(code), number)
}

// Where the part of this number starts; a place behind the field's end where there is none.
pub fn part_at(code: &[u8], number: usize) -> usize
    ensures result_value { parts_from code.now result ≡ drop number (divided (lexemes code.now)) }
    ensures upper_bound { result ≤ length code.now + 1 }
{
    if code.is_empty() {
        return 1;
    }
    let mut at = 0;
    for _part in 0..number {
        if code.len() < at {
            return at;
        }
        at = bare_at(code, at, b',') + 1;
    }
    at
}
