// Arithmetic on values: what reading a value gives, operations on numbers that refuse a result out of range, and decimal numbers.
#![tactic(auto)]

ghost use Rattle.std.specs.Prelude.{◌≡◌, true, List, length, take, drop, ℕ, ℤ, pos};
ghost use Rattle.std.specs.Int.Signed.{quot_z};
ghost use Rattle.rules.specs.Values.{within, spelt, number_in};
ghost use Rattle.rules.specs.Values.{operate as operate_by};
ghost use Rattle.text.specs.Characters.{digit};
ghost use Rattle.rules.specs.Choice.{run, every};
ghost use Rattle.rules.specs.Lexemes.{Lex};
ghost use Rattle.rules.specs.Evaluate.{Cell, values};
ghost use Rattle.rules.specs.Grammar.{Got, plain, then, given, decimal_number};
ghost use Rattle.rules.specs.Grammar.{closed as closed_by};
ghost use Rattle.value_sums.specs.Answers.{option_of, toks_by, tells_as, tells, numbered_read, tells_by};

use refusals::Fault;

// A value that was read, and the place behind it.
#[derive(Clone, Copy)]
pub struct Read<T> {
    pub value: T,
    pub next: usize,
}

// A refusal, and the place of the refused term or operator.
#[derive(Clone, Copy)]
pub struct Refused {
    pub fault: Fault,
    pub at: usize,
}

// A refusal by its number, whatever number it is, and the place of what is refused.
#[derive(Clone, Copy)]
pub struct Numbered {
    pub number: u8,
    pub at: usize,
}

// What was read, with a refusal told by its number.
pub fn by_number<T: Copy>(read: Result<Read<T>, Refused>) -> Result<Read<T>, Numbered>
    ensures { result ≡ numbered_read read }
{
    match read {
        Ok(read) => Ok(read),
        Err(refused) => Err(Numbered {
            number: u8::from(refused.fault),
            at: refused.at,
        }),
    }
}

fn quotient(a: i32, b: i32) -> Option<i32>
    ensures { option_of result ≡ within (quot_z a b) }
{
    if b == 0 { Some(0) } else { a.checked_div(b) }
}

// One operation: the number that it gives, if it is in range.
fn operate(sign: u8, a: i32, b: i32) -> Option<i32>
    ensures { option_of result ≡ operate_by sign a b }
{
    match sign {
        b'+' => a.checked_add(b),
        b'-' => a.checked_sub(b),
        b'*' => a.checked_mul(b),
        _ => quotient(a, b),
    }
}

// A value and the place behind it; where there is none, what stands at `here` is refused.
pub fn placed<T: Copy>(value: Option<T>, here: usize, next: usize) -> Result<Read<T>, Refused>
    ensures { (from : ℕ → List (Lex Cell)) → tells_as (λ v. v) from result ≡ given (option_of value) (from here) (from next) }
{
    match value {
        Some(value) => Ok(Read { value, next }),
        None => Err(Refused {
            fault: Fault::BadValue,
            at: here,
        }),
    }
}

// The operation whose sign stands behind `left`, on both values.
pub fn joined(code: &[u8], left: Read<i32>, right: Read<i32>) -> Result<Read<i32>, Refused>
    ensures { (held : ℕ → Cell) → tells (toks_by held code.now) result ≡ given (operate_by (plain (toks_by held code.now left.next)) left.value right.value) (toks_by held code.now left.next) (toks_by held code.now right.next) }
{
    let sign = grammar::text_at(code, left.next);
    placed(
        operate(sign, left.value, right.value),
        left.next,
        right.next,
    )
}

// The operation whose sign stands at `here`, on the value before it and what was read behind it.
pub fn joined_so(
    sign: u8,
    a: i32,
    here: usize,
    right: Result<Read<i32>, Numbered>,
) -> Result<Read<i32>, Numbered>
    ensures { (from : ℕ → List (Lex Cell)) → tells_by (λ z. z) from result ≡ then (tells_by (λ z. z) from right) (λ b y. given (operate_by sign a b) (from here) y) }
{
    let right = right?;
    by_number(placed(operate(sign, a, right.value), here, right.next))
}

// What was read, and the parenthesis that closes.
pub fn closed<T: Copy>(code: &[u8], read: Read<T>) -> Result<Read<T>, Refused>
    ensures { (held : ℕ → Cell) → tells_as (λ v. v) (toks_by held code.now) result ≡ closed_by read.value (toks_by held code.now read.next) }
{
    let at = read.next;
    if grammar::text_at(code, at) == b')' {
        Ok(Read {
            value: read.value,
            next: at + 1,
        })
    } else {
        Err(Refused {
            fault: Fault::IllFormed,
            at,
        })
    }
}

// What may have been read, and the parenthesis that closes.
pub fn closed_so<T: Copy>(
    code: &[u8],
    so_far: Result<Read<T>, Numbered>,
) -> Result<Read<T>, Numbered>
    ensures { (held : ℕ → Cell) → tells_by (λ v. v) (toks_by held code.now) result ≡ then (tells_by (λ v. v) (toks_by held code.now) so_far) closed_by }
{
    by_number(closed(code, so_far?))
}

// The number that digits spell, if it is in range.
fn spelt(digits: &[u8]) -> Option<i32>
    requires { every digit digits.now ≡ true }
    ensures { option_of result ≡ within (pos (spelt 0 digits.now)) }
{
    let mut number: u64 = 0;
    for &c in digits {
        number = number * 10 + u64::from(c - b'0');
        if number > 2147483647 {
            return None;
        }
    }
    Some(number as i32)
}

// A decimal number. No digit is read behind the one with which it is out of range.
pub fn decimal(code: &[u8], at: usize) -> Result<Read<i32>, Refused>
    ensures { (held : ℕ → Cell) (inner : List (Lex Cell) → Got ℤ Cell) → tells (toks_by held code.now) result ≡ decimal_number values inner (toks_by held code.now at) }
{
    let broken = Refused {
        fault: Fault::IllFormed,
        at,
    };
    let mut number: u64 = 0;
    let mut next = at;
    for &c in lent::behind(code, at) {
        if !chars::digit(c) {
            break;
        }
        number = number * 10 + u64::from(c - b'0');
        if number > 2147483647 {
            return Err(broken);
        }
        next += 1;
    }
    if chars::letter(grammar::text_at(code, next)) {
        return Err(broken);
    }
    Ok(Read {
        value: number as i32,
        next,
    })
}

// The number that a value is: 1 to 10 digits, within range.
pub fn digits_in(s: &[u8]) -> Option<i32>
    ensures { option_of result ≡ number_in s.now }
{
    if s.is_empty() || 10 < s.len() || !s.iter().all(|&c| chars::digit(c)) {
        return None;
    }
    spelt(s)
}
