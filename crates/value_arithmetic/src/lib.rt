// Arithmetic expressions over a field's bytes, where they stand in the deck, with values in the workspace.
#![tactic(auto)]

ghost use Rattle.std.specs.Prelude.{◌≡◌, Bool, true, List, [], ◌∷◌, ℕ, ◌+◌, ◌<◌, eqb, length, get_or, ℤ};
ghost use Rattle.text.specs.Bytes.{Bytes, member};
ghost use Rattle.rules.specs.Choice.{choose};
ghost use Rattle.rules.specs.Fields.{is_empty};
ghost use Rattle.rules.specs.Lexemes.{Lex, ref};
ghost use Rattle.rules.specs.Grammar.{Kind as Meant, plain, then, given, broken, deeper, referred, term, product, arithmetic};
ghost use Rattle.rules.specs.Grammar.{closed as closed_by, subscripts as subscripts_by, reference as reference_by};
ghost use Rattle.rules.specs.Evaluate.{Cell, values};
ghost use Rattle.kinds.specs.Kinds.{kind_for, table_of};
ghost use Rattle.value_sums.specs.Answers.{option_of, toks_by, tells_as, tells};
ghost use Rattle.value_references.specs.Referring.{ref_to, listed, tells_reference, meaning_of};
ghost use Rattle.value_arithmetic.specs.Evaluating.{Holds, Stands, Evaluated};

use kinds::{Kind, Stand};
use refusals::Fault;
use value_references::{Scene, Subscripts};
use value_sums::{Read, Refused};

// One subscript, and the parenthesis that closes.
fn one(code: &[u8], first: Read<i32>) -> Result<Read<Subscripts>, Refused>
    ensures { (held : ℕ → Cell) (c : Cell) → tells_reference c (toks_by held code.now) result ≡ closed_by (ref_to c (first.value ∷ [])) (toks_by held code.now first.next) }
{
    let value = Subscripts::One(first.value);
    let next = first.next;
    value_sums::closed(code, Read { value, next })
}

// Two subscripts, and the parenthesis that closes.
fn two(code: &[u8], first: Read<i32>, second: Read<i32>) -> Result<Read<Subscripts>, Refused>
    ensures { (held : ℕ → Cell) (c : Cell) → tells_reference c (toks_by held code.now) result ≡ closed_by (ref_to c (first.value ∷ (second.value ∷ []))) (toks_by held code.now second.next) }
{
    let value = Subscripts::Two(first.value, second.value);
    let next = second.next;
    value_sums::closed(code, Read { value, next })
}

// Whether a reference has no subscript.
pub fn is_bare(subscripts: Subscripts) -> bool
    ensures { result ≡ is_empty (listed subscripts) }
{
    match subscripts {
        Subscripts::Bare => true,
        Subscripts::One(_) => false,
        Subscripts::Two(_, _) => false,
    }
}

// The value of the reference that was read, if it may stand where it does; else what stands at `here` is ill-formed.
pub fn judged<T: Copy>(
    stand: Stand,
    kind: Kind,
    value: Option<T>,
    here: usize,
    read: Read<Subscripts>,
) -> Result<Read<T>, Refused>
    ensures { (c : Cell) (from : ℕ → List (Lex Cell)) → kind ≡ kind_for c.kind → tells_as (λ v. v) from result ≡ choose (table_of stand c.kind (is_empty (listed read.value))) (given (option_of value) (from here) (from read.next)) (broken (from here)) }
{
    let bare = is_bare(read.value);
    if grammar::takes(stand, kind, bare) {
        return value_sums::placed(value, here, read.next);
    }
    Err(Refused {
        fault: Fault::IllFormed,
        at: here,
    })
}

// What stands behind an opening parenthesis, where `nest` more may be opened.
#[cycle(arithmetic_inner_product_reference_referred_subscripts_term)]
pub fn inner<'a>(
    scene: Scene<'a>,
    code: &[u8],
    at: usize,
    nest: usize,
) -> Result<Read<i32>, Refused>
    requires { Stands scene }
    ensures { Evaluated (deeper values nest) scene.entry code.now at result }
{
    if nest == 0 {
        Err(Refused {
            fault: Fault::OverLimit,
            at,
        })
    } else {
        arithmetic(scene, code, at, nest - 1)
    }
}

// The subscripts of a reference of this kind, from their opening parenthesis on.
#[cycle(arithmetic_inner_product_reference_referred_subscripts_term)]
fn subscripts<'a>(
    scene: Scene<'a>,
    code: &[u8],
    at: usize,
    nest: usize,
    kind: Kind,
) -> Result<Read<Subscripts>, Refused>
    requires { Stands scene × (at < length code.now) }
    ensures { (held : ℕ → Cell) (k : Meant) (c : Cell) → Holds scene.entry held → kind ≡ kind_for k → tells_reference c (toks_by held code.now) result ≡ subscripts_by values (deeper values nest) k c (toks_by held code.now at) }
{
    match kind {
        Kind::Parameter => one(code, inner(scene, code, at + 1, nest)?),
        Kind::List => {
            let first = inner(scene, code, at + 1, nest)?;
            match grammar::after_byte(code, first.next, b',') {
                None => one(code, first),
                Some(next) => two(code, first, inner(scene, code, next, nest)?),
            }
        }
        Kind::Symbol(_) | Kind::Index | Kind::Section | Kind::Unknown => Err(Refused {
            fault: Fault::IllFormed,
            at,
        }),
    }
}

// The reference that stands at a place, at which a variable symbol of this kind does.
#[cycle(arithmetic_inner_product_reference_referred_subscripts_term)]
pub fn reference<'a>(
    scene: Scene<'a>,
    code: &[u8],
    at: usize,
    nest: usize,
    kind: Kind,
) -> Result<Read<Subscripts>, Refused>
    requires { Stands scene × (at < length code.now) }
    ensures { (held : ℕ → Cell) (c : Cell) → Holds scene.entry held → kind ≡ kind_for c.kind → toks_by held code.now at ≡ ref c ∷ toks_by held code.now (at + 1) → tells_reference c (toks_by held code.now) result ≡ reference_by values (deeper values nest) (toks_by held code.now at) }
{
    if grammar::text_at(code, at + 1) == b'(' {
        return subscripts(scene, code, at + 1, nest, kind);
    }
    Ok(Read {
        value: Subscripts::Bare,
        next: at + 1,
    })
}

// A reference that the table takes, as the term that starts at `here`.
#[cycle(arithmetic_inner_product_reference_referred_subscripts_term)]
fn referred<'a>(
    scene: Scene<'a>,
    code: &[u8],
    at: usize,
    nest: usize,
    here: usize,
    stand: Stand,
) -> Result<Read<i32>, Refused>
    requires { Stands scene }
    ensures { (held : ℕ → Cell) → Holds scene.entry held → tells (toks_by held code.now) result ≡ referred values (deeper values nest) (table_of stand) (meaning_of stand) (toks_by held code.now here) (toks_by held code.now at) }
{
    let Some(kind) = value_references::kind_of(scene.deck, scene.frame, code, at) else {
        return Err(Refused {
            fault: Fault::IllFormed,
            at,
        });
    };
    let slot = lent::byte(code, at);
    let read = reference(scene, code, at, nest, kind)?;
    let value = value_references::value_of(scene, slot, kind, stand, read.value);
    judged(stand, kind, value, here, read)
}

#[cycle(arithmetic_inner_product_reference_referred_subscripts_term)]
fn term<'a>(scene: Scene<'a>, code: &[u8], at: usize, nest: usize) -> Result<Read<i32>, Refused>
    requires { Stands scene }
    ensures { Evaluated (term values (deeper values nest)) scene.entry code.now at result }
{
    let c = grammar::text_at(code, at);
    if c == b'(' {
        return value_sums::closed(code, inner(scene, code, at + 1, nest)?);
    }
    if chars::digit(c) {
        return value_sums::decimal(code, at);
    }
    if grammar::attribute_at(code, b'K', at) {
        return referred(scene, code, at + 2, nest, at, Stand::AfterK);
    }
    if grammar::attribute_at(code, b'N', at) {
        return referred(scene, code, at + 2, nest, at, Stand::AfterN);
    }
    referred(scene, code, at, nest, at, Stand::Term)
}

#[cycle(arithmetic_inner_product_reference_referred_subscripts_term)]
fn product<'a>(scene: Scene<'a>, code: &[u8], at: usize, nest: usize) -> Result<Read<i32>, Refused>
    requires { Stands scene }
    ensures { Evaluated (product values (deeper values nest)) scene.entry code.now at result }
{
    let mut left = term(scene, code, at, nest)?;
    while let Some(next) = grammar::after_either(code, left.next, b'*', b'/') {
        left = value_sums::joined(code, left, term(scene, code, next, nest)?)?;
    }
    Ok(left)
}

// An arithmetic expression in which `nest` pairs of parentheses may be open at once.
#[cycle(arithmetic_inner_product_reference_referred_subscripts_term)]
pub fn arithmetic<'a>(
    scene: Scene<'a>,
    code: &[u8],
    at: usize,
    nest: usize,
) -> Result<Read<i32>, Refused>
    requires { Stands scene }
    ensures { Evaluated (arithmetic values nest) scene.entry code.now at result }
{
    let mut left = product(scene, code, at, nest)?;
    while let Some(next) = grammar::after_either(code, left.next, b'+', b'-') {
        left = value_sums::joined(code, left, product(scene, code, next, nest)?)?;
    }
    Ok(left)
}
