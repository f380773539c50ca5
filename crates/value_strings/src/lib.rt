// String expressions over a field's bytes: T' of a reference, and which part of a string a substring is.
#![tactic(auto)]

ghost use Rattle.std.specs.Prelude.{◌≡◌, true, List, ℕ, ◌<◌, length};
ghost use Rattle.std.proofs.Math.Option.{some};
ghost use Rattle.text.specs.Bytes.{Bytes};
ghost use Rattle.rules.specs.Choice.{choose};
ghost use Rattle.rules.specs.Fields.{is_empty};
ghost use Rattle.rules.specs.Lexemes.{Lex};
ghost use Rattle.rules.specs.Values.{type_of};
ghost use Rattle.rules.specs.Values.{substring as substring_by};
ghost use Rattle.rules.specs.Grammar.{given, broken, deeper, referred, after_t};
ghost use Rattle.rules.specs.Evaluate.{Cell, values, and_then, type_chars};
ghost use Rattle.kinds.specs.Kinds.{kind_for};
ghost use Rattle.value_sums.specs.Answers.{toks_by};
ghost use Rattle.value_sublists.specs.Entries.{part_in, part_of as part_found};
ghost use Rattle.value_references.specs.Referring.{ref_to, listed};
ghost use Rattle.value_arithmetic.specs.Evaluating.{Holds, Stands};
ghost use Rattle.value_strings.specs.Typing.{known_by, tells_type};

use kinds::Stand;
use refusals::Fault;
use value_references::Scene;
pub use value_sublists::Part;
use value_sums::{Read, Refused};

// The part of a string of `size` bytes that its substring is, if there is one.
pub fn substring(size: usize, start: i32, count: i32) -> Option<Part>
    ensures { (s : Bytes) → length s ≡ size → part_in s result ≡ substring_by s start count }
{
    if start < 1 {
        return None;
    }
    if count < 0 {
        return None;
    }
    let before = start as usize - 1;
    if size <= before {
        return None;
    }
    Some(Part {
        at: before,
        size: count as usize,
    })
}

// The type of a text.
fn type_in(text: Option<&[u8]>) -> Option<u8>
    ensures { known_by result ≡ and_then (part_found text.entry) (λ t. some (type_of t)) }
{
    Some(value_sublists::type_of(text?))
}

// The type of the reference at a place, behind the T' that stands at `here`.
pub fn type_at<'a>(
    scene: Scene<'a>,
    code: &[u8],
    at: usize,
    nest: usize,
    here: usize,
) -> Result<Read<u8>, Refused>
    requires { Stands scene }
    ensures { (held : ℕ → Cell) → Holds scene.entry held → tells_type (toks_by held code.now) result ≡ referred values (deeper values nest) after_t type_chars (toks_by held code.now here) (toks_by held code.now at) }
{
    let Some(kind) = value_references::kind_of(scene.deck, scene.frame, code, at) else {
        return Err(Refused {
            fault: Fault::IllFormed,
            at,
        });
    };
    let slot = lent::byte(code, at);
    let read = value_arithmetic::reference(scene, code, at, nest, kind)?;
    let text = value_references::text_of(scene, slot, kind, read.value);
    value_arithmetic::judged(Stand::AfterT, kind, type_in(text), here, read)
}
