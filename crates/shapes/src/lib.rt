// A statement in codes: what the line does, and which codes it keeps.
#![tactic(auto)]

ghost use Rattle.std.specs.Prelude.{◌≡◌, Bool, true, false, ◌++◌, ◌+◌, ◌-◌, ◌≤◌, min, eqb, length};
ghost use Rattle.rules.specs.Choice.{choose};
ghost use Rattle.kinds.specs.Kinds.{statement_by};
ghost use Rattle.lent.specs.Splice.{splice};
ghost use Rattle.coding.specs.Coded.{field_code};
ghost use Rattle.shapes.specs.Shapes.{ends_of, is_plain_code, keeps_none, keeps_operand, branching, branching_if, modelling, shape_of};

use kinds::{Does, Word};
use names::Names;

// Where the codes of a statement's name, operation and operand end, one behind another.
#[derive(Clone, Copy)]
pub struct Codes {
    pub name: usize,
    pub operation: usize,
    pub operand: usize,
}

// What a line does, and which codes it keeps: the name's up to `name`, the operation's from `operation` to `gap`, the operand's from `operand` to `rest`, and a
// branch target's from there to `end`.
#[derive(Clone, Copy)]
pub struct Shape {
    pub does: Does,
    pub name: usize,
    pub operation: usize,
    pub gap: usize,
    pub operand: usize,
    pub rest: usize,
    pub end: usize,
}

// Whether no code is a variable symbol or an ampersand left over.
fn is_plain(code: &[u8]) -> bool
    ensures { result ≡ is_plain_code code.now }
{
    code.iter().all(|&c| c < 128)
}

// A line that keeps none of its fields.
fn keeps_none(does: Does, codes: Codes) -> Shape
    ensures { result ≡ keeps_none does codes }
{
    Shape {
        does,
        name: 0,
        operation: codes.name,
        gap: codes.name,
        operand: codes.operation,
        rest: codes.operation,
        end: codes.operation,
    }
}

// A line that keeps its operand, and its name up to a place.
fn keeps_operand(does: Does, name: usize, codes: Codes) -> Shape
    ensures { result ≡ keeps_operand does name codes }
{
    Shape {
        does,
        name,
        operation: codes.name,
        gap: codes.name,
        operand: codes.operation,
        rest: codes.operand,
        end: codes.operand,
    }
}

// AGO: the target is all of its operand.
fn branching(codes: Codes) -> Shape
    ensures { result ≡ branching codes }
{
    Shape {
        does: Does::Branches,
        name: 0,
        operation: codes.name,
        gap: codes.name,
        operand: codes.operation,
        rest: codes.operation,
        end: codes.operand,
    }
}

// AIF: the target is what stands behind its condition, where it has one.
fn branching_if(condition: usize, codes: Codes) -> Shape
    requires { codes.operation ≤ codes.operand }
    ensures { result ≡ branching_if condition codes }
{
    let rest = codes.operation + condition.min(codes.operand - codes.operation);
    let end = if condition == 0 { rest } else { codes.operand };
    Shape {
        does: Does::BranchesIf,
        name: 0,
        operation: codes.name,
        gap: codes.name,
        operand: codes.operation,
        rest,
        end,
    }
}

// A model statement that is laid out: a sequence symbol as its name is left out.
fn modelling(label: bool, codes: Codes) -> Shape
    ensures { result ≡ modelling label codes }
{
    let name = if label { 0 } else { codes.name };
    Shape {
        does: Does::Models,
        name,
        operation: codes.name,
        gap: codes.operation,
        operand: codes.operation,
        rest: codes.operand,
        end: codes.operand,
    }
}

// The codes of a statement's name, operation and operand, written one behind another from the buffer's start on.
pub fn code_fields(
    name: &[u8],
    operation: &[u8],
    operand: &[u8],
    names: Names,
    code: &mut [u8],
) -> Codes
    requires { length name.now + (length operation.now + length operand.now) ≤ length code.old }
    ensures value { result ≡ ends_of (field_code false names.entry.own.now names.entry.global.now names.entry.shared.now name.now) (field_code false names.entry.own.now names.entry.global.now names.entry.shared.now operation.now) (field_code true names.entry.own.now names.entry.global.now names.entry.shared.now operand.now) }
    ensures code_after { code.new ≡ splice code.old 0 (field_code false names.entry.own.now names.entry.global.now names.entry.shared.now name.now ++ (field_code false names.entry.own.now names.entry.global.now names.entry.shared.now operation.now ++ field_code true names.entry.own.now names.entry.global.now names.entry.shared.now operand.now)) }
{
    let first = coding::put_field(name, false, names, code, 0);
    let second = coding::put_field(operation, false, names, code, first);
    let third = coding::put_field(operand, true, names, code, second);
    Codes {
        name: first,
        operation: second,
        operand: third,
    }
}

// A statement's shape, by its word: `label` says that its name is a sequence symbol, `code` has the codes of its three fields.
#[tactic(auto, unfolding(crate::specs::Shapes::shape_of))]
pub fn shape_of(word: Option<Word>, label: bool, codes: Codes, code: &[u8]) -> Shape
    requires { (codes.operation ≤ codes.operand) × (codes.operand ≤ length code.now) }
    ensures { result ≡ shape_of (statement_by word) label codes code.now }
{
    match word {
        Some(Word::Macro) => keeps_none(Does::Passes, codes),
        Some(Word::Mend) => keeps_none(Does::Ends, codes),
        Some(Word::Mexit) => keeps_none(Does::Exits, codes),
        Some(Word::Lcl(_)) => keeps_none(Does::Passes, codes),
        Some(Word::Gbl(_)) => keeps_none(Does::Passes, codes),
        Some(Word::Set(set)) => keeps_operand(Does::Sets(set), codes.name, codes),
        Some(Word::Aif) => {
            let from = codes.operation;
            let to = codes.operand;
            branching_if(forms::condition_end(&code[from..to]), codes)
        }
        Some(Word::Ago) => branching(codes),
        Some(Word::Anop) => keeps_none(Does::Passes, codes),
        Some(Word::Actr) => keeps_operand(Does::Counts, 0, codes),
        None => {
            if is_plain(code) & !label {
                keeps_none(Does::Text, codes)
            } else {
                modelling(label, codes)
            }
        }
    }
}
