// The refusal with the lowest number that a line of a body has.
#![tactic(auto)]

ghost use Rattle.std.specs.Prelude.{◌≡◌, Bool, true, false, ◌||◌, List, [], ◌∷◌, ◌+◌, ◌-◌, ◌≤◌, length, take};
ghost use Rattle.text.specs.Bytes.{Bytes};
ghost use Rattle.rules.specs.Fields.{lines_of, is_ill_written, fields_of};
ghost use Rattle.rules.specs.Statement.{Does};
ghost use Rattle.rules.specs.Faults.{Around, ends_declarations, is_out_of_place, is_long_sequence, is_used_twice, has_bad_name, is_ill_formed, is_past};
ghost use Rattle.rules.specs.Library.{in_body, names_in};
ghost use Rattle.rules.specs.Choice.{any};
ghost use Rattle.kinds.specs.Kinds.{statement_by, does_for};
ghost use Rattle.refusals.specs.Numbers.{number_by};
ghost use Rattle.prototypes.specs.Lowest.{lowest};
ghost use Rattle.symbols.specs.Held.{Held, unknown_in};
ghost use Rattle.shapes.specs.Shapes.{part, shape_of};
ghost use Rattle.rules.specs.Lexemes.{is_sequence};
ghost use Rattle.checking.specs.Body.{tables_of, first_of, bad_symbols, formed_code, nesting_of, has_bad_name_in, is_ill_formed_in, is_past_in, statement_fault};
ghost use Rattle.faults.specs.Coded.{any_of, Statement, CodedAs, Ordered, Inside};

use checking::{Lines, Tables};
use kinds::Word;
use refusals::Fault;

// Whether what a shape keeps is well formed, with at most `nest` pairs of parentheses open at once.
fn keeps_good(shape: shapes::Shape, kinds: &[u8], code: &[u8], nest: usize) -> bool
    requires { Inside shape (length code.now) }
    ensures { (d : Does Bytes) → shape.does ≡ does_for d → result ≡ formed_code nest kinds.now code.now shape d }
{
    let name = shape.name;
    let operation = shape.operation;
    let gap = shape.gap;
    let operand = shape.operand;
    let rest = shape.rest;
    forms::is_formed(
        shape.does,
        kinds,
        &code[0..name],
        &code[operation..gap],
        &code[operand..rest],
        nest,
    )
}

// A statement by its word, its name and its operand, with where the codes of its fields end, and these codes.
#[derive(Clone, Copy)]
struct CodedStatement<'a> {
    word: Option<Word>,
    name: &'a [u8],
    operand: &'a [u8],
    codes: shapes::Codes,
    code: &'a [u8],
}

// 3: whether a name in a statement is too long, not known, or used twice.
fn has_bad_name(
    statement: CodedStatement,
    shape: shapes::Shape,
    lines: Lines,
    tables: Tables,
) -> bool
    requires { Ordered statement.codes (length statement.code.now) × Inside shape (length statement.code.now) }
    ensures { result ≡ any_of (is_long_sequence statement.entry.name.now) (unknown_in (take statement.entry.codes.name statement.entry.code.now)) (is_used_twice (lines_of lines.entry.before.now) statement.entry.name.now) (bad_symbols (tables_of tables.entry) (lines_of lines.entry.before.now) (lines_of lines.entry.from.now) statement.entry.operand.now (part statement.entry.code.now statement.entry.codes.name statement.entry.codes.operation) (part statement.entry.code.now statement.entry.codes.operation statement.entry.codes.operand) (part statement.entry.code.now shape.rest shape.end) (statement_by statement.entry.word)) }
{
    let codes = statement.codes;
    let code = statement.code;
    if statements::is_long_sequence(statement.name) {
        return true;
    }
    let first = codes.name;
    if symbols::has_unknown(&code[0..first]) {
        return true;
    }
    if labels::is_used_twice(lines.before, statement.name) {
        return true;
    }
    let second = codes.operation;
    let third = codes.operand;
    let rest = shape.rest;
    let end = shape.end;
    checking::has_bad_symbols(
        statement.word,
        statement.operand,
        &code[first..second],
        &code[second..third],
        &code[rest..end],
        lines,
        tables,
    )
}

// More pairs of parentheses than what a shape keeps can have.
fn nesting(shape: shapes::Shape, size: usize) -> usize
    requires { Inside shape size × (size ≤ 71) }
    ensures { result ≡ nesting_of shape }
{
    shape.name + ((shape.gap - shape.operation) + (shape.rest - shape.operand))
}

// The refusal with the lowest number from 3 on of a statement of this shape, where it has one.
fn shaped_fault(
    statement: CodedStatement,
    shape: shapes::Shape,
    lines: Lines,
    locals: usize,
    tables: Tables,
) -> Option<Fault>
    requires { Ordered statement.codes (length statement.code.now) × (Inside shape (length statement.code.now) × ((locals ≤ 64) × ((length statement.operand.now ≤ 71) × (length statement.code.now ≤ 71)))) }
    ensures { (l : Bytes) → CodedAs (tables_of tables.entry) l statement.entry → shape ≡ shape_of (statement_by statement.entry.word) (is_sequence statement.entry.name.now) statement.entry.codes statement.entry.code.now → number_by result ≡ first_of false (has_bad_name_in (tables_of tables.entry) (lines_of lines.entry.before.now) (lines_of lines.entry.from.now) (fields_of l)) (is_ill_formed_in (tables_of tables.entry) l) (is_past_in (tables_of tables.entry) locals l) }
{
    let code = statement.code;
    if has_bad_name(statement, shape, lines, tables) {
        return Some(Fault::BadName);
    }
    let rest = shape.rest;
    let end = shape.end;
    if !checking::are_fields_good(
        statement.word,
        statement.name,
        statement.operand,
        &code[rest..end],
    ) {
        return Some(Fault::IllFormed);
    }
    if !keeps_good(shape, tables.kinds, code, nesting(shape, code.len())) {
        return Some(Fault::IllFormed);
    }
    if !keeps_good(shape, tables.kinds, code, 8) {
        return Some(Fault::OverLimit);
    }
    if checking::declares_too_many(
        statement.word,
        locals,
        statement.operand,
        tables.names.shared,
    ) {
        return Some(Fault::OverLimit);
    }
    None
}

// The refusal with the lowest number from 3 on of a statement, where it has one.
fn coded_fault(
    statement: CodedStatement,
    lines: Lines,
    locals: usize,
    tables: Tables,
) -> Option<Fault>
    requires { Ordered statement.codes (length statement.code.now) × ((locals ≤ 64) × ((length statement.operand.now ≤ 71) × (length statement.code.now ≤ 71))) }
    ensures { (l : Bytes) → CodedAs (tables_of tables.entry) l statement.entry → number_by result ≡ first_of false (has_bad_name_in (tables_of tables.entry) (lines_of lines.entry.before.now) (lines_of lines.entry.from.now) (fields_of l)) (is_ill_formed_in (tables_of tables.entry) l) (is_past_in (tables_of tables.entry) locals l) }
{
    let label = statements::is_sequence(statement.name);
    let shape = shapes::shape_of(statement.word, label, statement.codes, statement.code);
    shaped_fault(statement, shape, lines, locals, tables)
}

// The refusal with the lowest number from 2 on of a statement in a body, where it has one. `code` is a buffer for the codes of its fields.
fn statement_fault(
    line: &[u8],
    lines: Lines,
    ended: bool,
    locals: usize,
    tables: Tables,
    code: &mut [u8],
) -> Option<Fault>
    requires { Statement line.now × ((locals ≤ 64) × (71 ≤ length code.old)) }
    ensures { number_by result ≡ statement_fault (tables_of tables.entry) (lines_of lines.entry.before.now) (lines_of lines.entry.from.now) ended locals line.now }
{
    let name = written::name_field(line);
    let operation = statements::operation_of(line);
    let operand = written::operand_field(line);
    let word = words::word(operation);
    if checking::is_misplaced(word, operation.len() == 0, ended) {
        return Some(Fault::OutOfPlace);
    }
    let codes = shapes::code_fields(name, operation, operand, tables.names, code);
    let end = codes.operand;
    let statement = CodedStatement {
        word,
        name,
        operand,
        codes,
        code: &code[0..end],
    };
    coded_fault(statement, lines, locals, tables)
}

// The refusal with the lowest number that a line of a body has, where it has one. `lines` are the body's before it, and this line with all behind it; `ended` says
// that one before it is no declaration, `locals` how many locals the macro has so far; `code` is a buffer for the codes of its fields.
pub fn body_fault(
    line: &[u8],
    lines: Lines,
    ended: bool,
    locals: usize,
    tables: Tables,
    code: &mut [u8],
) -> Option<Fault>
    requires { (locals ≤ 64) × (71 ≤ length code.old) }
    ensures { (a : Around) (p : Bytes) (ls : List Bytes) → Held (names_in p (lines_of lines.entry.before.now)) a.globals tables.entry.names.own.now tables.entry.names.global.now tables.entry.names.shared.now tables.entry.kinds.now → lines_of lines.entry.from.now ≡ line.now ∷ ls → ended ≡ any ends_declarations (lines_of lines.entry.before.now) → locals ≡ length (names_in p (lines_of lines.entry.before.now)).locals → number_by result ≡ lowest (is_ill_written line.now) (is_out_of_place (in_body p (lines_of lines.entry.before.now)) line.now) (has_bad_name a line.now ls (in_body p (lines_of lines.entry.before.now))) (is_ill_formed line.now (in_body p (lines_of lines.entry.before.now))) (is_past a line.now (in_body p (lines_of lines.entry.before.now))) }
{
    if written::is_ill_written(line) {
        return Some(Fault::BadByte);
    }
    if statements::is_remark(line) {
        return None;
    }
    statement_fault(line, lines, ended, locals, tables, code)
}
