// The tests of a line where a prototype should stand, and of a line outside definitions.
#![tactic(auto)]

ghost use Rattle.std.specs.Prelude.{◌≡◌, true, false, List, ◌++◌, map, ◌+◌, ltb, length};
ghost use Rattle.text.specs.Bytes.{Bytes, same};
ghost use Rattle.rules.specs.Choice.{every, any};
ghost use Rattle.rules.specs.Limits.{parameter_limit};
ghost use Rattle.rules.specs.Lexemes.{lexed};
ghost use Rattle.rules.specs.Fields.{Fields, is_ill_written, is_no_space, fields_of};
ghost use Rattle.rules.specs.Calls.{divided};
ghost use Rattle.rules.specs.Library.{outer, at_prototype, start_symbol, start_symbols};
ghost use Rattle.rules.specs.Faults.{Around, is_out_of_place, is_macro_name, has_bad_prototype_name, has_bad_name, declares_wrongly, is_good_prototype, is_ill_formed, is_past};
ghost use Rattle.names.specs.Names.{titles_in, padded};
ghost use Rattle.tables.specs.Titles.{fits_row};
ghost use Rattle.refusals.specs.Numbers.{number_by};
ghost use Rattle.prototypes.specs.Lowest.{lowest};

use refusals::Fault;

// Whether the operation may be a macro's name.
pub fn is_macro_name(operation: &[u8]) -> bool
    ensures { result ≡ is_macro_name operation.now }
{
    let name = statements::is_name(operation, 8);
    let word = words::word(operation);
    name & word.is_none()
}

// Whether the operation is a macro's name already.
fn is_used(operation: &[u8], titles: &[u8]) -> bool
    ensures { (ts : List Bytes) → titles_in titles.now ≡ map padded ts → every fits_row ts ≡ true → every is_no_space operation.now ≡ true → result ≡ any (same operation.now) ts }
{
    names::find_macro(titles, operation) < titles.len() / 8
}

// Whether the prototype's name and operand declare a symbol that begins SYS, or one twice.
fn declares_wrongly(name: &[u8], operand: &[u8]) -> bool
    ensures { result ≡ declares_wrongly (λ n. false) (start_symbol (lexed false name.now) ++ start_symbols (divided (lexed true operand.now))) }
{
    let rest = declaring::declares_wrongly(operand, &operand[0..0], &operand[0..0]);
    match declared::start_symbol(name) {
        Some(symbol) => {
            let system = declaring::begins_sys(symbol);
            let again = operands::symbol_among(operands::Symbols::of(operand), symbol);
            system | (again | rest)
        }
        None => rest,
    }
}

// 3: whether a prototype's name, operation or operand has a bad name.
pub fn has_bad_name(name: &[u8], operation: &[u8], operand: &[u8], titles: &[u8]) -> bool
    ensures { (ts : List Bytes) (f : Fields) → titles_in titles.now ≡ map padded ts → every fits_row ts ≡ true → every is_no_space operation.now ≡ true → f.name ≡ name.now → f.operation ≡ operation.now → f.operand ≡ operand.now → result ≡ has_bad_prototype_name ts f }
{
    let good = is_macro_name(operation);
    let used = is_used(operation, titles);
    let sequence = statements::is_long_sequence(name);
    let long = declared::has_long(name);
    let parts = operands::has_long_parts(operand);
    let wrong = declares_wrongly(name, operand);
    !good | (used | (sequence | (long | (parts | wrong))))
}

// 4: whether it is well formed.
pub fn is_good(name: &[u8], operand: &[u8]) -> bool
    ensures { (f : Fields) → f.name ≡ name.now → f.operand ≡ operand.now → result ≡ is_good_prototype f }
{
    let one = declared::is_one_symbol(name);
    let good = operands::are_good_parts(operand);
    ((name.len() == 0) | one) & good
}

// 5: whether it has too many parameters.
fn has_too_many(name: &[u8], operand: &[u8]) -> bool
    ensures { result ≡ ltb parameter_limit (length (divided (lexed true operand.now)) + length (start_symbol (lexed false name.now))) }
{
    let parts = operands::part_count(operand);
    match declared::start_symbol(name) {
        Some(_) => 15 < parts,
        None => 16 < parts,
    }
}

// The refusal with the lowest number that a line where a prototype should stand has, where it has one.
pub fn prototype_fault(line: &[u8], titles: &[u8]) -> Option<Fault>
    ensures { (ts : List Bytes) (a : Around) → titles_in titles.now ≡ map padded ts → every fits_row ts ≡ true → number_by result ≡ lowest (is_ill_written line.now) (is_out_of_place at_prototype line.now) (has_bad_prototype_name ts (fields_of line.now)) (is_ill_formed line.now at_prototype) (is_past a line.now at_prototype) }
{
    if written::is_ill_written(line) {
        return Some(Fault::BadByte);
    }
    let operation = statements::operation_of(line);
    if operation.len() == 0 {
        return Some(Fault::OutOfPlace);
    }
    let name = written::name_field(line);
    let operand = written::operand_field(line);
    if has_bad_name(name, operation, operand, titles) {
        return Some(Fault::BadName);
    }
    if !is_good(name, operand) {
        return Some(Fault::IllFormed);
    }
    if has_too_many(name, operand) {
        return Some(Fault::OverLimit);
    }
    None
}

// The refusal with the lowest number that a line outside definitions has, where `macros` MACRO lines stand before it.
pub fn outer_fault(line: &[u8], macros: usize) -> Option<Fault>
    ensures { (a : Around) → a.macros ≡ macros → (ls : List Bytes) → number_by result ≡ lowest (is_ill_written line.now) (is_out_of_place outer line.now) (has_bad_name a line.now ls outer) (is_ill_formed line.now outer) (is_past a line.now outer) }
{
    if written::is_ill_written(line) {
        return Some(Fault::BadByte);
    }
    if !statements::is_macro(line) {
        let operation = statements::operation_of(line);
        if operation.len() == 0 {
            return None;
        }
        return Some(Fault::OutOfPlace);
    }
    let name = written::name_field(line);
    let sequence = statements::is_long_sequence(name);
    let long = declared::has_long(name);
    if sequence | long {
        return Some(Fault::BadName);
    }
    if name.len() != 0 {
        return Some(Fault::IllFormed);
    }
    if 32 <= macros {
        return Some(Fault::OverLimit);
    }
    None
}
