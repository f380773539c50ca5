// The walk over a library's lines that finds the lowest faulty one, and fills the tables on its way.
#![tactic(auto)]

ghost use Rattle.std.specs.Prelude.{◌≡◌, ◌+◌, ◌-◌, ◌≤◌, length, take, drop};
ghost use Rattle.rules.specs.Fields.{lines_of};
ghost use Rattle.rules.specs.Faults.{Around, at_statement, ends_declarations, verdict};
ghost use Rattle.kinds.specs.Kinds.{statement_by};
ghost use Rattle.refusals.specs.Numbers.{number_by};
ghost use Rattle.labels.specs.Searches.{past_newline};
ghost use Rattle.walking.specs.Verdicts.{told, fault_number, own_number, Lists};
ghost use Rattle.walking.specs.Walks.{Follows, Sizes, Walked, AtLine, Ready};

use checking::{Lines, Tables};
use collecting::Rows;
use kinds::Word;
use names::Names;
use refusals::{Fault, Refused};

// What is known in a body: where it starts, how many parameters the macro has, and whether its declarations are over.
#[derive(Clone, Copy)]
pub struct Body {
    pub start: usize,
    pub parameters: usize,
    pub ended: bool,
}

// Where a line stands: outside definitions, where a prototype should stand, or in a body.
#[derive(Clone, Copy)]
pub enum Place {
    Outer,
    Prototype,
    Inner(Body),
}

// Where a walk stands: at the line that starts at `at`, with so many lines, MACRO lines and macros' names before it, in its place; and how many rows the tables
// of names have.
#[derive(Clone, Copy)]
pub struct Walk {
    pub at: usize,
    pub lines: usize,
    pub macros: usize,
    pub titles: usize,
    pub place: Place,
    pub rows: Rows,
}

// Whether no declaration may stand behind a statement with this word.
#[tactic(auto, unfolding(rules::specs::Faults::at_statement))]
fn is_over(word: Option<Word>) -> bool
    ensures { result ≡ at_statement (statement_by word) }
{
    match word {
        Some(Word::Macro) => false,
        Some(Word::Mend) => true,
        Some(Word::Mexit) => true,
        Some(Word::Lcl(_)) => false,
        Some(Word::Gbl(_)) => false,
        Some(Word::Set(_)) => true,
        Some(Word::Aif) => true,
        Some(Word::Ago) => true,
        Some(Word::Anop) => true,
        Some(Word::Actr) => true,
        None => true,
    }
}

// Whether no declaration may stand behind the line.
fn ends_declarations(line: &[u8]) -> bool
    ensures { result ≡ ends_declarations line.now }
{
    let remark = statements::is_remark(line);
    let operation = statements::operation_of(line);
    !remark & is_over(words::word(operation))
}

// The walk behind the line that ends at `end` and has no fault; what the line declares is in the tables then.
fn pass(
    library: &[u8],
    walk: Walk,
    end: usize,
    titles: &mut [u8],
    own: &mut [u8],
    global: &mut [u8],
    shared: &mut [u8],
    kinds: &mut [u8],
) -> Walk
    requires { Ready library.now walk end titles.old own.old global.old shared.old kinds.old }
    ensures walked { Walked library.now result titles.new own.new global.new shared.new kinds.new }
    ensures at_value { result.at ≡ past_newline library.now end }
{
    let next = labels::past_newline(library, end);
    let at = walk.at;
    let line = &library[at..end];
    let lines = walk.lines + 1;
    match walk.place {
        Place::Outer => {
            if statements::is_macro(line) {
                return Walk {
                    at: next,
                    lines,
                    macros: walk.macros + 1,
                    place: Place::Prototype,
                    ..walk
                };
            }
            Walk {
                at: next,
                lines,
                ..walk
            }
        }
        Place::Prototype => {
            let operation = statements::operation_of(line);
            tables::entitle(titles, walk.titles, operation);
            let parameters = collecting::declare_prototype(line, own, kinds);
            Walk {
                at: next,
                lines,
                titles: walk.titles + 1,
                place: Place::Inner(Body {
                    start: next,
                    parameters,
                    ended: false,
                }),
                rows: Rows {
                    own: parameters,
                    global: 0,
                    ..walk.rows
                },
                ..walk
            }
        }
        Place::Inner(body) => {
            let rows = collecting::declare_line(line, walk.rows, own, global, shared, kinds);
            if statements::is_mend(line) {
                return Walk {
                    at: next,
                    lines,
                    place: Place::Outer,
                    rows,
                    ..walk
                };
            }
            let ends = ends_declarations(line);
            Walk {
                at: next,
                lines,
                place: Place::Inner(Body {
                    ended: body.ended | ends,
                    ..body
                }),
                rows,
                ..walk
            }
        }
    }
}

// The refusal with the lowest number that the line up to `end` has, the limit of lines aside, where it has one. `code` is a buffer for the codes of its fields.
fn own_fault(
    library: &[u8],
    walk: Walk,
    end: usize,
    titles: &[u8],
    tables: Tables,
    code: &mut [u8],
) -> Option<Fault>
    requires { AtLine library.now walk end titles.now tables.names.own.now tables.names.global.now tables.names.shared.now tables.kinds.now × (71 ≤ length code.old) }
    ensures { (a : Around) → Follows library.now walk titles.now tables.entry.names.own.now tables.entry.names.global.now tables.entry.names.shared.now tables.entry.kinds.now a → number_by result ≡ own_number a (take (end - walk.at) (drop walk.at library.now)) (lines_of (drop (end + 1) library.now)) }
{
    let at = walk.at;
    let line = &library[at..end];
    match walk.place {
        Place::Outer => prototypes::outer_fault(line, walk.macros),
        Place::Prototype => {
            let names = walk.titles * 8;
            prototypes::prototype_fault(line, &titles[0..names])
        }
        Place::Inner(body) => {
            let start = body.start;
            let before = &library[start..at];
            let from = &library[at..];
            let locals = walk.rows.own - body.parameters;
            let mine = walk.rows.own * 8;
            let theirs = walk.rows.global * 8;
            let ours = walk.rows.shared * 8;
            let lines = Lines { before, from };
            let names = Names {
                own: &tables.names.own[0..mine],
                global: &tables.names.global[0..theirs],
                shared: &tables.names.shared[0..ours],
            };
            let kinds = tables.kinds;
            faults::body_fault(
                line,
                lines,
                body.ended,
                locals,
                Tables { names, kinds },
                code,
            )
        }
    }
}

// How many lines a library may have.
const LINES: usize = 512;

// The refusal with the lowest number that the line up to `end` has, the limit of lines being one of the tests, where it has one.
// Four slices and no `Tables`: a struct of reborrows made in `check`'s loop is refused, since its lifetime would meet that of the next turn's.
fn fault(
    library: &[u8],
    walk: Walk,
    end: usize,
    titles: &[u8],
    own: &[u8],
    global: &[u8],
    shared: &[u8],
    kinds: &[u8],
    code: &mut [u8],
) -> Option<Fault>
    requires { AtLine library.now walk end titles.now own.now global.now shared.now kinds.now × (71 ≤ length code.old) }
    ensures { (a : Around) → Follows library.now walk titles.now own.now global.now shared.now kinds.now a → number_by result ≡ fault_number a (take (end - walk.at) (drop walk.at library.now)) (lines_of (drop (end + 1) library.now)) }
{
    let names = Names {
        own,
        global,
        shared,
    };
    match own_fault(library, walk, end, titles, Tables { names, kinds }, code) {
        Some(found) => Some(found),
        None => {
            if LINES <= walk.lines {
                Some(Fault::OverLimit)
            } else {
                None
            }
        }
    }
}

// How many globals an accepted library has, which stand in the tables then; else its lowest faulty line, with the refusal that has the lowest number on it.
pub fn check(
    library: &[u8],
    titles: &mut [u8],
    own: &mut [u8],
    global: &mut [u8],
    shared: &mut [u8],
    kinds: &mut [u8],
    code: &mut [u8],
) -> Result<usize, Refused>
    requires { Sizes titles.old own.old global.old shared.old kinds.old × (71 ≤ length code.old) }
    ensures result_value { told result ≡ verdict library.now }
    ensures lists { Lists result library.now shared.new kinds.new }
{
    let mut walk = Walk {
        at: 0,
        lines: 0,
        macros: 0,
        titles: 0,
        place: Place::Outer,
        rows: Rows {
            own: 0,
            global: 0,
            shared: 0,
        },
    };
    // By place: a test of a line needs the lines of its body before it, and those behind it.
    while walk.at < library.len() {
        let end = lines::line_end(library, walk.at);
        match fault(library, walk, end, titles, own, global, shared, kinds, code) {
            Some(found) => {
                return Err(Refused {
                    fault: found,
                    line: walk.lines + 1,
                });
            }
            None => walk = pass(library, walk, end, titles, own, global, shared, kinds),
        }
    }
    match walk.place {
        Place::Outer => Ok(walk.rows.shared),
        Place::Prototype => Err(Refused {
            fault: Fault::OutOfPlace,
            line: walk.lines + 1,
        }),
        Place::Inner(_) => Err(Refused {
            fault: Fault::OutOfPlace,
            line: walk.lines + 1,
        }),
    }
}
