// Which of the sixteen language words of document 01, "Definitions", an operation is.
#![tactic(auto)]

ghost use Rattle.std.specs.Prelude.{◌≡◌, get_or};
ghost use Rattle.text.specs.Bytes.{same};
ghost use Rattle.text.specs.Words.{word_number};
ghost use Rattle.rules.specs.Statement.{statement_of, statements, model};
ghost use Rattle.kinds.specs.Kinds.{statement_by};
ghost use Rattle.words.specs.Trimmed.{trimmed};
ghost use Rattle.words.specs.Places.{place_of};

use kinds::{Set, Word};

// The sixteen words in 01's order, each in eight bytes, blanks behind it.
const WORDS: [([u8; 8], Word); 16] = [
    (*b"MACRO   ", Word::Macro),
    (*b"MEND    ", Word::Mend),
    (*b"MEXIT   ", Word::Mexit),
    (*b"LCLA    ", Word::Lcl(Set::A)),
    (*b"LCLB    ", Word::Lcl(Set::B)),
    (*b"LCLC    ", Word::Lcl(Set::C)),
    (*b"GBLA    ", Word::Gbl(Set::A)),
    (*b"GBLB    ", Word::Gbl(Set::B)),
    (*b"GBLC    ", Word::Gbl(Set::C)),
    (*b"SETA    ", Word::Set(Set::A)),
    (*b"SETB    ", Word::Set(Set::B)),
    (*b"SETC    ", Word::Set(Set::C)),
    (*b"AIF     ", Word::Aif),
    (*b"AGO     ", Word::Ago),
    (*b"ANOP    ", Word::Anop),
    (*b"ACTR    ", Word::Actr),
];

// Whether the word in the row, the blanks behind it left out, is exactly `op`.
fn spells(row: [u8; 8], op: &[u8]) -> bool
    ensures { result ≡ same (trimmed row) op.now }
{
    if 8 < op.len() {
        return false;
    }
    for (i, &c) in op.iter().enumerate() {
        if row[i] == b' ' {
            return false;
        }
        if row[i] != c {
            return false;
        }
    }
    if op.len() == 8 {
        return true;
    }
    row[op.len()] == b' '
}

// The language word that `op` is, where it is one.
pub fn word(op: &[u8]) -> Option<Word>
    ensures number { place_of result ≡ word_number op.now }
    ensures statement { statement_by result ≡ statement_of op.now }
{
    for &(row, word) in &WORDS {
        if spells(row, op) {
            return Some(word);
        }
    }
    None
}

// The language word with this number, counted from 0; none behind the last.
pub fn numbered(number: usize) -> Option<Word>
    ensures { statement_by result ≡ get_or statements number model }
{
    if 16 <= number {
        return None;
    }
    Some(WORDS[number].1)
}
