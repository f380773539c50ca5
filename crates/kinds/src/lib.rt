// Words for what document 01 tells apart: SET symbols by their kind, variable symbols, where a reference stands, language words, and what a line of a
// definition does.
// specs/Kinds.antt says which of the rules' words each of them is.
#![tactic(auto)]

// The three kinds of SET symbols.
#[derive(Clone, Copy, PartialEq, Eq)]
pub enum Set {
    A,
    B,
    C,
}

// What a variable symbol is in a macro; `List`, `Index` and `Section` are &SYSLIST, &SYSNDX and &SYSECT.
#[derive(Clone, Copy, PartialEq, Eq)]
pub enum Kind {
    Parameter,
    Symbol(Set),
    List,
    Index,
    Section,
    Unknown,
}

// Where a reference stands: as a term, after K', N' or T', or in text.
#[derive(Clone, Copy, PartialEq, Eq)]
pub enum Stand {
    Term,
    AfterK,
    AfterN,
    AfterT,
    Text,
}

// The sixteen language words, in 01's order.
#[derive(Clone, Copy, PartialEq, Eq)]
pub enum Word {
    Macro,
    Mend,
    Mexit,
    Lcl(Set),
    Gbl(Set),
    Set(Set),
    Aif,
    Ago,
    Anop,
    Actr,
}

// What a line of a definition does when it is reached.
#[derive(Clone, Copy, PartialEq, Eq)]
pub enum Does {
    Passes,
    Ends,
    Exits,
    Text,
    Models,
    BranchesIf,
    Branches,
    Counts,
    Sets(Set),
}
