// The refusals of document 01 as an answer, and their numbers.
#![tactic(auto)]

ghost use Rattle.std.specs.Prelude.{◌≡◌, ◌≤◌};
ghost use Rattle.refusals.specs.Numbers.{number_of};

// 01's refusals, in the order of their numbers.
#[derive(Clone, Copy)]
pub enum Fault {
    BadByte,
    OutOfPlace,
    BadName,
    IllFormed,
    OverLimit,
    BadCall,
    TooLong,
    BadValue,
    CounterSpent,
    LevelSix,
    CallsSpent,
    BadDeck,
    ShortWorkspace,
    NoRoom,
    LanguageWord,
}

// A refusal, and the number of the line that it is about; 0 where it is about none.
#[derive(Clone, Copy)]
pub struct Refused {
    pub fault: Fault,
    pub line: usize,
}

// The number of a refusal.
impl From<Fault> for u8 {
    ghost from_gives = { λ fault number. number ≡ number_of fault };

    fn from(fault: Fault) -> u8 {
        match fault {
            Fault::BadByte => 1,
            Fault::OutOfPlace => 2,
            Fault::BadName => 3,
            Fault::IllFormed => 4,
            Fault::OverLimit => 5,
            Fault::BadCall => 6,
            Fault::TooLong => 7,
            Fault::BadValue => 8,
            Fault::CounterSpent => 9,
            Fault::LevelSix => 10,
            Fault::CallsSpent => 11,
            Fault::BadDeck => 12,
            Fault::ShortWorkspace => 13,
            Fault::NoRoom => 14,
            Fault::LanguageWord => 15,
        }
    }
}

// The refusal with this number. (Of a number that no refusal has, it is the last one.)
pub fn fault_of(number: u8) -> Fault
    ensures { (1 ≤ number) → (number ≤ 15) → number_of result ≡ number }
{
    match number {
        1 => Fault::BadByte,
        2 => Fault::OutOfPlace,
        3 => Fault::BadName,
        4 => Fault::IllFormed,
        5 => Fault::OverLimit,
        6 => Fault::BadCall,
        7 => Fault::TooLong,
        8 => Fault::BadValue,
        9 => Fault::CounterSpent,
        10 => Fault::LevelSix,
        11 => Fault::CallsSpent,
        12 => Fault::BadDeck,
        13 => Fault::ShortWorkspace,
        14 => Fault::NoRoom,
        _ => Fault::LanguageWord,
    }
}
