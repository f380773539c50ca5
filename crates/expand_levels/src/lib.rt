// A running macro, and the number of a call, by value.
#![tactic(auto)]

ghost use Rattle.std.specs.Prelude.{◌≡◌, Bool, ℕ, eqb, ltb, ◌≤◌, ◌<◌};
ghost use Rattle.rules.specs.Choice.{choose};
ghost use Rattle.rules.specs.Machine.{advanced, jumped, renewed_to};
ghost use Rattle.expand_levels.specs.Stands.{Texts, level_of, fresh_of, numbered_of};
ghost use Rattle.expand_levels.specs.Stack.{Sized, top_of, none_run, pushed, popped, topped};

// A level: which macro runs, the body line it has come to (the first is 0), the branches it may still take, its call's number.
#[derive(Clone, Copy)]
pub struct Level {
    pub body: u16,
    pub line: u16,
    pub counter: u16,
    pub number: u16,
}

impl Level {
    pub const COUNTER: u16 = 4096;

    // The level that a call enters.
    #[tactic(auto, unfolding(crate::specs::Stands::level_of, crate::specs::Stands::fresh_of))]
    pub fn enter(body: u16, number: u16) -> Self
        ensures { (t : Texts) → level_of result t ≡ fresh_of body number t }
    {
        Self {
            body,
            line: 0,
            counter: Level::COUNTER,
            number,
        }
    }

    // Whether no branch is left.
    pub fn is_spent(self) -> bool
        ensures { result ≡ eqb self.counter 0 }
    {
        self.counter == 0
    }

    // A taken AIF or AGO.
    #[tactic(auto, unfolding(crate::specs::Stands::level_of, rules::specs::Machine::jumped))]
    pub fn branch(self, to: u16) -> Self
        ensures { (t : Texts) → level_of result t ≡ jumped to (level_of self t) }
    {
        Level {
            line: to,
            counter: self.counter.saturating_sub(1),
            ..self
        }
    }

    // The level at its next line; 65,535 is the last there is.
    #[tactic(auto, unfolding(crate::specs::Stands::level_of, rules::specs::Machine::advanced, rules::specs::Choice::choose))]
    pub fn advance(self) -> Self
        ensures { (t : Texts) → level_of result t ≡ choose (ltb self.line 65535) (advanced (level_of self t)) (level_of self t) }
    {
        Level {
            line: self.line.saturating_add(1),
            ..self
        }
    }

    // ACTR: the counter anew, and the next line; 65,535 is the last there is.
    #[tactic(auto, unfolding(crate::specs::Stands::level_of, rules::specs::Machine::renewed_to, rules::specs::Choice::choose))]
    pub fn renew(self, counter: u16) -> Self
        ensures { (t : Texts) → level_of result t ≡ choose (ltb self.line 65535) (renewed_to counter (level_of self t)) (level_of self t) }
    {
        match self.line.checked_add(1) {
            Some(line) => Level {
                line,
                counter,
                ..self
            },
            None => self,
        }
    }
}

// How many calls have been numbered.
#[derive(Clone, Copy)]
pub struct CallNumber {
    pub given: u16,
}

impl CallNumber {
    pub const FIRST: u16 = 1;

    pub const LAST: u16 = 9999;

    // Before the first call of an expansion.
    pub fn fresh() -> Self
        ensures { result.given ≡ 0 }
    {
        Self {
            given: CallNumber::FIRST - 1,
        }
    }

    // One more call, or none: all numbers are given out.
    #[tactic(auto, unfolding(crate::specs::Stands::numbered_of, rules::specs::Choice::choose))]
    pub fn next(self) -> Option<Self>
        ensures { result ≡ numbered_of self.given }
    {
        let given = self.given;
        if given < CallNumber::LAST {
            return Some(Self { given: given + 1 });
        }
        None
    }
}

// The levels that run: `depth` of them, the outermost first.
#[derive(Clone, Copy)]
pub struct Running {
    pub levels: [Level; Running::DEEPEST],
    pub depth: usize,
}

impl Running {
    pub const DEEPEST: usize = 5;

    // Before the first call: no level runs.
    #[tactic(auto, unfolding(crate::specs::Stack::none_run, crate::specs::Stack::no_level))]
    pub fn none() -> Self
        ensures { result ≡ none_run }
    {
        let level = Level {
            body: 0,
            line: 0,
            counter: 0,
            number: 0,
        };
        Self {
            levels: [level; Self::DEEPEST],
            depth: 0,
        }
    }

    // The level that runs.
    #[tactic(auto, unfolding(crate::specs::Stack::top_of, crate::specs::Stack::no_level))]
    pub fn top(self) -> Level
        requires { (0 < self.depth) × Sized self }
        ensures { result ≡ top_of self }
    {
        self.levels[self.depth - 1]
    }

    // A call: the level that runs waits, and this one runs.
    #[tactic(auto, unfolding(crate::specs::Stack::pushed))]
    pub fn enter(mut self, level: Level) -> Self
        requires { self.depth < 5 }
        ensures { result ≡ pushed level self }
    {
        self.levels[self.depth] = level;
        self.depth += 1;
        self
    }

    // The level that ran has ended: its caller runs again.
    #[tactic(auto, unfolding(crate::specs::Stack::popped))]
    pub fn leave(mut self) -> Self
        requires { 0 < self.depth }
        ensures { result ≡ popped self }
    {
        self.depth -= 1;
        self
    }

    // The level that runs has come to be this one.
    #[tactic(auto, unfolding(crate::specs::Stack::topped))]
    pub fn with_top(mut self, level: Level) -> Self
        requires { (0 < self.depth) × Sized self }
        ensures { result ≡ topped level self }
    {
        self.levels[self.depth - 1] = level;
        self
    }
}
