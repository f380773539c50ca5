// ACTR: a new counter from a SETA value. (To stand in `expand_steps` beside `renews`, once evaluation is there.)
#![tactic(auto)]

ghost use Rattle.std.specs.Prelude.{ℕ, ◌<◌};
ghost use Rattle.rules.specs.Decide.{renewed};
ghost use Rattle.expand_levels.specs.Stack.{Sized, top_of};
ghost use Rattle.expand_steps.specs.Moving.{Arm, OnLine};

// The largest value that a counter may have.
const LARGEST: i32 = 4096;

// The counter anew if the value is 0 to 4096, else a refusal.
pub fn counts(run: expand_steps::Run, v: i32) -> expand_steps::Stepped
    requires { OnLine run }
    ensures { (left : ℕ) → Arm run (renewed left v) result }
{
    if v < 0 || LARGEST < v {
        return expand_steps::refuses(run, refusals::Fault::BadValue, 0);
    }
    expand_steps::renews(run, v as u16)
}
