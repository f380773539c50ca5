// One step of an expansion: how far it has come, by value, and what one line does to it.
#![tactic(auto)]

ghost use Rattle.std.specs.Prelude.{◌≡◌, ℕ, ◌≤◌, ◌<◌, ◌^◌, length};
ghost use Rattle.rules.specs.Limits.{steps_spent};
ghost use Rattle.rules.specs.Decide.{Act, next, leave, jump, renew, refuse, use'};
ghost use Rattle.expand_levels.specs.Stack.{Sized, top_of};
ghost use Rattle.expand_steps.specs.Moving.{Arm, InMacro, OnLine};
ghost use Rattle.text.specs.Bytes.{Bytes};
ghost use Rattle.expand_steps.specs.Writing.{Ready, Copied, Used};
ghost use Rattle.rules.specs.Machine.{is_title};
ghost use Rattle.deck.specs.Slots.{Deck, machine_of_deck};
ghost use Rattle.work_frames.specs.Frames.{index_in};
ghost use Rattle.expand_steps.specs.Moving.{Sound};
ghost use Rattle.expand_steps.specs.Steps.{ActsBy, DoesLine, Bodily, Steps};
ghost use Rattle.deck.specs.Slots.{Slot};
ghost use Rattle.refusals.specs.Numbers.{number_of};
ghost use Rattle.rules.specs.Evaluate.{Cell};
ghost use Rattle.rules.specs.Statement.{map_line};
ghost use Rattle.rules.specs.Decide.{decide};
ghost use Rattle.deck_reading.specs.Reading.{run_at, line_in};
ghost use Rattle.expand_steps.specs.Runs.{ticked, past_of, opened_at, with_running, put_to, goes_on, stops_by, stops_at, halt_found};

use deck_reading::Fields;
use expand_levels::{CallNumber, Running};
use kinds::Does;
use refusals::Fault;

// The place in the program, the open line's number, the steps, the bytes and lines put out, the calls numbered, the levels.
#[derive(Clone, Copy)]
pub struct Run {
    pub at: usize,
    pub line: usize,
    pub steps: usize,
    pub pos: usize,
    pub lines: usize,
    pub calls: CallNumber,
    pub running: Running,
}

// Whether a run goes on behind a step. `Unready`: a line of a kind that no arm does yet; a refusal says where in the field it arose.
#[derive(Clone, Copy)]
pub enum Halt {
    GoesOn,
    Done,
    Unready,
    Refused { fault: Fault, at: usize },
    StepsSpent,
}

// A run that is told to stop by a number and a place, whatever they say; `halt_of` has what they say.
#[derive(Clone, Copy)]
pub struct Numbered {
    pub run: Run,
    pub halt: u8,
    pub at: usize,
}

// The run stops by this number, at this place.
#[tactic(auto, unfolding(crate::specs::Runs::stops_at))]
pub fn stop_by(run: Run, number: u8, at: usize) -> Numbered
    ensures { result ≡ stops_at number at run }
{
    Numbered {
        run,
        halt: number,
        at,
    }
}

// What a number says of a run: 0, it goes on; 1 to 15, the refusal of that number; 16, the steps are spent; 254, no arm does the line yet; 255, all is done. Another number says nothing.
pub fn halt_of(number: u8, at: usize) -> Option<Halt>
    ensures { result ≡ halt_found number at }
{
    match number {
        0 => Some(Halt::GoesOn),
        1..=15 => Some(Halt::Refused {
            fault: refusals::fault_of(number),
            at,
        }),
        16 => Some(Halt::StepsSpent),
        254 => Some(Halt::Unready),
        255 => Some(Halt::Done),
        _ => None,
    }
}

// What a step leaves.
#[derive(Clone, Copy)]
pub struct Stepped {
    pub run: Run,
    pub halt: Halt,
}

// One step more.
#[tactic(auto, unfolding(crate::specs::Runs::ticked))]
pub fn tick(mut run: Run) -> Run
    requires { run.steps < 2 ^ 63 }
    ensures { result ≡ ticked run }
{
    run.steps += 1;
    run
}

// The levels go on as these.
#[tactic(auto, unfolding(crate::specs::Runs::goes_on, crate::specs::Runs::with_running))]
fn go_on(run: Run, running: Running) -> Stepped
    ensures { result ≡ goes_on (with_running running run) }
{
    Stepped {
        run: Run { running, ..run },
        halt: Halt::GoesOn,
    }
}

// The run ends here: nothing changes.
#[tactic(auto, unfolding(crate::specs::Runs::stops_by))]
pub fn stop(run: Run, halt: Halt) -> Stepped
    ensures { result ≡ stops_by halt run }
{
    Stepped { run, halt }
}

// A refusal of the line itself: nothing changes.
fn refuse(run: Run, fault: Fault) -> Stepped
    ensures { result ≡ stops_by (Halt.Refused fault 0) run }
{
    stop(run, Halt::Refused { fault, at: 0 })
}

// The next line: remarks, declarations, ANOP.
pub fn passes(run: Run) -> Stepped
    requires { OnLine run }
    ensures { Arm run next result }
{
    let running = run.running;
    let level = running.top();
    let next = running.with_top(level.advance());
    go_on(run, next)
}

// MEND and MEXIT.
pub fn leaves(run: Run) -> Stepped
    requires { InMacro run }
    ensures { Arm run leave result }
{
    let running = run.running;
    let next = running.leave();
    go_on(run, next)
}

// AGO, and AIF that is taken.
pub fn branches(run: Run, to: u16) -> Stepped
    requires { InMacro run }
    ensures { Arm run (jump to) result }
{
    let running = run.running;
    let level = running.top();
    if level.is_spent() {
        return refuse(run, Fault::CounterSpent);
    }
    let next = running.with_top(level.branch(to));
    go_on(run, next)
}

// ACTR with a value that may be.
pub fn renews(run: Run, counter: u16) -> Stepped
    requires { OnLine run }
    ensures { Arm run (renew counter) result }
{
    let running = run.running;
    let level = running.top();
    let next = running.with_top(level.renew(counter));
    go_on(run, next)
}

// A line that is refused by evaluation.
pub fn refuses(run: Run, fault: Fault, at: usize) -> Stepped
    requires { InMacro run }
    ensures { (left : ℕ) → Arm run (refuse (number_of fault) left) result }
{
    stop(run, Halt::Refused { fault, at })
}

// The steps that were lent are spent.
pub fn spends(run: Run) -> Stepped
    requires { InMacro run }
    ensures { (left : ℕ) → Arm run (refuse steps_spent left) result }
{
    stop(run, Halt::StepsSpent)
}

// A line is put out up to `pos`, and the levels go on as these.
#[tactic(auto, unfolding(crate::specs::Runs::put_to, crate::specs::Runs::with_running))]
fn put_to(run: Run, pos: usize, running: Running) -> Stepped
    requires { run.lines < 2 ^ 63 }
    ensures { result ≡ goes_on (put_to pos running run) }
{
    let lines = run.lines + 1;
    go_on(Run { pos, lines, ..run }, running)
}

// A line that is copied, behind which the levels go on as `running`.
pub fn copies(out: &mut [u8], work: &mut [u8], line: &[u8], run: Run, running: Running) -> Stepped
    requires { (run.pos ≤ length out.old) × (32768 ≤ length work.old) × (length line.now ≤ 71) × (run.lines < 2 ^ 63) × Sized run.running × Sized running }
    ensures { (deck : Bytes) → Copied deck out.old work.old line.now run running out.new work.new result }
{
    match expand_output::put_out(out, run.pos, line) {
        Some(end) => {
            expand_output::note_section(work, line);
            put_to(run, end, running)
        }
        None => refuse(run, Fault::NoRoom),
    }
}

// Whether an operation is a macro's name.
fn is_title(deck: &[u8], work: &[u8], operation: &[u8]) -> bool
    ensures { (d : Deck) → Ready d deck.now (index_in work.now) → result ≡ is_title (machine_of_deck d) operation.now }
{
    let table = work_frames::title_rows(deck, work);
    expand_titles::title_place(table, operation) < table.len() / 8
}

// A line that is used as it stands, behind which the levels go on as `running`: refused, a call (none is done yet), or copied.
pub fn uses(
    deck: &[u8],
    out: &mut [u8],
    work: &mut [u8],
    line: &[u8],
    run: Run,
    running: Running,
) -> Stepped
    requires { (run.pos ≤ length out.old) × (32768 ≤ length work.old) × (run.lines < 2 ^ 63) × Sized run.running × Sized running }
    ensures { Used deck.now out.old work.old line.now run running out.new work.new result }
{
    if written::is_ill_written(line) {
        return refuse(run, Fault::BadByte);
    }
    let operation = statements::operation_of(line);
    if words::word(operation).is_some() {
        return refuse(run, Fault::LanguageWord);
    }
    if is_title(deck, work, operation) {
        return stop(run, Halt::Unready);
    }
    copies(out, work, line, run, running)
}

// What a line of the deck that writes nothing does: remarks and declarations, MEND, MEXIT, AGO.
fn does(deck: &[u8], line: Fields, run: Run) -> Stepped
    requires { OnLine run }
    ensures { (f : Slot → Cell) → Arm run (decide (map_line f (λ t. t) (line_in deck.now line))) result }
{
    match line.does {
        Does::Passes => passes(run),
        Does::Ends | Does::Exits => leaves(run),
        Does::Branches => branches(run, deck_reading::two_at(deck, line.first) as u16),
        Does::Text | Does::Models | Does::BranchesIf | Does::Counts | Does::Sets(_) => {
            stop(run, Halt::Unready)
        }
    }
}

// A text line of a body, whose bytes stand at a place of the deck.
fn uses_text(deck: &[u8], at: usize, out: &mut [u8], work: &mut [u8], run: Run) -> Stepped
    requires { (run.pos ≤ length out.old) × (32768 ≤ length work.old) × (run.lines < 2 ^ 63) × OnLine run }
    ensures { ActsBy deck.now out.old work.old run out.new work.new result (λ d s. use' (run_at deck.now at)) }
{
    let line = deck_reading::run_at(deck, at);
    let running = run.running;
    let level = running.top();
    let next = running.with_top(level.advance());
    uses(deck, out, work, line, run, next)
}

// The line at a place of the deck.
fn line_step(deck: &[u8], at: usize, out: &mut [u8], work: &mut [u8], run: Run) -> Stepped
    requires { (run.pos ≤ length out.old) × (32768 ≤ length work.old) × (run.lines < 2 ^ 63) × OnLine run }
    ensures { DoesLine deck.now at out.old work.old run out.new work.new result }
{
    let line = deck_reading::line_fields(deck, at);
    match line.does {
        Does::Text => uses_text(deck, line.first, out, work, run),
        _ => does(deck, line, run),
    }
}

// The line that the innermost level has come to.
fn body_step(deck: &[u8], out: &mut [u8], work: &mut [u8], run: Run) -> Stepped
    requires { (run.pos ≤ length out.old) × (32768 ≤ length work.old) × (run.lines < 2 ^ 63) × (0 < run.running.depth) × Sized run.running × ((top_of run.running).body < 32) }
    ensures { Bodily deck.now out.old work.old run out.new work.new result }
{
    let level = run.running.top();
    match work_frames::line_place(work, level.body as usize, level.line as usize) {
        Some(at) => line_step(deck, at, out, work, run),
        None => leaves(run),
    }
}

// An open line more, and the program read to a place.
#[tactic(auto, unfolding(crate::specs::Runs::opened_at))]
fn open_at(run: Run, at: usize) -> Run
    requires { (run.line < 2 ^ 63) × (run.steps < 2 ^ 63) }
    ensures { result ≡ opened_at at run }
{
    Run {
        at,
        line: run.line + 1,
        steps: run.steps + 1,
        ..run
    }
}

// An open line.
fn opens(deck: &[u8], program: &[u8], out: &mut [u8], work: &mut [u8], run: Run) -> Stepped
    requires { Sound program.now out.old run × (32768 ≤ length work.old) × (run.steps < 2 ^ 62) × (run.running.depth ≡ 0) × (run.at < length program.now) }
    ensures { Steps deck.now program.now out.old work.old run out.new work.new result }
{
    let at = run.at;
    let end = lines::line_end(program, at);
    let next = open_at(run, lines::past_newline(program, end));
    let running = run.running;
    let line = &program[at..end];
    uses(deck, out, work, line, next, running)
}

// One step: an open line, or a line of the macro that runs.
pub fn step(deck: &[u8], program: &[u8], out: &mut [u8], work: &mut [u8], run: Run) -> Stepped
    requires { Sound program.now out.old run × (32768 ≤ length work.old) × (run.steps < 2 ^ 62) }
    ensures { Steps deck.now program.now out.old work.old run out.new work.new result }
{
    if run.running.depth == 0 {
        if program.len() <= run.at {
            return stop(run, Halt::Done);
        }
        return opens(deck, program, out, work, run);
    }
    body_step(deck, out, work, tick(run))
}
