// Reads a batch from standard input, translates the library of each case, and writes the answers: docs/BATCH.md.
#![tactic(auto)]

ghost use Rattle.std.specs.Prelude.{◌≡◌, ℕ, ◌-◌, ◌^◌, ◌<◌, ◌≤◌, take, drop, length, IfSome, IfOk, OnOk};
ghost use Rattle.std.specs.Io.KnownBytes.{Keeps, Appends, Consumes, IsAtEnd};
ghost use Rattle.text.specs.Bytes.{Bytes};
ghost use Rattle.answers.specs.Answers.{refused_answer};
ghost use Rattle.translate_batch.specs.Answering.{deck_told, answer_to, input_left, Stands, ReadsOn, Steps, Answers};

use std::io;
use std::io::{Read, Write};

// Where the next case stands in the window, whose first `used` bytes are input.
#[derive(Clone, Copy)]
struct Place {
    at: usize,
    used: usize,
}

// Writes that the library is refused.
fn write_refused<W: Write>(output: &mut W, number: u8, line: usize) -> io::Result<()>
    ensures { OnOk result (Appends (W.contents output.old) (W.contents output.new) (refused_answer number line)) }
{
    let mut text = [0u8; 64];
    let count = answers::put_refused(&mut text, number, line);
    output.write_all(&text[..count])
}

// Writes a deck.
fn write_deck<W: Write>(output: &mut W, deck: &[u8]) -> io::Result<()>
    ensures { OnOk result (Appends (W.contents output.old) (W.contents output.new) (deck_told deck.now)) }
{
    let mut text = [0u8; 64];
    let count = answers::put_deck(&mut text, deck.len());
    output.write_all(&text[..count])?;
    output.write_all(deck)?;
    output.write_all(b"\n")
}

// Writes the answer to a case: its id, and what the translation of its library answers.
fn respond<W: Write>(output: &mut W, id: &[u8], library: &[u8], deck: &mut [u8]) -> io::Result<()>
    ensures { OnOk result (Appends (W.contents output.old) (W.contents output.new)
        (answer_to id.now library.now (length deck.old))) }
{
    output.write_all(b"ANSWER ")?;
    output.write_all(id)?;
    match translating::translate(library, deck) {
        Ok(length) => {
            if length <= deck.len() {
                write_deck(output, &deck[..length])?;
            }
            Ok(())
        }
        Err(refused) => write_refused(output, u8::from(refused.fault), refused.line),
    }
}

// Reads until the buffer is full, the input ends or a read fails; answers how many bytes it read to the buffer's front. A read
// that fails is an error only if it is the first: what was read before is answered, and the next call finds the failure again.
// A loop, since a reader gives as many bytes as it likes, and std's `read_exact` does not say how many it had where it failed.
fn read_full<R: Read>(input: &mut R, buffer: &mut [u8]) -> io::Result<usize>
    ensures bound { IfOk result (λ n. n ≤ length buffer.new) }
    ensures bytes { IfOk result (λ n. Consumes (R.remaining input.old) (R.remaining input.new) (take n buffer.new)) }
    ensures end { IfOk result (λ n. n ≡ 0 → 0 < length buffer.new → IsAtEnd (R.remaining input.new)) }
{
    let mut done = 0;
    while done < buffer.len() {
        match input.read(&mut buffer[done..]) {
            Ok(0) => break,
            Ok(count) => done += count,
            Err(error) => {
                if done == 0 {
                    return Err(error);
                }
                break;
            }
        }
    }
    Ok(done)
}

// Moves the input that is left to the window's front and reads more behind it; answers how many bytes are input then.
fn refill<R: Read>(input: &mut R, window: &mut [u8], place: Place) -> io::Result<usize>
    requires { (place.at ≤ place.used) × (place.used ≤ length window.old) }
    ensures bounds { IfOk result (λ n. (place.used - place.at ≤ n) × (n ≤ length window.new)) }
    ensures front { IfOk result (λ n. take (place.used - place.at) window.new ≡ drop place.at (take place.used window.old)) }
    ensures left { IfOk result (λ n. Keeps (input_left window.old place.at place.used (R.remaining input.old))
        (input_left window.new 0 n (R.remaining input.new))) }
    ensures end { IfOk result (λ n. n ≡ place.used - place.at → n < length window.new → IsAtEnd (R.remaining input.new)) }
{
    batch::keep(window, place.at, place.used);
    let kept = place.used - place.at;
    let count = read_full(input, &mut window[kept..])?;
    Ok(kept + count)
}

// Goes on with more input, if there is any.
fn more<R: Read, E: Write>(
    input: &mut R,
    errors: &mut E,
    window: &mut [u8],
    place: Place,
    ended: bool,
) -> io::Result<Option<Place>>
    requires { (place.at ≤ place.used) × (place.used ≤ length window.old) }
    ensures { (whole : Bytes) (from : ℕ) → Stands whole from window.old place.at place.used (R.remaining input.old)
        → IfOk result (ReadsOn whole from (drop place.at (take place.used window.old)) ended (R.remaining input.old) (E.contents errors.old)
        window.new (R.remaining input.new) (E.contents errors.new)) }
{
    let now = refill(input, window, place)?;
    if place.used - place.at < now {
        return Ok(Some(Place { at: 0, used: now }));
    }
    if !ended {
        errors.write_all(
            b"translate_batch: a case starts: CASE id library program output workspace\n",
        )?;
    }
    Ok(None)
}

// Answers the case at a place, or goes on with more input.
fn step<R: Read, W: Write, E: Write>(
    input: &mut R,
    output: &mut W,
    errors: &mut E,
    window: &mut [u8],
    deck: &mut [u8],
    place: Place,
) -> io::Result<Option<Place>>
    ensures { (whole : Bytes) (from : ℕ) → Stands whole from window.old place.at place.used (R.remaining input.old)
        → IfOk result (Steps whole from (length deck.old) (R.remaining input.old) (W.contents output.old) (E.contents errors.old)
        window.new (R.remaining input.new) (W.contents output.new) (E.contents errors.new)) }
{
    if window.len() < place.used {
        return Ok(None);
    }
    if place.used < place.at {
        return Ok(None);
    }
    match batch::case_at(&window[..place.used], place.at) {
        batch::Case::Found {
            id,
            blank,
            library,
            program,
            stop: _,
            next,
            output: _,
            workspace: _,
        } => {
            respond(output, &window[id..blank], &window[library..program], deck)?;
            Ok(Some(Place { at: next, ..place }))
        }
        batch::Case::End => more(input, errors, window, place, true),
        batch::Case::Broken => more(input, errors, window, place, false),
    }
}

// Answers every case of the input. A proved loop has to end, and nothing says that the input does: so the turns are counted,
// up to a number that no run uses up.
fn run<R: Read, W: Write, E: Write>(
    input: &mut R,
    output: &mut W,
    errors: &mut E,
    window: &mut [u8],
    deck: &mut [u8],
) -> io::Result<()>
    ensures { OnOk result (IfSome (R.remaining input.old) (λ whole. length whole < 2 ^ 63
        → Answers whole (length window.old) (length deck.old)
        (W.contents output.old) (W.contents output.new) (E.contents errors.old) (E.contents errors.new))) }
{
    let mut place = Place { at: 0, used: 0 };
    for _ in 0..u64::MAX {
        match step(input, output, errors, window, deck, place)? {
            Some(next) => place = next,
            None => return Ok(()),
        }
    }
    Ok(())
}

// 1,048,576 zeros: a case has to fit.
fn window_of() -> [u8; 1048576]
    ensures { 1048576 ≡ length result }
{
    [0; 1048576]
}

fn main(rt: HostRuntime) -> io::Result<()> {
    let mut window = window_of();
    let mut deck = [0u8; 65536];
    run(
        &mut rt.stdin(),
        &mut rt.stdout(),
        &mut rt.stderr(),
        &mut window,
        &mut deck,
    )
}
