// Translation: a library into a deck.
#![tactic(auto)]

ghost use Rattle.std.specs.Prelude.{◌≡◌};
ghost use Rattle.rules.specs.Faults.{accepted, verdict};
ghost use Rattle.walking.specs.Verdicts.{globals_at, Shared};
ghost use Rattle.macros.specs.Macros.{Lent};
ghost use Rattle.translating.specs.Answers.{Right};

use refusals::{Fault, Refused};

// The deck of an accepted library, whose globals stand in the first rows of `shared`: written to `deck` if there is room for it.
fn write(
    library: &[u8],
    globals: usize,
    own: &mut [u8],
    global: &mut [u8],
    shared: &mut [u8],
    kinds: &mut [u8],
    code: &mut [u8],
    deck: &mut [u8],
) -> Result<usize, Refused>
    requires { (verdict library.now ≡ accepted) × (Lent own.old global.old shared.old kinds.old code.old × Shared (globals_at library.now) globals shared.old kinds.old) }
    ensures { Right library.now deck.old result deck.new }
{
    let mut out = [0u8; 65536];
    let length = macros::put_deck(library, globals, own, global, shared, kinds, code, &mut out);
    let too_small = deck.len() < length;
    if too_small {
        return Err(Refused {
            fault: Fault::NoRoom,
            line: 0,
        });
    }
    lent::copy(deck, 0, &out[0..length]);
    Ok(length)
}

// Translates a library into a deck: the deck's length, and its bytes at the buffer's front; or the refusal of the lowest faulty line, and the buffer as it was.
pub fn translate(library: &[u8], deck: &mut [u8]) -> Result<usize, Refused>
    ensures { Right library.now deck.old result deck.new }
{
    let mut titles = [0u8; 264];
    let mut own = [0u8; 1024];
    let mut global = [0u8; 1024];
    let mut shared = [0u8; 1024];
    let mut kinds = [0u8; 192];
    let mut code = [0u8; 71];
    let globals = walking::check(
        library,
        &mut titles,
        &mut own,
        &mut global,
        &mut shared,
        &mut kinds,
        &mut code,
    )?;
    write(
        library,
        globals,
        &mut own,
        &mut global,
        &mut shared,
        &mut kinds,
        &mut code,
        deck,
    )
}
