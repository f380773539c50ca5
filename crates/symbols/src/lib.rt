// The variable symbols of a field: whether one of them is not known.
#![tactic(auto)]

ghost use Rattle.std.specs.Prelude.{◌≡◌};
ghost use Rattle.symbols.specs.Held.{unknown_in};

// Whether a field's bytes have the byte of a symbol that is not known.
pub fn has_unknown(code: &[u8]) -> bool
    ensures { result ≡ unknown_in code.now }
{
    code.contains(&names::UNKNOWN)
}
