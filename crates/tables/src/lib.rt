// Filling tables of names: each further name takes the next row of eight bytes.
#![tactic(auto)]

ghost use Rattle.std.specs.Prelude.{◌≡◌, ◌∷◌, ◌+◌, ◌*◌, ◌≤◌, length};
ghost use Rattle.lent.specs.Splice.{splice};
ghost use Rattle.names.specs.Names.{padded};

// One more name in a table that has `rows` of them.
pub fn declare(table: &mut [u8], rows: usize, name: &[u8])
    requires { (rows * 8 + 8 ≤ length table.old) × (length name.now ≤ 7) }
    ensures { table.new ≡ splice table.old (rows * 8) (length name.now ∷ name.now) }
{
    table[rows * 8] = name.len() as u8;
    lent::copy(table, rows * 8 + 1, name);
}

// One more macro name, with blanks behind it.
pub fn entitle(table: &mut [u8], rows: usize, name: &[u8])
    requires { (rows * 8 + 8 ≤ length table.old) × (length name.now ≤ 8) }
    ensures { table.new ≡ splice table.old (rows * 8) (padded name.now) }
{
    lent::copy(table, rows * 8, name);
    lent::fill(table, rows * 8 + name.len(), b' ', 8 - name.len());
}
