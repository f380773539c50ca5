// What stands before a macro's locals and lines in a deck: its name, its name parameter, its positionals and its keywords.
#![tactic(auto)]

ghost use Rattle.std.specs.Prelude.{◌≡◌, false, ◌+◌, ◌≤◌, length};
ghost use Rattle.rules.specs.Fields.{is_remark};
ghost use Rattle.lent.specs.Splice.{splice};
ghost use Rattle.headers.specs.Headers.{header_of};

// A macro's name, whether it has a name parameter, the number of its positionals, and its keywords, from `at` on.
pub fn put_header(prototype: &[u8], out: &mut [u8], at: usize) -> usize
    requires { (length prototype.now ≤ 71) × ((is_remark prototype.now ≡ false) × (at + length (header_of prototype.now) ≤ length out.old)) }
    ensures value { result ≡ at + length (header_of prototype.now) }
    ensures out_after { out.new ≡ splice out.old at (header_of prototype.now) }
{
    let title = statements::operation_of(prototype);
    let name = written::name_field(prototype);
    let named = declared::start_symbol(name).is_some();
    let operand = written::operand_field(prototype);
    let count = keywords::positional_count(operand);
    let end = writing::put_title(out, at, title, named, count);
    keywords::put_keywords(operand, out, end)
}
