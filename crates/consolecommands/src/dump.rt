// The line that dump prints.
ghost use Rattle.std.specs.Prelude.{ℕ, List, ◌≡◌, ◌≤◌, ◌<◌, ◌+◌, ◌*◌, ◌++◌, length};
ghost use Rattle.consolecommands.specs.Dump.{Dump, dump_room, Elements};
ghost use Rattle.text.specs.Written.{Kept, written};

use crate::field::Field;
use text::output::Output;

// name=value for each field, the elements of an array joined by commas.
#[tactic(auto, using(crate::proofs::DumpLaws::room_here))]
pub fn dumped<F: Field, V: Fn(F, usize) -> u16>(value: V, out: &mut Output)
    requires callable { (f : F) (i : ℕ) → i < F.elements_of f → V.pre value f i }
    requires room { out.old.at + dump_room F.name_of F.elements_of F.all_of ≤ length out.old.bytes.now }
    ensures kept { Kept out.old out.new }
    ensures written { (text : List ℕ)
        × Dump F.name_of F.elements_of (V.post value) F.all_of text
        × (written out.new ≡ written out.old ++ text) }
{
    let fields = F::all();
    for (i, field) in fields.iter().enumerate() {
        out.text(field.name());
        out.byte(b'=');
        joined(*field, &value, out);
        out.closing(i + 1 == fields.len());
    }
}

// The elements of a field in hex without leading zeros, joined by commas.
fn joined<F: Field, V: Fn(F, usize) -> u16>(field: F, value: &V, out: &mut Output)
    requires callable { (i : ℕ) → i < F.elements_of field → V.pre value.now field i }
    requires space { out.old.at + 5 * F.elements_of field ≤ length out.old.bytes.now }
    ensures kept { Kept out.old out.new }
    ensures at_bound { out.new.at ≤ out.old.at + 5 * F.elements_of field }
    ensures written { (text : List ℕ)
        × Elements (V.post value.now field) (F.elements_of field) text
        × (written out.new ≡ written out.old ++ text) }
{
    let elements = field.elements();
    if elements == 0 {
        return;
    }
    out.short_hex(value(field, 0));
    for i in 1..elements {
        out.byte(b',');
        out.short_hex(value(field, i));
    }
}
