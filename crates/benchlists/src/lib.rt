// The commands on lists: check, find, crc and build.
#![tactic(auto)]

ghost use Rattle.std.specs.Prelude.{◌++◌, ◌≡◌, ◌≤◌, ◌+◌, List, ℕ, length};
ghost use Rattle.text.specs.declared.fault.Fault.{Fault};
ghost use Rattle.benchlists.specs.Listed.{Takes, build_line, bytes_of, check_line, crc_line, failed_of, find_line};
ghost use Rattle.benchlists.specs.Listed.{largest_of, line_of};
ghost use Rattle.console.specs.Ready.{Room};
ghost use Rattle.text.specs.Numbers.{list_of, these, wrong};
ghost use Rattle.text.specs.Words.{words_of};
ghost use Rattle.text.specs.Written.{Kept, Told, written};

use benchcommands::bytes::bytes_of;
use benchcommands::lists::ListCommand;
use frame::reason::Reason;
use text::fault::Fault;
use text::lists::read;
use text::output::Output;

// The answer to a command, whose list stands behind its word.
pub fn answered(command: ListCommand, rest: &[u8], symbols: &mut [u16], out: &mut Output)
    requires { Room out.old }
    ensures kept { Kept out.old out.new }
    ensures written { (list : List ℕ)
        → list_of (largest_of command) (length symbols.old) (words_of rest.now) ≡ these list
        → Takes command list
        → written out.new ≡ written out.old ++ line_of command list }
    ensures miscounted { (list : List ℕ)
        → list_of (largest_of command) (length symbols.old) (words_of rest.now) ≡ these list
        → ¬ (Takes command list)
        → Told (written out.old) (written out.new) }
    ensures faulty { (fault : Fault)
        → list_of (largest_of command) (length symbols.old) (words_of rest.now) ≡ wrong fault
        → Told (written out.old) (written out.new) }
{
    match read(rest, largest(command), symbols) {
        Ok(count) => answer(command, &symbols[..count], out),
        Err(fault) => out.fault(fault),
    }
}

// The largest number of a command's list.
fn largest(command: ListCommand) -> u64
    ensures value { result ≡ largest_of command }
    ensures in_bounds { result ≤ 65535 }
{
    match command {
        ListCommand::Check | ListCommand::Find => 65535,
        ListCommand::Crc | ListCommand::Build => 255,
    }
}

// The answer to a command on its list.
fn answer(command: ListCommand, list: &[u16], out: &mut Output)
    requires { Room out.old }
    ensures kept { Kept out.old out.new }
    ensures written { Takes command list.now
        → written out.new ≡ written out.old ++ line_of command list.now }
    ensures miscounted { ¬ (Takes command list.now) → Told (written out.old) (written out.new) }
{
    match command {
        ListCommand::Check => check(list, out),
        ListCommand::Find => find(list, out),
        ListCommand::Crc => crc(list, out),
        ListCommand::Build => build(list, out),
    }
}

fn check(list: &[u16], out: &mut Output)
    requires { Room out.old }
    ensures kept { Kept out.old out.new }
    ensures written { written out.new ≡ written out.old ++ check_line list.now }
{
    let checked = frame::check(list);
    out.decimal(u64::from(u8::from(checked.answer)));
    failed(checked.reason, out);
    out.byte(b'\n');
}

// Why a frame failed, after answer 9.
fn failed(reason: Reason, out: &mut Output)
    requires { out.old.at + 32 ≤ length out.old.bytes.now }
    ensures kept { Kept out.old out.new }
    ensures written { written out.new ≡ written out.old ++ failed_of reason }
    ensures at_bound { out.new.at ≤ out.old.at + 32 }
{
    match reason {
        Reason::Nothing | Reason::Accepted => {}
        Reason::Crc => out.text(b" crc"),
        Reason::Marked(place) => out.numbered(b" marked ", place),
        Reason::Parity(place) => out.numbered(b" parity ", place),
    }
}

fn find(list: &[u16], out: &mut Output)
    requires { Room out.old }
    ensures kept { Kept out.old out.new }
    ensures written { written out.new ≡ written out.old ++ find_line list.now }
{
    let found = finder::place(list);
    let stretch = finder::find(list);
    out.decimal(u64::from(u8::from(found.answer)));
    out.spaced(found.place as u64);
    out.spaced(stretch.len() as u64);
    out.byte(b'\n');
}

fn crc(list: &[u16], out: &mut Output)
    requires { Room out.old }
    ensures kept { Kept out.old out.new }
    ensures written { length list.now ≡ 10
        → written out.new ≡ written out.old ++ crc_line (bytes_of list.now) }
    ensures miscounted { ¬ (length list.now ≡ 10) → Told (written out.old) (written out.new) }
{
    let Some(bytes) = bytes_of(list) else {
        out.fault(Fault::Count);
        return;
    };
    let [high, low] = frame::crc(bytes).to_be_bytes();
    out.hex(u64::from(low), 2);
    out.byte(b' ');
    out.hex(u64::from(high), 2);
    out.byte(b'\n');
}

fn build(list: &[u16], out: &mut Output)
    requires { Room out.old }
    ensures kept { Kept out.old out.new }
    ensures written { length list.now ≡ 10
        → written out.new ≡ written out.old ++ build_line (bytes_of list.now) }
    ensures miscounted { ¬ (length list.now ≡ 10) → Told (written out.old) (written out.new) }
{
    let Some(bytes) = bytes_of(list) else {
        out.fault(Fault::Count);
        return;
    };
    for (i, symbol) in frame::build(bytes).iter().enumerate() {
        out.hex(u64::from(*symbol), 3);
        out.closing(i == 11);
    }
}
