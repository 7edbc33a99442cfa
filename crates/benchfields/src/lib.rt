// The fields of an end, each by itself: what dump prints and set writes.
#![tactic(auto)]

ghost use Rattle.std.specs.Prelude.{◌≡◌, ◌≤◌, ◌<◌};
ghost use Rattle.benchcommands.specs.Fields.{elements_of, largest_of};
ghost use Rattle.benchfields.specs.Values.{value_of};
ghost use Rattle.console.specs.Ready.{Room};
ghost use Rattle.text.specs.Written.{Kept, written};

use benchcommands::fields::Field;
use consolecommands::dump;
use consolecommands::field::Setting;
use end::End;
use text::output::Output;

// The whole end, name=value for each field.
pub fn dumped(end: End, out: &mut Output)
    requires { Room out.old }
    ensures kept { Kept out.old out.new }
{
    dump::dumped(|field, i| value(end, field, i), out);
}

// Element i of a field, as a number.
pub fn value(end: End, field: Field, i: usize) -> u16
    requires { i < elements_of field }
    ensures { result ≡ value_of end field i }
{
    match field {
        Field::Tx => end.sender.symbols[i],
        Field::Position => u16::from(end.sender.position),
        Field::SendingToggle => u16::from(end.sender.toggle),
        Field::Ready => u16::from(end.sender.ready),
        Field::Health => u16::from(end.sender.health),
        Field::LoadedHealth => u16::from(end.sender.loaded),
        Field::Pending => u16::from(end.outbox.pending),
        Field::RegisterToggle => u16::from(end.outbox.toggle),
        Field::Received => u16::from(end.outbox.received),
        Field::ReceivedToggle => u16::from(end.outbox.confirmed),
        Field::Number => u16::from(end.outbox.number),
        Field::PingTx => u16::from(end.outbox.ping),
        Field::Bytes => u16::from(end.outbox.bytes[i]),
        Field::Rx => end.collector.symbols[i],
        Field::Count => u16::from(end.collector.count),
        Field::PartnerHealth => u16::from(end.heard.health),
        Field::PingGot => u16::from(end.heard.got),
        Field::PartnerPing => u16::from(end.heard.ping),
        Field::Valid => u16::from(end.heard.valid),
        Field::Toggle => u16::from(end.heard.toggle),
        Field::Ack => u16::from(end.heard.ack),
        Field::Togack => u16::from(end.heard.togack),
        Field::ExpectedToggle => u16::from(end.inbox.expected),
        Field::Acknowledge => u16::from(end.inbox.acknowledge),
        Field::Full => u16::from(end.inbox.full),
        Field::RxToggle => u16::from(end.inbox.toggle),
        Field::RxNumber => u16::from(end.inbox.number),
        Field::RxBytes => u16::from(end.inbox.bytes[i]),
        Field::AcceptedCount => end.counts.accepted,
        Field::CrcCount => end.counts.crc,
        Field::MarkedCount => end.counts.marked,
        Field::EarlyCount => end.counts.early,
        Field::PresenceLeft => end.presence,
    }
}

// The end with an element of a field written, good or not. The element is one of the field's; a remainder spares each
// caller showing it.
pub fn written(mut end: End, setting: Setting<Field>) -> End
    ensures { setting.element < elements_of setting.field
        → setting.value ≤ largest_of setting.field
        → value_of result setting.field setting.element ≡ setting.value }
{
    let Setting {
        field,
        element,
        value,
    } = setting;
    let byte = (value % 256) as u8;
    let bit = value == 1;
    match field {
        Field::Tx => end.sender.symbols[element % 12] = value,
        Field::Position => end.sender.position = byte,
        Field::SendingToggle => end.sender.toggle = bit,
        Field::Ready => end.sender.ready = bit,
        Field::Health => end.sender.health = byte,
        Field::LoadedHealth => end.sender.loaded = byte,
        Field::Pending => end.outbox.pending = bit,
        Field::RegisterToggle => end.outbox.toggle = bit,
        Field::Received => end.outbox.received = bit,
        Field::ReceivedToggle => end.outbox.confirmed = bit,
        Field::Number => end.outbox.number = byte,
        Field::PingTx => end.outbox.ping = bit,
        Field::Bytes => end.outbox.bytes[element % 8] = byte,
        Field::Rx => end.collector.symbols[element % 12] = value,
        Field::Count => end.collector.count = byte,
        Field::PartnerHealth => end.heard.health = byte,
        Field::PingGot => end.heard.got = bit,
        Field::PartnerPing => end.heard.ping = bit,
        Field::Valid => end.heard.valid = bit,
        Field::Toggle => end.heard.toggle = bit,
        Field::Ack => end.heard.ack = bit,
        Field::Togack => end.heard.togack = bit,
        Field::ExpectedToggle => end.inbox.expected = bit,
        Field::Acknowledge => end.inbox.acknowledge = bit,
        Field::Full => end.inbox.full = bit,
        Field::RxToggle => end.inbox.toggle = bit,
        Field::RxNumber => end.inbox.number = byte,
        Field::RxBytes => end.inbox.bytes[element % 8] = byte,
        Field::AcceptedCount => end.counts.accepted = value,
        Field::CrcCount => end.counts.crc = value,
        Field::MarkedCount => end.counts.marked = value,
        Field::EarlyCount => end.counts.early = value,
        Field::PresenceLeft => end.presence = value,
    }
    end
}
