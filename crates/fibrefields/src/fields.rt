// The fields of an end, each by itself.
ghost use Rattle.std.specs.Prelude.{◌≡◌, ◌<◌, ◌%◌};
ghost use Rattle.fibrecommands.specs.Fields.{elements_of};
ghost use Rattle.fibrefields.specs.Fields.{value_of, written_of};

use consolecommands::field::Setting;
use fibre::End;
use fibrecommands::fields::Field;

// Element i of a field, as a number: what dump prints.
pub fn value(end: End, field: Field, i: usize) -> u16
    requires { i < elements_of field }
    ensures { result ≡ value_of end field i }
{
    match field {
        Field::Txreq => u16::from(end.transmit.txreq),
        Field::Phyt => u16::from(end.transmit.phyt),
        Field::Mert => u16::from(end.transmit.mert),
        Field::Control => end.transmit.control,
        Field::Words => end.transmit.words[i],
        Field::SentMsgt => u16::from(end.sent.msgt),
        Field::SentPhyt => u16::from(end.sent.phyt),
        Field::SentMert => u16::from(end.sent.mert),
        Field::SentControl => end.sent.control,
        Field::SentWords => end.sent.words[i],
        Field::Rxval => u16::from(end.receive.rxval),
        Field::RxToggle => u16::from(end.receive.toggle),
        Field::RxControl => end.receive.control,
        Field::RxWords => end.receive.words[i],
    }
}

// The end with an element of a field written, good or not: what set does. The element is one of the field's; a
// remainder spares each caller showing it.
pub fn written(mut end: End, setting: Setting<Field>) -> End
    ensures { result ≡ written_of end setting.field (setting.element % 8) setting.value }
{
    let value = setting.value;
    let set = value == 1;
    let i = setting.element % 8;
    match setting.field {
        Field::Txreq => end.transmit.txreq = set,
        Field::Phyt => end.transmit.phyt = set,
        Field::Mert => end.transmit.mert = set,
        Field::Control => end.transmit.control = value,
        Field::Words => end.transmit.words[i] = value,
        Field::SentMsgt => end.sent.msgt = set,
        Field::SentPhyt => end.sent.phyt = set,
        Field::SentMert => end.sent.mert = set,
        Field::SentControl => end.sent.control = value,
        Field::SentWords => end.sent.words[i] = value,
        Field::Rxval => end.receive.rxval = set,
        Field::RxToggle => end.receive.toggle = set,
        Field::RxControl => end.receive.control = value,
        Field::RxWords => end.receive.words[i] = value,
    }
    end
}
