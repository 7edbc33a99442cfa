// The fields of an end, by name: what dump prints and set writes.
ghost use Rattle.std.specs.Prelude.{◌≡◌, ◌≤◌};
ghost use Rattle.fibrecommands.specs.Fields.{all_of, elements_of, largest_of, name_of};

use consolecommands::field;

// A field of an end. Dump prints them in the order of FIELDS.
#[derive(Clone, Copy, Debug, PartialEq, Eq)]
pub enum Field {
    Txreq,
    Phyt,
    Mert,
    Control,
    Words,
    SentMsgt,
    SentPhyt,
    SentMert,
    SentControl,
    SentWords,
    Rxval,
    RxToggle,
    RxControl,
    RxWords,
}

// All fields, in dump's order.
static FIELDS: [Field; 14] = [
    Field::Txreq,
    Field::Phyt,
    Field::Mert,
    Field::Control,
    Field::Words,
    Field::SentMsgt,
    Field::SentPhyt,
    Field::SentMert,
    Field::SentControl,
    Field::SentWords,
    Field::Rxval,
    Field::RxToggle,
    Field::RxControl,
    Field::RxWords,
];

// How many values a dump has: the elements of all fields together.
pub const VALUES: usize = 35;

impl field::Field for Field {
    ghost all_of = { all_of };

    ghost name_of = { name_of };

    ghost elements_of = { elements_of };

    ghost largest_of = { largest_of };

    fn all() -> &'static [Field] {
        &FIELDS
    }

    fn name(self) -> &'static [u8] {
        match self {
            Field::Txreq => b"txreq",
            Field::Phyt => b"phyt",
            Field::Mert => b"mert",
            Field::Control => b"control",
            Field::Words => b"words",
            Field::SentMsgt => b"sent_msgt",
            Field::SentPhyt => b"sent_phyt",
            Field::SentMert => b"sent_mert",
            Field::SentControl => b"sent_control",
            Field::SentWords => b"sent_words",
            Field::Rxval => b"rxval",
            Field::RxToggle => b"rx_toggle",
            Field::RxControl => b"rx_control",
            Field::RxWords => b"rx_words",
        }
    }

    // 1 where a field is no array.
    fn elements(self) -> usize
        ensures value { result ≡ elements_of self }
        ensures some { 1 ≤ result }
    {
        match self {
            Field::Words | Field::SentWords | Field::RxWords => 8,
            _ => 1,
        }
    }

    // A control or a word has sixteen bits, a bool one.
    fn largest(self) -> u64 {
        match self {
            Field::Control
            | Field::Words
            | Field::SentControl
            | Field::SentWords
            | Field::RxControl
            | Field::RxWords => 65535,
            _ => 1,
        }
    }
}
