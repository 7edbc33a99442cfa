// The fields of an end, as dump prints them and set writes them. A later field is one more variant here, with its name,
// and one more value in dump and one more in set.
ghost use Rattle.std.specs.Prelude.{◌≡◌, ◌≤◌};
ghost use Rattle.benchcommands.specs.Fields.{all_of, name_of, elements_of, largest_of};

use consolecommands::field;

// A field of an end.
#[derive(Clone, Copy, Debug, PartialEq, Eq)]
pub enum Field {
    Tx,
    Position,
    SendingToggle,
    Ready,
    Health,
    LoadedHealth,
    Pending,
    RegisterToggle,
    Received,
    ReceivedToggle,
    Number,
    PingTx,
    Bytes,
    Rx,
    Count,
    PartnerHealth,
    PingGot,
    PartnerPing,
    Valid,
    Toggle,
    Ack,
    Togack,
    ExpectedToggle,
    Acknowledge,
    Full,
    RxToggle,
    RxNumber,
    RxBytes,
    AcceptedCount,
    CrcCount,
    MarkedCount,
    EarlyCount,
    PresenceLeft,
}

// All fields, in dump's order.
const FIELDS: [Field; 33] = [
    Field::Tx,
    Field::Position,
    Field::SendingToggle,
    Field::Ready,
    Field::Health,
    Field::LoadedHealth,
    Field::Pending,
    Field::RegisterToggle,
    Field::Received,
    Field::ReceivedToggle,
    Field::Number,
    Field::PingTx,
    Field::Bytes,
    Field::Rx,
    Field::Count,
    Field::PartnerHealth,
    Field::PingGot,
    Field::PartnerPing,
    Field::Valid,
    Field::Toggle,
    Field::Ack,
    Field::Togack,
    Field::ExpectedToggle,
    Field::Acknowledge,
    Field::Full,
    Field::RxToggle,
    Field::RxNumber,
    Field::RxBytes,
    Field::AcceptedCount,
    Field::CrcCount,
    Field::MarkedCount,
    Field::EarlyCount,
    Field::PresenceLeft,
];

// How many values a dump has: the elements of all fields together.
pub const VALUES: usize = 69;

impl field::Field for Field {
    ghost all_of = { all_of };

    ghost name_of = { name_of };

    ghost elements_of = { elements_of };

    ghost largest_of = { largest_of };

    fn all() -> &'static [Field] {
        &FIELDS
    }

    fn name(self) -> &'static [u8] {
        match self {
            Field::Tx => b"tx",
            Field::Position => b"position",
            Field::SendingToggle => b"sending_toggle",
            Field::Ready => b"ready",
            Field::Health => b"health",
            Field::LoadedHealth => b"loaded_health",
            Field::Pending => b"pending",
            Field::RegisterToggle => b"register_toggle",
            Field::Received => b"received",
            Field::ReceivedToggle => b"received_toggle",
            Field::Number => b"number",
            Field::PingTx => b"ping_tx",
            Field::Bytes => b"bytes",
            Field::Rx => b"rx",
            Field::Count => b"count",
            Field::PartnerHealth => b"partner_health",
            Field::PingGot => b"ping_got",
            Field::PartnerPing => b"partner_ping",
            Field::Valid => b"valid",
            Field::Toggle => b"toggle",
            Field::Ack => b"ack",
            Field::Togack => b"togack",
            Field::ExpectedToggle => b"expected_toggle",
            Field::Acknowledge => b"acknowledge",
            Field::Full => b"full",
            Field::RxToggle => b"rx_toggle",
            Field::RxNumber => b"rx_number",
            Field::RxBytes => b"rx_bytes",
            Field::AcceptedCount => b"accepted_count",
            Field::CrcCount => b"crc_count",
            Field::MarkedCount => b"marked_count",
            Field::EarlyCount => b"early_count",
            Field::PresenceLeft => b"presence_left",
        }
    }

    // 1 where a field is no array.
    fn elements(self) -> usize
        ensures value { result ≡ elements_of self }
        ensures some { 1 ≤ result }
    {
        match self {
            Field::Tx | Field::Rx => 12,
            Field::Bytes | Field::RxBytes => 8,
            _ => 1,
        }
    }

    // A symbol, a count or what is left of presence has sixteen bits, a bool one, any other a byte.
    fn largest(self) -> u64 {
        match self {
            Field::Tx
            | Field::Rx
            | Field::AcceptedCount
            | Field::CrcCount
            | Field::MarkedCount
            | Field::EarlyCount
            | Field::PresenceLeft => 65535,
            Field::Position
            | Field::Health
            | Field::LoadedHealth
            | Field::Number
            | Field::Bytes
            | Field::Count
            | Field::PartnerHealth
            | Field::RxNumber
            | Field::RxBytes => 255,
            _ => 1,
        }
    }
}
