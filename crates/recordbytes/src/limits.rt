// The limits that answer 11 looks at.
ghost use Rattle.std.specs.Prelude.{◌≡◌};
ghost use Rattle.recordspec.specs.Record.{limits};

// The largest value of each byte behind the head: the bytes of an end with each field at its largest. It is spelled out
// so that no call has to work it out.
pub fn limits() -> [u8; 98]
    ensures { result ≡ limits }
{
    [
        // tx: twelve symbols of at most 511, in two bytes each
        1, 255, 1, 255, 1, 255, 1, 255, 1, 255, 1, 255, 1, 255, 1, 255, 1, 255, 1, 255, 1, 255, 1,
        255, 11, // position
        1, // sending_toggle
        1, // ready
        3, // health
        3, // loaded_health
        1, // pending
        1, // register_toggle
        1, // received
        1, // received_toggle
        15, // number
        1, // ping_tx
        // bytes
        255, 255, 255, 255, 255, 255, 255, 255,
        // rx: twelve symbols, likewise
        1, 255, 1, 255, 1, 255, 1, 255, 1, 255, 1, 255, 1, 255, 1, 255, 1, 255, 1, 255, 1, 255, 1,
        255, 11, // count
        3, // partner_health
        1, // ping_got
        1, // partner_ping
        1, // valid
        1, // toggle
        1, // ack
        1, // togack
        1, // expected_toggle
        1, // acknowledge
        1, // full
        1, // rx_toggle
        15, // rx_number
        // rx_bytes
        255, 255, 255, 255, 255, 255, 255, 255,
        // the four counts
        255, 255, 255, 255, 255, 255, 255, 255,
        // presence_left: that it is at most 768 no byte alone says
        3, 255,
    ]
}
