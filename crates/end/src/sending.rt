// Sending, one symbol a slot.
ghost use Rattle.std.specs.Prelude.{◌≡◌, true, false, cond, ◌≤◌};
ghost use Rattle.end.specs.Sending.{acked, step_one, loads, old_valid, old_number, old_bytes, word_zero, word_one};
ghost use Rattle.end.specs.Sending.{ten_bytes, steps_two_to_four, frame_start, slot_of, moved_on, send_of};

use crate::good::{Good, bad};
use crate::{End, Sent};
use answer::Answer;
use receiver::message::message_of;
use weights::bit;

impl End {
    // The symbol at the position goes out, and the position moves on; at position 0 a frame is made first.
    pub fn send(self) -> Sent
        ensures { result ≡ send_of self }
    {
        if bad(self) {
            return Sent {
                answer: Answer::BadEnd,
                symbol: 0,
                end: self,
            };
        }
        // Built here and not by `good`, whose Option costs 15 instructions in each slot.
        let slot = Good { end: self }.slot_of();
        Sent {
            answer: Answer::Done,
            symbol: slot.sender.symbols[usize::from(slot.sender.position)],
            end: moved_on(slot),
        }
    }
}

// The position moves on by one, from 11 to 0.
fn moved_on(mut end: End) -> End
    requires { end.sender.position ≤ 11 }
    ensures { result ≡ moved_on end }
{
    // A way out, since one expression for both costs 18 instructions in each slot.
    if end.sender.position == 11 {
        end.sender.position = 0;
        return end;
    }
    end.sender.position += 1;
    end
}

impl Good {
    // The end whose symbol goes out: at position 0 a frame is made.
    fn slot_of(self) -> End
        ensures { result ≡ slot_of self.end }
    {
        if self.end.sender.position == 0 {
            self.frame_start()
        } else {
            self.end
        }
    }

    // A frame is made, steps 1 to 4.
    fn frame_start(self) -> End
        ensures { result ≡ frame_start self.end }
    {
        let acknowledged = self.acked();
        self.step_one(acknowledged).steps_two_to_four(acknowledged)
    }

    // Step 1's test: the last accepted frame had Ack 1 and TogAck equal to the sending toggle.
    fn acked(self) -> bool
        ensures { result ≡ acked self.end }
    {
        self.end.heard.ack & (self.end.heard.togack == self.end.sender.toggle)
    }

    // Step 1, but for Valid, which stands in the frame.
    fn step_one(mut self, acknowledged: bool) -> Good
        ensures { result.end ≡ step_one acknowledged self.end }
    {
        if acknowledged {
            self.end.sender.toggle = self.end.outbox.toggle;
            self.end.sender.ready = true;
            self.end.outbox.received = true;
            self.end.outbox.confirmed = self.end.heard.togack;
        }
        self
    }

    // Steps 2 to 4: the frame, and where a message is loaded what becomes of pending, toggle and readiness.
    fn steps_two_to_four(self, acknowledged: bool) -> End
        ensures { result ≡ steps_two_to_four acknowledged (loads self.end) self.end }
    {
        let loading = self.loads();
        let bytes = self.ten_bytes(acknowledged, loading);
        let symbols = frame::build(bytes);
        let mut end = self.end;
        end.sender.symbols = symbols;
        end.sender.loaded = end.sender.health;
        // A way out, since going on to one for both costs 33 instructions in each slot.
        if loading {
            end.sender.ready = false;
            end.outbox.pending = false;
            end.outbox.toggle = !end.outbox.toggle;
            return end;
        }
        end
    }

    // Step 3's test: a message is pending and the sender is ready.
    fn loads(self) -> bool
        ensures { result ≡ loads self.end }
    {
        self.end.outbox.pending & self.end.sender.ready
    }

    // The ten data bytes of the frame.
    fn ten_bytes(self, acknowledged: bool, loading: bool) -> [u8; 10]
        ensures { result ≡ ten_bytes acknowledged loading self.end }
    {
        let zero = self.word_zero();
        let one = self.word_one(acknowledged, loading);
        let [a, b, c, d, e, f, g, h] = self.message_bytes(loading);
        [zero, one, a, b, c, d, e, f, g, h]
    }

    // Symbol 0's data: 7:4 zero, 3 the echo of the partner's PingTx, 2 PingTx, 1:0 health.
    fn word_zero(self) -> u8
        ensures { result ≡ word_zero self.end }
    {
        let health = u16::from(self.end.sender.health);
        (bit(self.end.heard.ping, 8) + bit(self.end.outbox.ping, 4) + health) as u8
    }

    // Symbol 1's data: 7 Valid, 6 Toggle, 5 Ack, 4 TogAck, 3:0 message number.
    fn word_one(self, acknowledged: bool, loading: bool) -> u8
        ensures { result ≡ word_one acknowledged loading self.end }
    {
        let valid = bit(self.is_valid(acknowledged, loading), 128);
        let toggle = bit(self.end.sender.toggle, 64);
        let ack = bit(self.end.inbox.acknowledge, 32);
        let togack = bit(self.end.inbox.toggle, 16);
        let number = u16::from(self.message_number(loading));
        (valid + toggle + ack + togack + number) as u8
    }

    // Valid: 1 where a message is loaded, 0 where one was acknowledged, else as it was.
    fn is_valid(self, acknowledged: bool, loading: bool) -> bool
        ensures { result ≡ cond loading true (cond acknowledged false (old_valid self.end)) }
    {
        if loading {
            true
        } else if acknowledged {
            false
        } else {
            self.end.sender.symbols[1] / 128 % 2 == 1
        }
    }

    // The message number: the loaded message's, else as it was.
    fn message_number(self, loading: bool) -> u8
        ensures value { result ≡ cond loading self.end.outbox.number (old_number self.end) }
        ensures upper_bound { result ≤ 15 }
    {
        if loading {
            self.end.outbox.number
        } else {
            (self.end.sender.symbols[1] % 16) as u8
        }
    }

    // The eight message bytes together: the loaded message's, else as they were.
    fn message_bytes(self, loading: bool) -> [u8; 8]
        ensures { result ≡ cond loading self.end.outbox.bytes (old_bytes self.end) }
    {
        if loading {
            self.end.outbox.bytes
        } else {
            message_of(self.end.sender.symbols)
        }
    }
}
