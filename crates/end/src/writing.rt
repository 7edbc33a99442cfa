// Writing a register, and the health to send.
ghost use Rattle.std.specs.Prelude.{◌≡◌, ◌+◌, ◌<◌};
ghost use Rattle.end.specs.Registers.{write_control, write_bytes, write_of, health_of};

use crate::good::{Good, bad};
use crate::registers::Register;
use crate::{End, Next, Outbox};
use answer::Answer;

// Bits 14:12, 7:3 and 1:0 of 3.2308. A host that writes back what it read sets some of them, and is told so.
const READ_ONLY_BITS: u16 = 0x70FB;

impl End {
    // Stores a value in 3.2308 to 3.2312 unless it sets a read-only bit of 3.2308 or a pending message blocks it; 3.2313
    // to 3.2317 cannot be written.
    pub fn write(self, register: u16, value: u16) -> Next
        ensures { result ≡ write_of self register value }
    {
        let Some(good) = self.good() else {
            return Next {
                answer: Answer::BadEnd,
                end: self,
            };
        };
        let Some(name) = Register::named(register) else {
            return Next {
                answer: Answer::NoRegister,
                end: self,
            };
        };
        match name {
            Register::Control => good.to_control(value),
            Register::Message(i) => good.to_message(i, value),
            Register::Status | Register::Received(_) => Next {
                answer: Answer::ReadOnly,
                end: self,
            },
        }
    }

    // The health to send, from the next frame start on.
    pub fn set_health(mut self, health: u16) -> Next
        ensures { result ≡ health_of self health }
    {
        if bad(self) {
            return Next {
                answer: Answer::BadEnd,
                end: self,
            };
        }
        if health > 3 {
            return Next {
                answer: Answer::BadHealth,
                end: self,
            };
        }
        self.sender.health = health as u8;
        Next {
            answer: Answer::Done,
            end: self,
        }
    }
}

impl Good {
    // A write to 3.2308. A read-only bit is looked for before a pending message.
    fn to_control(self, value: u16) -> Next
        ensures { result ≡ write_of self.end 2308 value }
    {
        let mut end = self.end;
        if value & READ_ONLY_BITS != 0 {
            return Next {
                answer: Answer::ReadOnlyBits,
                end,
            };
        }
        let blocked = end.outbox.pending & (value / 32768 % 2 == 1);
        if blocked {
            return Next {
                answer: Answer::Blocked,
                end,
            };
        }
        end.outbox = write_control(end.outbox, value);
        Next {
            answer: Answer::Done,
            end,
        }
    }

    // A write to the i-th of 3.2309 to 3.2312.
    fn to_message(self, i: usize, value: u16) -> Next
        requires { i < 4 }
        ensures { result ≡ write_of self.end (2309 + i) value }
    {
        let mut end = self.end;
        if end.outbox.pending {
            return Next {
                answer: Answer::Blocked,
                end,
            };
        }
        end.outbox = write_bytes(end.outbox, i, value);
        Next {
            answer: Answer::Done,
            end,
        }
    }
}

// 3.2308: bit 15, number and PingTx are stored; while a message is pending only PingTx changes.
fn write_control(mut outbox: Outbox, value: u16) -> Outbox
    ensures { result ≡ write_control outbox value }
{
    outbox.ping = value / 4 % 2 == 1;
    if !outbox.pending {
        outbox.pending = value / 32768 % 2 == 1;
        outbox.number = (value / 256 % 16) as u8;
    }
    outbox
}

// 3.2309 to 3.2312: the even byte in 7:0, the odd one in 15:8.
fn write_bytes(mut outbox: Outbox, i: usize, value: u16) -> Outbox
    requires { i < 4 }
    ensures { result ≡ write_bytes outbox i value }
{
    let [even, odd] = value.to_le_bytes();
    outbox.bytes[2 * i] = even;
    outbox.bytes[2 * i + 1] = odd;
    outbox
}
