// Reading a register.
ghost use Rattle.std.specs.Prelude.{◌≡◌, ◌<◌};
ghost use Rattle.end.specs.Registers.{pair, control, status, read_of};

use crate::good::Good;
use crate::registers::Register;
use crate::{End, Read};
use answer::Answer;
use weights::bit;

impl End {
    // A register's value. Reading 3.2308 clears Received, after giving it; reading 3.2317 makes the receive register
    // empty.
    pub fn read(mut self, register: u16) -> Read
        ensures { result ≡ read_of self register }
    {
        let Some(good) = self.good() else {
            return Read {
                answer: Answer::BadEnd,
                value: 0,
                end: self,
            };
        };
        let Some(name) = Register::named(register) else {
            return Read {
                answer: Answer::NoRegister,
                value: 0,
                end: self,
            };
        };
        let value = match name {
            Register::Control => {
                self.outbox.received = false;
                good.control()
            }
            Register::Message(i) => pair(self.outbox.bytes, i),
            Register::Status => good.status(),
            Register::Received(i) => {
                self.inbox.full &= i < 3;
                pair(self.inbox.bytes, i)
            }
        };
        Read {
            answer: Answer::Done,
            value,
            end: self,
        }
    }
}

impl Good {
    // 3.2308: 15 pending, 14 register toggle, 13 Received, 12 received toggle, 11:8 number, 3 PingRx got, 2 PingTx, 1:0
    // health as loaded at the last frame start.
    fn control(self) -> u16
        ensures { result ≡ control self.end }
    {
        let end = self.end;
        bit(end.outbox.pending, 32768)
            + bit(end.outbox.toggle, 16384)
            + bit(end.outbox.received, 8192)
            + bit(end.outbox.confirmed, 4096)
            + 256 * u16::from(end.outbox.number)
            + bit(end.heard.got, 8)
            + bit(end.outbox.ping, 4)
            + u16::from(end.sender.loaded)
    }

    // 3.2313: 15 full, 14 toggle, 11:8 number, 1:0 partner health.
    fn status(self) -> u16
        ensures { result ≡ status self.end }
    {
        let end = self.end;
        bit(end.inbox.full, 32768)
            + bit(end.inbox.toggle, 16384)
            + 256 * u16::from(end.inbox.number)
            + u16::from(end.heard.health)
    }
}

// Two message bytes: the even byte in 7:0, the odd one in 15:8.
fn pair(bytes: [u8; 8], i: usize) -> u16
    requires { i < 4 }
    ensures { result ≡ pair bytes i }
{
    u16::from_le_bytes([bytes[2 * i], bytes[2 * i + 1]])
}
