// The reporting hosts of the bench, request #110: one beside each end, and what is asked of it, done and printed.
#![tactic(auto)]

mod lines;

ghost use Rattle.std.specs.Prelude.{◌++◌, ◌≡◌, length};
ghost use Rattle.benchreports.specs.Called.{after_offer, after_push, after_pull, listed, offered_by};
ghost use Rattle.benchreports.specs.Called.{end_after, host_after};
ghost use Rattle.benchreports.specs.Printed.{Prints, PrintsOffer};
ghost use Rattle.benchreports.specs.Told.{answer_line, push_line, pull_line, report_line};
ghost use Rattle.console.specs.Ready.{Room};
ghost use Rattle.consolecommands.specs.Commands.{at_side};
ghost use Rattle.report.specs.Sending.{fresh_sending, offer_of, push_of};
ghost use Rattle.report.specs.Taking.{fresh_taking, pull_of};
ghost use Rattle.text.specs.Written.{Kept, written};

use benchcommands::bytes::bytes_of;
use benchcommands::call::HostCall;
use consolecommands::Side;
use end::End;
use report::{SendingHost, TakingHost};
use text::lists::read;
use text::output::Output;

// The largest number of a block's list.
const BYTE: u64 = 255;

// The reporting host of an end, its sending side and its taking side.
#[derive(Clone, Copy)]
pub struct Host {
    pub sending: SendingHost,
    pub taking: TakingHost,
}

// The reporting hosts of both ends. They stand beside the link, not in it: a slot leaves them alone.
#[derive(Clone, Copy)]
pub struct Hosts {
    pub a: Host,
    pub b: Host,
}

// An end and its reporting host after a line.
#[derive(Clone, Copy)]
pub struct Called {
    pub end: End,
    pub host: Host,
}

impl Hosts {
    // Both hosts fresh: no block is under way, and the part blocks have nothing in them.
    pub fn fresh() -> Hosts
        ensures sending { (result.a.sending ≡ fresh_sending) × (result.b.sending ≡ fresh_sending) }
        ensures taking { (result.a.taking ≡ fresh_taking) × (result.b.taking ≡ fresh_taking) }
    {
        let host = Host {
            sending: SendingHost::fresh(),
            taking: TakingHost::fresh(),
        };
        Hosts { a: host, b: host }
    }

    // The host of a side.
    pub fn get(&self, side: Side) -> Host
        ensures { result ≡ at_side side self.now.a self.now.b }
    {
        match side {
            Side::A => self.a,
            Side::B => self.b,
        }
    }

    // Another host in a side's place.
    pub fn set(&mut self, side: Side, host: Host)
        ensures a { self.new.a ≡ at_side side host self.old.a }
        ensures b { self.new.b ≡ at_side side self.old.b host }
    {
        match side {
            Side::A => self.a = host,
            Side::B => self.b = host,
        }
    }
}

// A call on an end's reporting host, and its line. Behind the call's word stands the rest of a line.
pub fn call_on(
    end: End,
    host: Host,
    call: HostCall,
    rest: &[u8],
    symbols: &mut [u16],
    out: &mut Output,
) -> Called
    requires { Room out.old }
    ensures end_value { result.end ≡ end_after call host end }
    ensures host_value { result.host ≡ host_after call host end (listed (length symbols.old) rest.now) }
    ensures kept { Kept out.old out.new }
    ensures printed { Prints call host end (listed (length symbols.old) rest.now)
        (written out.old) (written out.new) }
{
    match call {
        HostCall::Offer => Called {
            end,
            host: offer(host, rest, symbols, out),
        },
        HostCall::Push => push(end, host, out),
        HostCall::Pull => pull(end, host, out),
        HostCall::Report => {
            report(host, out);
            Called { end, host }
        }
    }
}

// A block is offered. Nothing is asked of the end.
fn offer(host: Host, rest: &[u8], symbols: &mut [u16], out: &mut Output) -> Host
    requires { Room out.old }
    ensures value { result ≡ offered_by host (listed (length symbols.old) rest.now) }
    ensures kept { Kept out.old out.new }
    ensures printed { PrintsOffer host (listed (length symbols.old) rest.now)
        (written out.old) (written out.new) }
{
    match read(rest, BYTE, symbols) {
        Err(fault) => {
            out.fault(fault);
            host
        }
        Ok(count) => match bytes_of(&symbols[..count]) {
            Some(block) => offered(host, block, out),
            None => {
                lines::miscounted(count, out);
                host
            }
        },
    }
}

// The sending side has the block under way, unless it has another one already.
fn offered(host: Host, block: [u8; 128], out: &mut Output) -> Host
    requires { Room out.old }
    ensures value { result ≡ after_offer host block }
    ensures kept { Kept out.old out.new }
    ensures written { written out.new
        ≡ written out.old ++ answer_line (offer_of host.sending block).answer }
{
    let offered = host.sending.offer(block);
    lines::answered(offered.answer, out);
    Host {
        sending: offered.host,
        ..host
    }
}

// The sending side's step.
fn push(end: End, host: Host, out: &mut Output) -> Called
    requires { Room out.old }
    ensures end_value { result.end ≡ (push_of host.sending end).end }
    ensures host_value { result.host ≡ after_push host end }
    ensures kept { Kept out.old out.new }
    ensures written { written out.new
        ≡ written out.old ++ push_line (push_of host.sending end).what }
{
    let pushed = host.sending.push(end);
    lines::pushed(pushed.what, out);
    Called {
        end: pushed.end,
        host: Host {
            sending: pushed.host,
            ..host
        },
    }
}

// The taking side's step.
fn pull(end: End, host: Host, out: &mut Output) -> Called
    requires { Room out.old }
    ensures end_value { result.end ≡ (pull_of host.taking end).end }
    ensures host_value { result.host ≡ after_pull host end }
    ensures kept { Kept out.old out.new }
    ensures written { written out.new
        ≡ written out.old
        ++ pull_line (pull_of host.taking end).what (pull_of host.taking end).block }
{
    let pulled = host.taking.pull(end);
    lines::pulled(pulled.what, pulled.block, out);
    Called {
        end: pulled.end,
        host: Host {
            taking: pulled.host,
            ..host
        },
    }
}

// What the host has.
fn report(host: Host, out: &mut Output)
    requires { Room out.old }
    ensures kept { Kept out.old out.new }
    ensures written { written out.new
        ≡ written out.old ++ report_line host.sending.next host.taking.turn host.taking.block }
{
    lines::reported(host.sending.next, host.taking.turn, host.taking.block, out);
}
