// The bench, and what it does with a line.
use benchcommands::call;
use benchcommands::call::Asked;
use benchcommands::lists::ListCommand;
use benchlink::Copper;
use benchreports::Hosts;
use console::Session;
use consolecommands::command::Ends;
use consolecommands::link::Link;
use consolecommands::{Side, command};
use text::output::Output;
use text::words::first_word;

// The link, the reporting hosts of its ends, and where a list is read to.
#[derive(Drop)]
pub struct Bench<'a> {
    pub link: Link<'a, Copper>,
    pub hosts: Hosts,
    pub symbols: &'a mut [u16],
}

impl Session for Bench<'_> {
    fn answer(&mut self, line: &[u8], out: &mut Output) {
        if let Some((word, rest)) = first_word(line) {
            match ListCommand::named(word) {
                Some(command) => benchlists::answered(command, rest, self.symbols, out),
                None => command::perform(self, word, rest, out),
            }
        }
    }
}

impl Ends for Bench<'_> {
    // The reporting hosts are fresh too.
    fn restart(&mut self, to_b: u16, to_a: u16) {
        self.link.restart(to_b, to_a);
        self.hosts = Hosts::fresh();
    }

    fn slots(&mut self, count: u16) -> u64 {
        self.link.slots(count)
    }

    fn mark(&mut self, side: Side, count: u16) {
        self.link.mark(side, count);
    }

    // What is asked is a call on the end, on its fields or on its reporting host.
    fn on_end(&mut self, side: Side, rest: &[u8], out: &mut Output) {
        let end = self.link.end_of(side);
        match call::on(rest) {
            Err(fault) => out.fault(fault),
            Ok(Asked::Call(call)) => self.link.set_end(side, benchends::call_on(end, call, out)),
            Ok(Asked::Dump) => benchfields::dumped(end, out),
            Ok(Asked::Set(setting)) => {
                self.link.set_end(side, benchfields::written(end, setting));
                out.text(b"ok\n");
            }
            Ok(Asked::Host(call, rest)) => {
                let host = self.hosts.get(side);
                let called = benchreports::call_on(end, host, call, rest, self.symbols, out);
                self.link.set_end(side, called.end);
                self.hosts.set(side, called.host);
            }
        }
    }
}
