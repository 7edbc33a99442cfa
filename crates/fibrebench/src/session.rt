// A line's answer.
use console::Session;
use consolecommands::command::Ends;
use consolecommands::link::Link;
use consolecommands::{Side, command};
use fibrelines::Fibre;
use text::output::Output;
use text::words::first_word;

// What the console works on.
#[derive(Drop)]
pub struct Bench<'a> {
    pub link: Link<'a, Fibre>,
}

impl Session for Bench<'_> {
    fn answer(&mut self, line: &[u8], out: &mut Output) {
        if let Some((word, rest)) = first_word(line) {
            command::perform(self, word, rest, out);
        }
    }
}

impl Ends for Bench<'_> {
    fn restart(&mut self, to_b: u16, to_a: u16) {
        self.link.restart(to_b, to_a);
    }

    fn slots(&mut self, count: u16) -> u64 {
        self.link.slots(count)
    }

    fn mark(&mut self, side: Side, count: u16) {
        self.link.mark(side, count);
    }

    fn on_end(&mut self, side: Side, rest: &[u8], out: &mut Output) {
        let end = fibreends::answered(self.link.end_of(side), rest, out);
        self.link.set_end(side, end);
    }
}
