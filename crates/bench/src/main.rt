// The bench: a console on two ends with their reporting hosts and the link between them, on the frame check and on the
// finder. It reads commands, one a line, and writes one line for each.
#![tactic(auto)]

mod session;

use benchreports::Hosts;
use consolecommands::link::{KEPT, Link};
use session::Bench;
use text::output::Output;

// How many symbols a list can have: more than a line can hold.
const LISTED: usize = 131072;

fn main(rt: HostRuntime) {
    let mut text = [0; console::HELD];
    let mut bytes = [0; console::GATHERED];
    let mut kept_a = [0; KEPT];
    let mut kept_b = [0; KEPT];
    let mut symbols = [0; LISTED];
    let mut out = Output {
        bytes: &mut bytes,
        at: 0,
    };
    let mut bench = Bench {
        link: Link::new(&mut kept_a, &mut kept_b),
        hosts: Hosts::fresh(),
        symbols: &mut symbols,
    };
    console::serve(rt.stdin(), rt.stdout(), &mut text, &mut out, &mut bench);
}
