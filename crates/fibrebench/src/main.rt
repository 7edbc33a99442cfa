// The bench of the gigabit fibre channel: a console on two ends and the lines between them. It reads commands, one a
// line, and writes one line for each.
#![tactic(auto)]

mod session;

use fibrefields::block::Signal;
use fibrelines::KEPT;
use session::Bench;
use text::output::Output;

fn main(rt: HostRuntime) {
    let mut text = [0; console::HELD];
    let mut bytes = [0; console::GATHERED];
    let mut to_a = [Signal::default(); KEPT];
    let mut to_b = [Signal::default(); KEPT];
    let mut out = Output {
        bytes: &mut bytes,
        at: 0,
    };
    let mut bench = Bench {
        link: fibrelines::joined(&mut to_a, &mut to_b),
    };
    console::serve(rt.stdin(), rt.stdout(), &mut text, &mut out, &mut bench);
}
