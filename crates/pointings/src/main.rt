// The batch of pointings: on each line of standard input the eleven numbers of a shot and the horizontal angle, clockwise from the mark to the body in units of
// 0.0001 second of arc; the azimuth of the mark, or a refusal, on standard output.
#![tactic(auto)]

use replies::{Protocol, Question};

fn main(rt: HostRuntime) {
    stream::run(&rt, Protocol::Batch(Question::Pointing));
}
