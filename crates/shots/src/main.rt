// The batch of shots: the eleven numbers of a shot on each line of standard input; its angles, or its refusal, on standard output.
#![tactic(auto)]

use replies::{Protocol, Question};

fn main(rt: HostRuntime) {
    stream::run(&rt, Protocol::Batch(Question::Shot));
}
