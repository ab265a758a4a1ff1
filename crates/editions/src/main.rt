// The batch of instants by both editions of the Sun's series: fields 1 to 7 and 11 of the card on each line of standard input; the two
// apparent longitudes, how far they are apart and the bound of that, in units of 0.0001 second of arc, or a refusal, on standard output.
#![tactic(auto)]

use replies::{Protocol, Question};

fn main(rt: HostRuntime) {
    stream::run(&rt, Protocol::Batch(Question::Editions));
}
