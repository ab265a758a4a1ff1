// The session program: a surveyor's lines on standard input, from a fresh card; one line of answer for each on standard output.
#![tactic(auto)]

use replies::Protocol;

fn main(rt: HostRuntime) {
    stream::run(&rt, Protocol::Session);
}
