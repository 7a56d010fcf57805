// The nightly program (document 01, "The nightly program"): reads a library from standard input and prints
// what is found of each block. It only reads, calls and prints what the proved functions return.

#![tactic(auto)]

use output::ending::give_verdict;
use pair::ways::Way;
use tally::Report;

fn main(rt: HostRuntime) {
    let mut from = rt.stdin();
    let mut to = rt.stdout();
    let mut input = io::large_buffer();
    let mut output = io::large_buffer();
    if printing::run(
        Report::Listing(Way::Unifying),
        &mut from,
        &mut to,
        &rt,
        &mut input,
        &mut output,
    ) {
        give_verdict(&rt);
    }
}
