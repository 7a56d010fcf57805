// The census of a library (document 02, R-7): reads a library from standard input, as the nightly program does, and prints
// for each block how many unifiers it has, without listing them, and last their total.

#![tactic(auto)]

use output::ending::give_verdict;
use tally::Report;

fn main(rt: HostRuntime) {
    let mut from = rt.stdin();
    let mut to = rt.stdout();
    let mut input = io::large_buffer();
    let mut output = io::large_buffer();
    if printing::run(
        Report::Census,
        &mut from,
        &mut to,
        &rt,
        &mut input,
        &mut output,
    ) {
        give_verdict(&rt);
    }
}
