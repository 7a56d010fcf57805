// The matches of a library (document 02, R-4): reads a library from standard input, as the nightly program does, and
// prints for each block the matches of its left pattern against its right one, a fixed subject, in the nightly
// program's form.

#![tactic(auto)]

use output::ending::give_verdict;
use pair::ways::Way;
use tally::Report;

fn main(rt: HostRuntime) {
    let mut from = rt.stdin();
    let mut to = rt.stdout();
    let mut input = io::large_buffer();
    let mut output = io::large_buffer();
    if printing::run(
        Report::Listing(Way::Matching),
        &mut from,
        &mut to,
        &rt,
        &mut input,
        &mut output,
    ) {
        give_verdict(&rt);
    }
}
