// The census program of document 01: an image on standard input, its census on standard output. Its own run in the gate is
// document 01's example.
#![tactic(auto)]

fn main() {
    census_print::print_census(0);
}
