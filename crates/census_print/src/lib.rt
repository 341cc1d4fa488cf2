// The census of what a descriptor gives, written to standard output: the whole of the program `census`, as a function, so that its
// samples run through the same code. It reads one byte more than an image may have, so that a longer one is seen to be longer.
#![tactic(auto)]

ghost use Rattle.census_print.specs.Run.{SomeCensus};

use census_text::CensusText;

// The census of what `input` gives, after it was written.
pub fn print_census(input: i32) -> CensusText
    ensures { SomeCensus result }
{
    let mut image = [0; 61441];
    let n = io::read_full(input, &mut image);
    let text = census_text::census_text(&image[..n]);
    io::write_all(1, text.as_slice());
    text
}
