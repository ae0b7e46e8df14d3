#![tactic(auto)]
// Runs the samples that are not proved ones, and the edges, of the calls that list pairs or clades, of those on rows and of the
// plot call, and prints a line for each.
mod clade_samples;
mod listing_samples;
mod plot_samples;
mod row_samples;

use std::io;

fn main(rt: HostRuntime) -> io::Result<()> {
    listing_samples::graphs(&rt)?;
    clade_samples::supports(&rt)?;
    row_samples::rows(&rt)?;
    plot_samples::plots(&rt)?;
    listing_samples::sheets(&rt)
}
