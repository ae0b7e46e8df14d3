// The plot call for programs in C and Rust.
ghost use Rattle.std.specs.Prelude.{◌≡◌};
ghost use Rattle.plots.specs.PlotCall.{plot_call};
ghost use Rattle.plot_calls.specs.Paper.{plot_memory};
ghost use Rattle.replies.specs.Coded.{plot_coded};

use replies::{hand_back, reply_of};

/// Plot call: the numbers are how many nodes the tree has and 0.
#[unsafe(no_mangle)]
pub extern "C" fn norbelath_plot(
    text: &[u8],
    rows: &mut [f64],
    columns: &mut [u16],
    first: &mut u64,
    second: &mut u64,
) -> u8
    ensures { plot_coded result first.new second.new rows.new columns.new
        ≡ plot_call text.now (plot_memory rows.old columns.old) }
{
    hand_back(
        reply_of(plot_calls::plot_call(text, rows, columns)),
        first,
        second,
    )
}
