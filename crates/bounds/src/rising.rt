// The bound of one flow, from what it reads of the flows above it: for each its figure, the interference; its period; and its carry-in,
// how long one of its instances may be carried into the window.
ghost use Rattle.std.specs.Prelude.{◌≡◌, ℕ, ◌*◌, ◌≤◌, ◌<◌, get_or};
ghost use Rattle.trade.specs.Limits.{most_flows, most_period, most_steps};
ghost use Rattle.trade.specs.Bound.{instances};
ghost use Rattle.bounds.specs.Terms.{Terms, needed_in, least_in, smallest_in};

use trade::Flow;

// How many instances of a flow above may act within r slots: ceil((r + carry - 1) / period). It seldom takes a division to tell.
fn instances(r: u32, carry: u32, period: u32) -> u32
    requires { (1 ≤ r) × (r ≤ most_period) × (1 ≤ carry) × (carry ≤ most_period) × (1 ≤ period) × (period ≤ most_period) }
    ensures { (result ≡ instances r carry period) × (result ≤ 2 * most_period) }
{
    let reach = r + carry - 1;
    if reach <= period {
        return 1;
    }
    if reach <= 2 * period {
        return 2;
    }
    reach.div_ceil(period)
}

// The slots that a flow needs within r slots: its own, and for each flow above it the instances of that flow, times its figure.
fn slots_needed(
    len: u32,
    above: usize,
    figures: &[u32; Flow::MOST],
    periods: &[u16; Flow::MOST],
    carries: &[u16; Flow::MOST],
    r: u32,
) -> u32
    requires { Terms above figures.now periods.now carries.now × (len ≤ most_steps) × (1 ≤ r) × (r ≤ most_period) }
    ensures { result ≡ needed_in len above figures.now periods.now carries.now r }
{
    let mut sum = len;
    for h in 0..above {
        sum += instances(r, carries[h] as u32, periods[h] as u32) * figures[h];
    }
    sum
}

// The slots that a flow needs at the least: its own, and one instance of each flow above it.
fn least_needed(len: u32, above: usize, figures: &[u32; Flow::MOST]) -> u32
    requires { (above ≤ most_flows) × (len ≤ most_steps) × ((h : ℕ) → h < above → get_or figures.now h 0 ≤ 255) }
    ensures { result ≡ least_in len above figures.now }
{
    len + figures[..above].iter().sum::<u32>()
}

// The smallest r from the plan's length to the deadline that is at least the slots needed within it; deadline + 1 where there is none, as
// `bound_by` says it.
// What is needed grows with r, so no r below what an r needs will do, and the search goes on from there: so it is no count over a range.
pub(crate) fn smallest(
    len: u32,
    deadline: u32,
    above: usize,
    figures: &[u32; Flow::MOST],
    periods: &[u16; Flow::MOST],
    carries: &[u16; Flow::MOST],
) -> u32
    requires { Terms above figures.now periods.now carries.now × (1 ≤ len) × (len ≤ most_steps) × (deadline ≤ most_period) }
    ensures { result ≡ smallest_in (needed_in len above figures.now periods.now carries.now) len deadline }
{
    let mut r = least_needed(len, above, figures);
    while r <= deadline {
        let needed = slots_needed(len, above, figures, periods, carries, r);
        if needed <= r {
            return r;
        }
        r = needed;
    }
    deadline + 1
}
