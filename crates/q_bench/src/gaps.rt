use crate::checksum;
use q_codel::gap;

/// The longest interval, in nanoseconds.
const MAX_INTERVAL: u64 = 1_000_000_000_000;

/// The gaps of an interval at so many counts from `first` on, so many times over.
#[unsafe(no_mangle)]
pub extern "C" fn q_bench_gap(interval: u64, first: u32, counts: u32, passes: u32) -> u64 {
    if interval > MAX_INTERVAL || first == 0 {
        return 0;
    }
    let mut sum = 0;
    for _ in 0..passes {
        for more in 0..counts {
            let count = first.saturating_add(more);
            sum = checksum::with(sum, gap(interval, count));
        }
    }
    sum
}
