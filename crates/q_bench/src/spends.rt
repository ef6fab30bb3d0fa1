use crate::checksum;
use q_bucket::Bucket;
use q_packet::Moment;

/// The highest rate, in bits a second.
const MAX_RATE: u64 = 1_000_000_000_000;

/// Spends from a bucket, so many times over: each of `spends` is a length in its low 16 bits and, above them, so many nanoseconds after
/// the one before.
#[unsafe(no_mangle)]
pub extern "C" fn q_bench_spend(rate: u64, burst: u32, spends: &[u64], passes: u32) -> u64 {
    if rate == 0 || rate > MAX_RATE || burst == 0 {
        return 0;
    }
    let mut now = Moment::zero();
    let mut bucket = Bucket::new(rate, burst, now);
    let mut sum = 0;
    for _ in 0..passes {
        for spend in spends {
            let Some(next) = Moment::new(now.ns() + spend / 65536) else {
                return 0;
            };
            now = next;
            sum = checksum::with(sum, u64::from(bucket.spend(now, (spend % 65536) as u16)));
        }
    }
    sum
}
