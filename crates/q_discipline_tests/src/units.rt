//! What words with units are read as: rates in bits a second, sizes in bytes and times in nanoseconds.
use q_words::{Wrong, read_rate, read_size, read_time};

// A word, and what it is read as.
type Row = (&'static str, Result<u64, Wrong>);

const RATES: &[Row] = &[
    ("1.5mbps", Ok(12_000_000)),
    ("8000bit", Ok(8000)),
    ("1", Ok(1)),
    ("0.5mbit", Ok(500_000)),
    ("1KBit", Ok(1000)),
    ("1gbit", Ok(1_000_000_000)),
    ("1tbit", Ok(1_000_000_000_000)),
    ("1bps", Ok(8)),
    ("1kbps", Ok(8000)),
    ("1gbps", Ok(8_000_000_000)),
    ("0.125tbps", Ok(1_000_000_000_000)),
    ("1.000000001tbit", Err(Wrong::OutOfRange)),
    ("0.5bit", Err(Wrong::OutOfRange)),
    ("0.0000000001mbit", Err(Wrong::BadNumber)),
    ("1 mbit", Err(Wrong::BadNumber)),
    ("mbit", Err(Wrong::BadNumber)),
];

const SIZES: &[Row] = &[
    ("1.5kb", Ok(1536)),
    ("32kbit", Ok(4096)),
    ("5k", Ok(5120)),
    ("7", Ok(7)),
    ("7b", Ok(7)),
    ("1m", Ok(1_048_576)),
    ("1MB", Ok(1_048_576)),
    ("1g", Ok(1_073_741_824)),
    ("1gb", Ok(1_073_741_824)),
    ("1mbit", Ok(131_072)),
    ("1gbit", Ok(134_217_728)),
    ("0.999b", Ok(0)),
    ("1kbps", Err(Wrong::BadNumber)),
];

const TIMES: &[Row] = &[
    ("0.5", Ok(500)),
    ("1us", Ok(1000)),
    ("2usec", Ok(2000)),
    ("3usecs", Ok(3000)),
    ("70ms", Ok(70_000_000)),
    ("1msec", Ok(1_000_000)),
    ("1msecs", Ok(1_000_000)),
    ("1s", Ok(1_000_000_000)),
    ("2sec", Ok(2_000_000_000)),
    ("1.000000001secs", Ok(1_000_000_001)),
    ("1ns", Err(Wrong::BadNumber)),
];

fn is_read(read: Result<u64, Wrong>, wanted: Result<u64, Wrong>) -> bool {
    read == wanted
}

#[test]
fn words_with_units_are_read(rt: HostRuntime) {
    for (word, rate) in RATES {
        assert!(rt; is_read(read_rate(word.as_bytes()), *rate), "{word}");
    }
    for (word, size) in SIZES {
        assert!(rt; is_read(read_size(word.as_bytes()), *size), "{word}");
    }
    for (word, time) in TIMES {
        assert!(rt; is_read(read_time(word.as_bytes()), *time), "{word}");
    }
}
