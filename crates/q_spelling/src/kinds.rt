//! The kind of a qdisc, and its options.
ghost use Rattle.std.specs.Prelude.{◌≡◌, ◌≤◌, ◌++◌, decimal, length, map};
ghost use Rattle.q_line.specs.Spelling.{ecn_words, fq_codel_words, kind_words, tbf_limit_words};
ghost use Rattle.q_model.specs.declared.kind.Kind.TheVariants as kind;
ghost use Rattle.q_show.specs.Lengths.{GrowsBy, HasRoom};
ghost use Rattle.q_spelling.specs.Lengths.{most_bands, most_ecn, most_fq_codel, most_kind, most_prio, most_tbf, most_time};
ghost use Rattle.q_spelling.specs.Words.{spaced};

use crate::options::{
    put_bytes, put_given, put_given_bytes, put_given_time, put_number, put_rate, put_time,
};
use q_model::{Burst, FqCodelOptions, Kind, PrioOptions, Rate, TbfLimit};
use q_show::Text;

/// A kind with its options.
pub fn put_kind(text: &mut Text, kind: &Kind)
    requires { HasRoom text.old most_kind }
    ensures text { text.new ≡ text.old ++ spaced (kind_words kind.now) }
    ensures short { GrowsBy text.old text.new most_kind }
{
    match kind {
        Kind::Pfifo { limit } => {
            text.put(b" pfifo");
            put_given(text, b"limit", *limit);
        }
        Kind::Bfifo { limit } => {
            text.put(b" bfifo");
            put_given_bytes(text, b"limit", *limit);
        }
        Kind::Prio(options) => put_prio(text, options),
        Kind::Tbf { rate, burst, limit } => put_tbf(text, *rate, *burst, *limit),
        Kind::Drr => text.put(b" drr"),
        Kind::FqCodel(options) => put_fq_codel(text, options),
    }
}

/// A prio.
fn put_prio(text: &mut Text, options: &PrioOptions)
    requires { HasRoom text.old most_prio }
    ensures text { text.new ≡ text.old ++ spaced (kind_words (kind.Prio options.now)) }
    ensures short { GrowsBy text.old text.new most_prio }
{
    text.put(b" prio");
    put_number(text, b"bands", u64::from(options.bands));
    text.put(b" priomap");
    put_bands(text, &options.priomap);
}

/// The bands of the priorities.
fn put_bands(text: &mut Text, priomap: &[u8; 16])
    requires { HasRoom text.old most_bands }
    ensures text { text.new ≡ text.old ++ spaced (map decimal priomap.now) }
    ensures short { GrowsBy text.old text.new most_bands }
{
    for band in priomap {
        text.put(b" ");
        text.put_number(u64::from(*band));
    }
}

/// A tbf.
fn put_tbf(text: &mut Text, rate: Rate, burst: Burst, limit: TbfLimit)
    requires { HasRoom text.old most_tbf }
    ensures text { text.new ≡ text.old ++ spaced (kind_words (kind.Tbf rate burst limit)) }
    ensures short { GrowsBy text.old text.new most_tbf }
{
    text.put(b" tbf");
    put_rate(text, b"rate", rate.bits());
    put_bytes(text, b"burst", burst.bytes());
    put_tbf_limit(text, limit);
}

/// How much a tbf holds.
fn put_tbf_limit(text: &mut Text, limit: TbfLimit)
    requires { HasRoom text.old most_time }
    ensures text { text.new ≡ text.old ++ spaced (tbf_limit_words limit) }
    ensures short { GrowsBy text.old text.new most_time }
{
    match limit {
        TbfLimit::Bytes(bytes) => put_bytes(text, b"limit", bytes),
        TbfLimit::Latency(latency) => put_time(text, b"latency", latency.nanoseconds()),
    }
}

/// An fq_codel.
fn put_fq_codel(text: &mut Text, options: &FqCodelOptions)
    requires { HasRoom text.old most_fq_codel }
    ensures text { text.new ≡ text.old ++ spaced (kind_words (kind.FqCodel options.now)) }
    ensures short { GrowsBy text.old text.new most_fq_codel }
{
    text.put(b" fq_codel");
    put_given(text, b"limit", options.limit);
    put_given(text, b"flows", options.flows);
    put_given_bytes(text, b"quantum", options.quantum);
    put_given_time(text, b"target", options.target);
    put_given_time(text, b"interval", options.interval);
    put_ecn(text, options.ecn);
    put_given(text, b"drop_batch", options.drop_batch);
}

/// Whether an fq_codel marks packets, where that is given.
fn put_ecn(text: &mut Text, ecn: Option<bool>)
    requires { HasRoom text.old most_ecn }
    ensures text { text.new ≡ text.old ++ spaced (ecn_words ecn) }
    ensures short { GrowsBy text.old text.new most_ecn }
{
    match ecn {
        Some(true) => text.put(b" ecn"),
        Some(false) => text.put(b" noecn"),
        None => {}
    }
}
