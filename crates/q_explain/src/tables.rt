//! The words that may be at each place, with their values.
use crate::table_entry::TableEntry;
use crate::value::Value;
use crate::word_place::WordPlace;

const MOST: &str = "0 to 4294967295";

const PRIO: Value = Value::Number("1 to 65535");

const PORT: Value = Value::Number("0 to 65535");

const LEN: Value = Value::Number("1 to 65535");

const LEN_AND_HEX: &[Value] = &[LEN, Value::Hex];

const BANDS: &[Value] = &[Value::Band; 16];

const FIRST: &[TableEntry] = &[
    TableEntry(
        "at",
        &[Value::Number("0 to 4611686018427387904")],
        WordPlace::End,
    ),
    TableEntry("pkt", &[LEN], WordPlace::Packet),
    TableEntry("frame", LEN_AND_HEX, WordPlace::End),
    TableEntry("poll", &[], WordPlace::Poll),
    TableEntry("reap", &[], WordPlace::End),
    TableEntry("totals", &[], WordPlace::End),
    TableEntry("tc", &[], WordPlace::Tc),
];

const TC: &[TableEntry] = &[
    TableEntry("-s", &[], WordPlace::TcCounters),
    TableEntry("qdisc", &[], WordPlace::Qdisc),
    TableEntry("class", &[], WordPlace::Class),
    TableEntry("filter", &[], WordPlace::Filter),
];

const TC_COUNTERS: &[TableEntry] = &[
    TableEntry("qdisc", &[], WordPlace::Qdisc),
    TableEntry("class", &[], WordPlace::Class),
    TableEntry("filter", &[], WordPlace::Filter),
];

const QDISC: &[TableEntry] = &[
    TableEntry("add", &[], WordPlace::QdiscAdd),
    TableEntry("change", &[], WordPlace::QdiscChange),
    TableEntry("del", &[], WordPlace::QdiscDel),
    TableEntry("delete", &[], WordPlace::QdiscDel),
    TableEntry("show", &[], WordPlace::Show),
    TableEntry("list", &[], WordPlace::Show),
    TableEntry("ls", &[], WordPlace::Show),
];

const CLASS_VERBS: &[TableEntry] = &[
    TableEntry("add", &[], WordPlace::ClassAdd),
    TableEntry("change", &[], WordPlace::ClassChange),
    TableEntry("del", &[], WordPlace::ClassDel),
    TableEntry("delete", &[], WordPlace::ClassDel),
    TableEntry("show", &[], WordPlace::Show),
    TableEntry("list", &[], WordPlace::Show),
    TableEntry("ls", &[], WordPlace::Show),
];

const FILTER: &[TableEntry] = &[
    TableEntry("add", &[], WordPlace::FilterAdd),
    TableEntry("del", &[], WordPlace::FilterDel),
    TableEntry("delete", &[], WordPlace::FilterDel),
    TableEntry("show", &[], WordPlace::Show),
    TableEntry("list", &[], WordPlace::Show),
    TableEntry("ls", &[], WordPlace::Show),
];

const QDISC_ADD: &[TableEntry] = &[
    TableEntry("dev", &[Value::Name], WordPlace::QdiscAdd),
    TableEntry("root", &[], WordPlace::QdiscAdd),
    TableEntry("parent", &[Value::Class], WordPlace::QdiscAdd),
    TableEntry("handle", &[Value::Handle], WordPlace::QdiscAdd),
    TableEntry("pfifo", &[], WordPlace::Pfifo),
    TableEntry("bfifo", &[], WordPlace::Bfifo),
    TableEntry("prio", &[], WordPlace::Prio),
    TableEntry("tbf", &[], WordPlace::Tbf),
    TableEntry("drr", &[], WordPlace::Drr),
    TableEntry("fq_codel", &[], WordPlace::FqCodel),
];

const QDISC_CHANGE: &[TableEntry] = &[
    TableEntry("dev", &[Value::Name], WordPlace::QdiscChange),
    TableEntry("root", &[], WordPlace::QdiscChange),
    TableEntry("parent", &[Value::Class], WordPlace::QdiscChange),
    TableEntry("handle", &[Value::Handle], WordPlace::QdiscChange),
    TableEntry("pfifo", &[], WordPlace::Pfifo),
    TableEntry("bfifo", &[], WordPlace::Bfifo),
    TableEntry("prio", &[], WordPlace::Prio),
    TableEntry("tbf", &[], WordPlace::Tbf),
    TableEntry("drr", &[], WordPlace::Drr),
    TableEntry("fq_codel", &[], WordPlace::FqCodel),
];

const QDISC_DEL: &[TableEntry] = &[
    TableEntry("dev", &[Value::Name], WordPlace::QdiscDel),
    TableEntry("root", &[], WordPlace::QdiscDel),
    TableEntry("parent", &[Value::Class], WordPlace::QdiscDel),
    TableEntry("handle", &[Value::Handle], WordPlace::QdiscDel),
    TableEntry("pfifo", &[], WordPlace::End),
    TableEntry("bfifo", &[], WordPlace::End),
    TableEntry("prio", &[], WordPlace::End),
    TableEntry("tbf", &[], WordPlace::End),
    TableEntry("drr", &[], WordPlace::End),
    TableEntry("fq_codel", &[], WordPlace::End),
];

const CLASS_ADD: &[TableEntry] = &[
    TableEntry("dev", &[Value::Name], WordPlace::ClassAdd),
    TableEntry("parent", &[Value::Handle], WordPlace::ClassAdd),
    TableEntry("classid", &[Value::Class], WordPlace::ClassAdd),
    TableEntry("drr", &[], WordPlace::DrrClass),
];

const CLASS_CHANGE: &[TableEntry] = &[
    TableEntry("dev", &[Value::Name], WordPlace::ClassChange),
    TableEntry("parent", &[Value::Handle], WordPlace::ClassChange),
    TableEntry("classid", &[Value::Class], WordPlace::ClassChange),
    TableEntry("drr", &[], WordPlace::DrrClass),
];

const CLASS_DEL: &[TableEntry] = &[
    TableEntry("dev", &[Value::Name], WordPlace::ClassDel),
    TableEntry("parent", &[Value::Handle], WordPlace::ClassDel),
    TableEntry("classid", &[Value::Class], WordPlace::ClassDel),
];

const FILTER_ADD: &[TableEntry] = &[
    TableEntry("dev", &[Value::Name], WordPlace::FilterAdd),
    TableEntry("parent", &[Value::Handle], WordPlace::FilterAdd),
    TableEntry("prio", &[PRIO], WordPlace::FilterAdd),
    TableEntry("pref", &[PRIO], WordPlace::FilterAdd),
    TableEntry("protocol", &[Value::Protocol], WordPlace::FilterAdd),
    TableEntry("flower", &[], WordPlace::Flower),
];

const FILTER_DEL: &[TableEntry] = &[
    TableEntry("dev", &[Value::Name], WordPlace::FilterDel),
    TableEntry("parent", &[Value::Handle], WordPlace::FilterDel),
    TableEntry("prio", &[PRIO], WordPlace::FilterDel),
    TableEntry("pref", &[PRIO], WordPlace::FilterDel),
    TableEntry("protocol", &[Value::Protocol], WordPlace::FilterDel),
    TableEntry("flower", &[], WordPlace::End),
];

const SHOW: &[TableEntry] = &[TableEntry("dev", &[Value::Name], WordPlace::Show)];

const PFIFO: &[TableEntry] = &[TableEntry("limit", &[Value::Number(MOST)], WordPlace::Pfifo)];

const BFIFO: &[TableEntry] = &[TableEntry("limit", &[Value::Size(MOST)], WordPlace::Bfifo)];

const PRIO_OPTIONS: &[TableEntry] = &[
    TableEntry("bands", &[Value::Number("2 to 16")], WordPlace::Prio),
    TableEntry("priomap", BANDS, WordPlace::Prio),
];

const TBF: &[TableEntry] = &[
    TableEntry("rate", &[Value::Rate], WordPlace::Tbf),
    TableEntry("burst", &[Value::Size("1 to 4294967295")], WordPlace::Tbf),
    TableEntry("buffer", &[Value::Size("1 to 4294967295")], WordPlace::Tbf),
    TableEntry(
        "maxburst",
        &[Value::Size("1 to 4294967295")],
        WordPlace::Tbf,
    ),
    TableEntry("limit", &[Value::Size(MOST)], WordPlace::Tbf),
    TableEntry("latency", &[Value::Time("0 to 1000s")], WordPlace::Tbf),
];

const FQ_CODEL: &[TableEntry] = &[
    TableEntry(
        "limit",
        &[Value::Number("1 to 4294967295")],
        WordPlace::FqCodel,
    ),
    TableEntry("flows", &[Value::Number("1 to 65536")], WordPlace::FqCodel),
    TableEntry(
        "quantum",
        &[Value::Size("1 to 4294967295")],
        WordPlace::FqCodel,
    ),
    TableEntry("target", &[Value::Time("0 to 1000s")], WordPlace::FqCodel),
    TableEntry(
        "interval",
        &[Value::Time("1us to 1000s")],
        WordPlace::FqCodel,
    ),
    TableEntry(
        "drop_batch",
        &[Value::Number("1 to 65536")],
        WordPlace::FqCodel,
    ),
    TableEntry("ecn", &[], WordPlace::FqCodel),
    TableEntry("noecn", &[], WordPlace::FqCodel),
];

const DRR_CLASS: &[TableEntry] = &[TableEntry(
    "quantum",
    &[Value::Size("1 to 4294967295")],
    WordPlace::DrrClass,
)];

const FLOWER: &[TableEntry] = &[
    TableEntry("ip_proto", &[Value::IpProto], WordPlace::Flower),
    TableEntry("src_ip", &[Value::Prefix], WordPlace::Flower),
    TableEntry("dst_ip", &[Value::Prefix], WordPlace::Flower),
    TableEntry("src_port", &[PORT], WordPlace::Flower),
    TableEntry("dst_port", &[PORT], WordPlace::Flower),
    TableEntry("classid", &[Value::Class], WordPlace::Flower),
    TableEntry("flowid", &[Value::Class], WordPlace::Flower),
];

const PACKET: &[TableEntry] = &[
    TableEntry("hash", &[Value::Number(MOST)], WordPlace::Packet),
    TableEntry("prio", &[Value::Number("0 to 15")], WordPlace::Packet),
    TableEntry("ip_proto", &[Value::IpProto], WordPlace::Packet),
    TableEntry("src_ip", &[Value::Address], WordPlace::Packet),
    TableEntry("dst_ip", &[Value::Address], WordPlace::Packet),
    TableEntry("src_port", &[PORT], WordPlace::Packet),
    TableEntry("dst_port", &[PORT], WordPlace::Packet),
    TableEntry("ecn", &[Value::Number("0 to 3")], WordPlace::Packet),
];

/// How many polls a line may ask for: the number comes after `poll`, without a word of its own.
pub const POLLS: Value = Value::Number("1 to 100000");

/// The words that may be at a place.
pub fn entries(place: WordPlace) -> &'static [TableEntry] {
    match place {
        WordPlace::First => FIRST,
        WordPlace::Tc => TC,
        WordPlace::TcCounters => TC_COUNTERS,
        WordPlace::Qdisc => QDISC,
        WordPlace::Class => CLASS_VERBS,
        WordPlace::Filter => FILTER,
        WordPlace::QdiscAdd => QDISC_ADD,
        WordPlace::QdiscChange => QDISC_CHANGE,
        WordPlace::QdiscDel => QDISC_DEL,
        WordPlace::ClassAdd => CLASS_ADD,
        WordPlace::ClassChange => CLASS_CHANGE,
        WordPlace::ClassDel => CLASS_DEL,
        WordPlace::FilterAdd => FILTER_ADD,
        WordPlace::FilterDel => FILTER_DEL,
        WordPlace::Show => SHOW,
        WordPlace::Pfifo => PFIFO,
        WordPlace::Bfifo => BFIFO,
        WordPlace::Prio => PRIO_OPTIONS,
        WordPlace::Tbf => TBF,
        WordPlace::FqCodel => FQ_CODEL,
        WordPlace::DrrClass => DRR_CLASS,
        WordPlace::Flower => FLOWER,
        WordPlace::Packet => PACKET,
        WordPlace::Drr | WordPlace::Poll | WordPlace::End => &[],
    }
}

/// The words that a line needs at a place, or in the head that was there: one of each row.
pub fn needs(place: WordPlace) -> &'static [&'static [&'static str]] {
    match place {
        WordPlace::QdiscAdd => &[&["dev"], &["root", "parent"]],
        WordPlace::QdiscChange | WordPlace::QdiscDel => &[&["dev"], &["root", "parent", "handle"]],
        WordPlace::ClassAdd => &[&["dev"], &["parent"], &["classid"]],
        WordPlace::ClassChange | WordPlace::ClassDel => &[&["dev"], &["classid"]],
        WordPlace::FilterAdd | WordPlace::FilterDel => &[&["dev"], &["parent"], &["prio", "pref"]],
        WordPlace::Tbf => &[
            &["rate"],
            &["burst", "buffer", "maxburst"],
            &["limit", "latency"],
        ],
        WordPlace::Flower => &[&["classid", "flowid"]],
        _ => &[],
    }
}

/// The words of which a line has one: each again means what the first of its row means, or excludes it.
const ALTERNATIVES: &[&[&str]] = &[
    &["root", "parent"],
    &["prio", "pref"],
    &["classid", "flowid"],
    &["limit", "latency"],
    &["burst", "buffer", "maxburst"],
    &["ecn", "noecn"],
];

/// The words of which a line has one, with this one among them; none where it goes with all others.
pub fn alternatives(name: &str) -> &'static [&'static str] {
    for names in ALTERNATIVES {
        if names.contains(&name) {
            return names;
        }
    }
    &[]
}
