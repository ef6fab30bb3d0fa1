//! What tc has and qtree has not, and what to use in its place.
use crate::line_words::LineWords;
use crate::word_place::WordPlace;

/// The kinds of filter that tc has besides flower.
const FILTERS: &[&str] = &[
    "u32", "fw", "basic", "bpf", "cgroup", "flow", "matchall", "route",
];

/// The words behind `tc` that do what `-s` does.
const COUNTERS: &[&str] = &["-stats", "-statistics"];

/// The words behind `tc filter` that do what `del` and `add` do.
const REPLACING: &[&str] = &["replace", "change"];

/// What to use in the place of a word that tc alone has; empty where nothing does the same.
pub fn instead(place: WordPlace, word: &str) -> &'static str {
    match place {
        WordPlace::Filter if REPLACING.contains(&word) => ": use del and add",
        WordPlace::Qdisc | WordPlace::Class if word == "replace" => ": use change, or del and add",
        WordPlace::Tc | WordPlace::TcCounters if COUNTERS.contains(&word) => ": use -s",
        _ => "",
    }
}

/// The kind of filter that has a `handle` of its own, if that is this word of tc, in the head of a line on filters: the first of
/// its kinds in the rest of the line.
pub fn filter_of_handle(
    place: WordPlace,
    word: &str,
    mut rest: LineWords<'_>,
) -> Option<&'static str> {
    let of_filter = matches!(place, WordPlace::FilterAdd | WordPlace::FilterDel);
    if !of_filter || word != "handle" {
        return None;
    }
    for _ in 0..usize::MAX {
        let filter = name_of(FILTERS, rest.next()?.bytes);
        if filter.is_some() {
            return filter;
        }
    }
    None
}

/// The word that tc reads at a place and qtree does not, if this one is such a word.
pub fn word_of_tc(place: WordPlace, word: &[u8]) -> Option<&'static str> {
    name_of(words_of_tc(place), word)
}

/// The one of these names that a word is.
fn name_of(names: &[&'static str], word: &[u8]) -> Option<&'static str> {
    for name in names {
        if name.as_bytes() == word {
            return Some(name);
        }
    }
    None
}

/// The words that tc reads at a place, and qtree does not.
fn words_of_tc(place: WordPlace) -> &'static [&'static str] {
    match place {
        WordPlace::Tc | WordPlace::TcCounters => &[
            "-d",
            "-r",
            "-p",
            "-b",
            "-n",
            "-j",
            "-o",
            "-g",
            "-c",
            "-iec",
            "-force",
            "-batch",
            "-netns",
            "-json",
            "-pretty",
            "-stats",
            "-statistics",
            "-details",
            "-raw",
            "qdiscs",
            "action",
            "actions",
            "chain",
            "monitor",
            "exec",
        ],
        WordPlace::Qdisc | WordPlace::Class | WordPlace::Filter => {
            &["replace", "link", "get", "change", "chg", "lst"]
        }
        WordPlace::QdiscAdd | WordPlace::QdiscChange | WordPlace::QdiscDel => &[
            "htb",
            "hfsc",
            "sfq",
            "cake",
            "pfifo_fast",
            "pfifo_head_drop",
            "mq",
            "mqprio",
            "ingress",
            "clsact",
            "red",
            "gred",
            "sfb",
            "choke",
            "codel",
            "fq",
            "fq_pie",
            "pie",
            "netem",
            "multiq",
            "noqueue",
            "cbq",
            "dsmark",
            "hhf",
            "qfq",
            "ets",
            "etf",
            "taprio",
            "skbprio",
            "plug",
            "estimator",
            "stab",
            "ingress_block",
            "egress_block",
        ],
        WordPlace::ClassAdd | WordPlace::ClassChange => &[
            "root",
            "htb",
            "hfsc",
            "qfq",
            "cbq",
            "estimator",
        ],
        WordPlace::ClassDel => &["root"],
        WordPlace::FilterAdd | WordPlace::FilterDel => &[
            "root",
            "ingress",
            "egress",
            "block",
            "chain",
            "handle",
            "estimator",
            "u32",
            "fw",
            "basic",
            "bpf",
            "cgroup",
            "flow",
            "matchall",
            "route",
        ],
        WordPlace::Tbf => &[
            "mtu",
            "minburst",
            "mpu",
            "peakrate",
            "overhead",
            "linklayer",
        ],
        WordPlace::FqCodel => &["ce_threshold", "ce_threshold_selector", "memory_limit"],
        WordPlace::Flower => &[
            "action",
            "indev",
            "verbose",
            "skip_sw",
            "skip_hw",
            "dst_mac",
            "src_mac",
            "vlan_id",
            "vlan_prio",
            "vlan_ethtype",
            "cvlan_id",
            "mpls_label",
            "ip_tos",
            "ip_ttl",
            "ip_flags",
            "tcp_flags",
            "type",
            "code",
            "arp_tip",
            "arp_sip",
            "enc_key_id",
            "enc_dst_ip",
            "enc_src_ip",
            "enc_dst_port",
            "ct_state",
            "ct_zone",
            "ct_mark",
            "hw_tc",
            "police",
        ],
        WordPlace::Show => &[
            "root",
            "parent",
            "handle",
            "classid",
            "ingress",
            "invisible",
            "block",
        ],
        _ => &[],
    }
}
