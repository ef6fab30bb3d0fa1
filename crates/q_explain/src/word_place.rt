/// The place of a word in a line.
#[derive(Clone, Copy, PartialEq, Eq)]
pub enum WordPlace {
    /// First.
    First,
    /// Behind `tc`.
    Tc,
    /// Behind `tc -s`.
    TcCounters,
    /// Behind `tc qdisc`.
    Qdisc,
    /// Behind `tc class`.
    Class,
    /// Behind `tc filter`.
    Filter,
    /// In the head of `tc qdisc add`.
    QdiscAdd,
    /// In the head of `tc qdisc change`.
    QdiscChange,
    /// In the head of `tc qdisc del`.
    QdiscDel,
    /// In the head of `tc class add`.
    ClassAdd,
    /// In the head of `tc class change`.
    ClassChange,
    /// In the head of `tc class del`.
    ClassDel,
    /// In the head of `tc filter add`.
    FilterAdd,
    /// In the head of `tc filter del`.
    FilterDel,
    /// Behind the verb of a line that shows.
    Show,
    /// Behind `pfifo`.
    Pfifo,
    /// Behind `bfifo`.
    Bfifo,
    /// Behind `prio`.
    Prio,
    /// Behind `tbf`.
    Tbf,
    /// Behind `drr` in a line on a qdisc.
    Drr,
    /// Behind `fq_codel`.
    FqCodel,
    /// Behind `drr` in a line on a class.
    DrrClass,
    /// Behind `flower`.
    Flower,
    /// Behind the length of a `pkt`.
    Packet,
    /// Behind `poll`.
    Poll,
    /// The place after which no word may come.
    End,
}

impl WordPlace {
    /// Whether it is the head of a tc line.
    pub fn is_head(self) -> bool {
        matches!(
            self,
            WordPlace::QdiscAdd
                | WordPlace::QdiscChange
                | WordPlace::QdiscDel
                | WordPlace::ClassAdd
                | WordPlace::ClassChange
                | WordPlace::ClassDel
                | WordPlace::FilterAdd
                | WordPlace::FilterDel
        )
    }

    /// What is said to need the words that are missing there.
    pub fn needing(self) -> &'static str {
        match self {
            WordPlace::Tbf => "a tbf",
            _ => self.name(),
        }
    }

    /// The table of the words that may be there.
    pub fn name(self) -> &'static str {
        match self {
            WordPlace::Qdisc => "tc qdisc",
            WordPlace::Class => "tc class",
            WordPlace::Filter => "tc filter",
            WordPlace::QdiscAdd => "tc qdisc add",
            WordPlace::QdiscChange => "tc qdisc change",
            WordPlace::QdiscDel => "tc qdisc del",
            WordPlace::ClassAdd => "tc class add",
            WordPlace::ClassChange => "tc class change",
            WordPlace::ClassDel => "tc class del",
            WordPlace::FilterAdd => "tc filter add",
            WordPlace::FilterDel => "tc filter del",
            WordPlace::Show => "a line that shows",
            WordPlace::Pfifo => "pfifo",
            WordPlace::Bfifo => "bfifo",
            WordPlace::Prio => "prio",
            WordPlace::Tbf => "tbf",
            WordPlace::Drr => "drr",
            WordPlace::FqCodel => "fq_codel",
            WordPlace::DrrClass => "a class of drr",
            WordPlace::Flower => "flower",
            WordPlace::Packet => "pkt",
            WordPlace::Poll => "poll",
            WordPlace::First | WordPlace::End => "the line",
            WordPlace::Tc | WordPlace::TcCounters => "tc",
        }
    }
}
