//! What holds of every report and of what it shows. A law is the contract of a function that does nothing.

ghost use Rattle.q_script_semantics.specs.Laws.{TotalsAreEnough};
ghost use Rattle.q_script_semantics.specs.ReadBack.{ClassesAreReadBack, FiltersAreReadBack, PrefixesAreReadBack, QdiscsAreReadBack};

/// A session whose nodes keep totals writes, for every script, what one whose nodes keep whole histories writes.
pub fn totals_are_enough()
    ensures { TotalsAreEnough }
{}

/// The class of a drr that `tc class show` prints is read back: the command with the same texts makes a class of that name,
/// with that quantum.
pub fn classes_are_read_back()
    ensures { ClassesAreReadBack }
{}

/// The bfifo, prio, tbf or drr that `tc qdisc show` prints is read back: the command with the same texts puts such a qdisc
/// into the same place. A pfifo and an fq_codel are not, as no command reads a limit in packets or times in `ns`.
pub fn qdiscs_are_read_back()
    ensures { QdiscsAreReadBack }
{}

/// The prefix that `tc filter show` prints is read as itself, with the bits behind its length.
pub fn prefixes_are_read_back()
    ensures { PrefixesAreReadBack }
{}

/// The filter that `tc filter show` prints is read back: the command with the same texts, and `flower` before its keys, makes
/// it, where its addresses are of one version and that of its protocol.
pub fn filters_are_read_back()
    ensures { FiltersAreReadBack }
{}
