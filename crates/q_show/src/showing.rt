ghost use Rattle.std.specs.Prelude.{◌≡◌, ◌≤◌, length};
ghost use Rattle.q_show.specs.Lengths.{most_counters};
ghost use Rattle.q_show.specs.ShowText.{qdisc_text, class_line, counters_text, filter_line};

use crate::class::put_class;
use crate::filter::put_filter;
use crate::qdisc::{put_counters, put_qdisc};
use crate::text::Text;
use q_model::{ClassView, FilterView, NodeView, Row};

/// What `tc qdisc show` prints of a node, and its counters, as `tc -s qdisc show` does, where they are asked for.
pub fn qdisc_text(node: &NodeView, counters: bool) -> Text
    ensures { result ≡ qdisc_text counters node.now }
{
    let mut text = Text::new();
    put_qdisc(&mut text, node, counters);
    text
}

/// What `tc class show` prints of a class.
pub fn class_text(class: &ClassView) -> Text
    ensures { result ≡ class_line class.now }
{
    let mut text = Text::new();
    put_class(&mut text, class);
    text
}

/// What `tc filter show` prints of a filter.
pub fn filter_text(filter: &FilterView) -> Text
    ensures { result ≡ filter_line filter.now }
{
    let mut text = Text::new();
    put_filter(&mut text, filter);
    text
}

/// What a node has counted, marks left out: each counter behind a blank.
pub fn counters_text(row: &Row) -> Text
    ensures text { result ≡ counters_text row.now }
    ensures short { length result ≤ most_counters }
{
    let mut text = Text::new();
    put_counters(&mut text, row);
    text
}
