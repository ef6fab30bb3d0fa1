//! The text of a qdisc.
ghost use Rattle.std.specs.Prelude.{◌≡◌, ◌+◌, ◌≤◌, ◌++◌, length};
ghost use Rattle.std.specs.List.{flat_map};
ghost use Rattle.q_show.specs.Lengths.{GrowsBy, HasRoom, most_counters, most_counters_line, most_ecn, most_fq_codel, most_hex, most_kind, most_losses, most_name, most_options, most_place, most_priomap, most_qdisc, most_qdisc_line, most_setting, most_sizes, most_times, most_totals, most_unit};
ghost use Rattle.q_show.specs.ShowText.{counters_line, counters_text, ecn_text, fq_codel_text, handle_text, kind_text, losses_text, marked_text, options_text, place_text, priomap_text, qdisc_text, qdisc_line, setting, sizes_text, times_text, totals_text};

use crate::class::put_class_id;
use crate::text::Text;
use q_fqcodel::Settings;
use q_model::{Handle, NodeView, Place, QdiscView, Row, Totals};

/// A qdisc, with its counters on a line of their own where they are asked for.
pub fn put_qdisc(text: &mut Text, node: &NodeView, counters: bool)
    requires { HasRoom text.old most_qdisc }
    ensures { text.new ≡ text.old ++ qdisc_text counters node.now }
{
    put_qdisc_line(text, node);
    if counters {
        put_counters_line(text, node);
    }
}

/// The line of its counters.
fn put_counters_line(text: &mut Text, node: &NodeView)
    requires { HasRoom text.old most_counters_line }
    ensures { text.new ≡ text.old ++ counters_line node.now }
{
    put_counters(text, &node.row);
    put_marked(text, &node.qdisc, &node.row);
    text.put(b"\n");
}

/// A qdisc's line: its kind, its handle, its place and its options.
fn put_qdisc_line(text: &mut Text, node: &NodeView)
    requires { HasRoom text.old most_qdisc_line }
    ensures text { text.new ≡ text.old ++ qdisc_line node.now }
    ensures short { GrowsBy text.old text.new most_qdisc_line }
{
    text.put(b"qdisc ");
    put_kind(text, &node.qdisc);
    text.put(b" ");
    put_handle(text, node.handle);
    text.put(b": ");
    put_place(text, node.place);
    put_options(text, &node.qdisc);
    text.put(b"\n");
}

/// A counter's name, packets and bytes.
fn put_totals(text: &mut Text, name: &[u8], counted: Totals)
    requires room { HasRoom text.old most_totals }
    requires name { length name.now ≤ most_name }
    ensures text { text.new ≡ text.old ++ totals_text name.now counted }
    ensures short { GrowsBy text.old text.new most_totals }
{
    text.put_name(name);
    text.put_number(counted.packets);
    text.put(b"p ");
    text.put_number(counted.bytes);
    text.put(b"b");
}

/// What a node has counted.
pub fn put_counters(text: &mut Text, row: &Row)
    requires { HasRoom text.old most_counters }
    ensures text { text.new ≡ text.old ++ counters_text row.now }
    ensures short { GrowsBy text.old text.new most_counters }
{
    put_totals(text, b"arrived", row.arrived);
    put_totals(text, b"sent", row.sent);
    put_totals(text, b"refused", row.refused);
    put_totals(text, b"dropped", row.dropped);
    put_totals(text, b"queued", row.queued);
}

/// The marks, which are shown of an fq_codel alone.
fn put_marked(text: &mut Text, qdisc: &QdiscView, row: &Row)
    requires { HasRoom text.old most_totals }
    ensures text { text.new ≡ text.old ++ marked_text qdisc.now row.now }
    ensures short { GrowsBy text.old text.new most_totals }
{
    if let QdiscView::FqCodel(_) = qdisc {
        put_totals(text, b"marked", row.marked);
    }
}

/// A major number in hexadecimal; an implicit leaf is shown as 0.
fn put_handle(text: &mut Text, handle: Option<Handle>)
    requires { HasRoom text.old most_hex }
    ensures text { text.new ≡ text.old ++ handle_text handle }
    ensures short { GrowsBy text.old text.new most_hex }
{
    match handle {
        Some(handle) => text.put_hexadecimal(handle.major()),
        None => text.put(b"0"),
    }
}

/// The place of a node.
fn put_place(text: &mut Text, place: Place)
    requires { HasRoom text.old most_place }
    ensures text { text.new ≡ text.old ++ place_text place }
    ensures short { GrowsBy text.old text.new most_place }
{
    match place {
        Place::Top => {}
        Place::Root => text.put(b"root"),
        Place::Class(class) => {
            text.put(b"parent ");
            put_class_id(text, class);
        }
    }
}

/// The name of a kind.
fn put_kind(text: &mut Text, qdisc: &QdiscView)
    requires { HasRoom text.old most_kind }
    ensures text { text.new ≡ text.old ++ kind_text qdisc.now }
    ensures short { GrowsBy text.old text.new most_kind }
{
    match qdisc {
        QdiscView::Pfifo { .. } => text.put(b"pfifo"),
        QdiscView::Bfifo { .. } => text.put(b"bfifo"),
        QdiscView::Prio { .. } => text.put(b"prio"),
        QdiscView::Tbf { .. } => text.put(b"tbf"),
        QdiscView::Drr => text.put(b"drr"),
        QdiscView::FqCodel(_) => text.put(b"fq_codel"),
    }
}

/// An option's name, its number and its unit.
pub fn put_setting(text: &mut Text, name: &[u8], n: u64, unit: &[u8])
    requires room { HasRoom text.old most_setting }
    requires name { length name.now ≤ most_name }
    requires unit { length unit.now ≤ most_unit }
    ensures text { text.new ≡ text.old ++ setting name.now n unit.now }
    ensures short { GrowsBy text.old text.new most_setting }
{
    text.put_name(name);
    text.put_number(n);
    text.put(unit);
}

/// The options of a qdisc.
fn put_options(text: &mut Text, qdisc: &QdiscView)
    requires { HasRoom text.old most_options }
    ensures text { text.new ≡ text.old ++ options_text qdisc.now }
    ensures short { GrowsBy text.old text.new most_options }
{
    match *qdisc {
        QdiscView::Pfifo { limit } => put_setting(text, b"limit", limit, b"p"),
        QdiscView::Bfifo { limit } => put_setting(text, b"limit", limit, b"b"),
        QdiscView::Prio { bands, priomap } => {
            put_setting(text, b"bands", u64::from(bands), b"");
            put_priomap(text, &priomap);
        }
        QdiscView::Tbf { rate, burst, limit } => {
            put_setting(text, b"rate", rate, b"bit");
            put_setting(text, b"burst", u64::from(burst), b"b");
            put_setting(text, b"limit", limit, b"b");
        }
        QdiscView::Drr => {}
        QdiscView::FqCodel(settings) => put_fq_codel(text, &settings),
    }
}

/// The bands of the priorities.
fn put_priomap(text: &mut Text, priomap: &[u8; 16])
    requires { HasRoom text.old most_priomap }
    ensures text { text.new ≡ text.old ++ priomap_text priomap.now }
    ensures short { GrowsBy text.old text.new most_priomap }
{
    text.put(b" priomap");
    for band in priomap {
        text.put(b" ");
        text.put_number(u64::from(*band));
    }
}

/// The settings of an fq_codel.
fn put_fq_codel(text: &mut Text, settings: &Settings)
    requires { HasRoom text.old most_fq_codel }
    ensures text { text.new ≡ text.old ++ fq_codel_text settings.now }
    ensures short { GrowsBy text.old text.new most_fq_codel }
{
    put_sizes(text, settings);
    put_times(text, settings);
    put_losses(text, settings.ecn, settings.drop_batch);
}

/// How much an fq_codel holds and sends.
fn put_sizes(text: &mut Text, settings: &Settings)
    requires { HasRoom text.old most_sizes }
    ensures text { text.new ≡ text.old ++ sizes_text settings.now }
    ensures short { GrowsBy text.old text.new most_sizes }
{
    put_setting(text, b"limit", u64::from(settings.limit), b"p");
    put_setting(text, b"flows", u64::from(settings.flows), b"");
    put_setting(text, b"quantum", u64::from(settings.quantum), b"");
}

/// The times of its CoDel.
fn put_times(text: &mut Text, settings: &Settings)
    requires { HasRoom text.old most_times }
    ensures text { text.new ≡ text.old ++ times_text settings.now }
    ensures short { GrowsBy text.old text.new most_times }
{
    put_setting(text, b"target", settings.target, b"ns");
    put_setting(text, b"interval", settings.interval, b"ns");
}

/// Whether it marks packets in place of a drop, and how many the fat flow loses at once.
fn put_losses(text: &mut Text, ecn: bool, drop_batch: u32)
    requires { HasRoom text.old most_losses }
    ensures text { text.new ≡ text.old ++ losses_text ecn drop_batch }
    ensures short { GrowsBy text.old text.new most_losses }
{
    put_ecn(text, ecn);
    put_setting(text, b"drop_batch", u64::from(drop_batch), b"");
}

/// Whether it marks packets.
fn put_ecn(text: &mut Text, ecn: bool)
    requires { HasRoom text.old most_ecn }
    ensures text { text.new ≡ text.old ++ ecn_text ecn }
    ensures short { GrowsBy text.old text.new most_ecn }
{
    if ecn {
        text.put(b" ecn");
    } else {
        text.put(b" noecn");
    }
}
