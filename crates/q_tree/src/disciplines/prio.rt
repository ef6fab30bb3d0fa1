//! prio: how one is made, chooses a band, dequeues, shows its packet, is ready, and changes (tc-prio(8)).
ghost use Rattle.std.specs.Prelude.{◌≡◌, ◌<◌, ◌≤◌, ◌-◌, IfOk, Ok, OnErr, OnOk, drop, is_some, length, map, nat_lt, replicate, slice_index, take, unwrap_or};
ghost use Rattle.std.specs.List.{list_any};
ghost use Rattle.std.specs.Option.{option_map_or};
ghost use Rattle.q_codel.specs.Losses.{IsTold};
ghost use Rattle.q_invariants.specs.Sizes.{change_sized};
ghost use Rattle.q_model.specs.Ask.{ask_prio};
ghost use Rattle.q_model.specs.Beneath.{totals_in};
ghost use Rattle.q_model.specs.Filters.{named_class};
ghost use Rattle.q_model.specs.Find.{count_nodes};
ghost use Rattle.q_model.specs.Make.{implicit_pfifo};
ghost use Rattle.q_model.specs.Node.{Own, shape};
ghost use Rattle.q_model.specs.Since.{at_hand_since, first_since};
ghost use Rattle.q_model.specs.Pop.{first_shown, pop};
ghost use Rattle.q_model.specs.Refusals.{most_nodes};
ghost use Rattle.q_model.specs.declared.filter.Filter.{Filter};
ghost use Rattle.q_model.specs.declared.kind.Kind.TheVariants as kind;
ghost use Rattle.q_tree.specs.answers.ReadyAt.{no_packet, outlook, with_band, with_bands};
ghost use Rattle.q_tree.specs.arrival.PutSteps.{packets_beneath};
ghost use Rattle.q_tree.specs.commands.Changing.{IsChange, MakesChildren, leaves_answer, nodes_from};
ghost use Rattle.q_tree.specs.commands.DisciplineChanges.{FitsCounters, IsChangedBy, IsUnchanged, lost_with, remapped};
ghost use Rattle.q_tree.specs.commands.Making.{AreNew};
ghost use Rattle.q_tree.specs.commands.Planning.{device_of, root_of};
ghost use Rattle.q_tree.specs.commands.Purging.{purged};
ghost use Rattle.q_tree.specs.departure.AskSteps.{AreAsked, CanAskEach, CanBegin, answers, signals_of};
ghost use Rattle.q_tree.specs.departure.PopSteps.{ArePopped};
ghost use Rattle.q_tree.specs.departure.SendSteps.{AreSent};
ghost use Rattle.q_tree.specs.route.Choosing.{child_of};
ghost use Rattle.q_tree.specs.Seen.{children_seen, discipline_seen, places_seen};
ghost use Rattle.q_tree.specs.declared.commands.discipline_change.DisciplineChange.TheVariants.{SetBands};

use crate::answers::ready_at::{Outlook, sooner};
use crate::commands::counting::MOST_NODES;
use crate::commands::discipline_change::DisciplineChange;
use crate::commands::planner::Planner;
use crate::counters::booking::{NOTHING, sum};
use crate::departure::shown::Shown;
use crate::departure::signals::Signals;
use crate::filters::Filters;
use crate::filters::masked_filter::MaskedFilter;
use crate::node::{Discipline, Node};
use crate::route::choice::{Choice, child_of};
use q_codel::Sink;
use q_model::{PrioOptions, Refusal, Totals};
use q_packet::{KeptPacket, Moment};
use std::alloc::AllocError;

impl Planner<'_> {
    /// Makes so many implicit pfifos, each of the device's queue length.
    ///
    /// # Errors
    ///
    /// Returns `AllocError` if an allocation fails, which for no leaves is never.
    pub(crate) fn leaves(&self, count: usize) -> Result<Vec<Node>, AllocError>
        ensures new { IfOk result (λ v. AreNew v.items (replicate count (implicit_pfifo (device_of self.now)))) }
        ensures memory { OnErr result (0 < count) }
    {
        let mut nodes = Vec::with_capacity(self.alloc, count)?;
        for _ in 0..count {
            nodes.push(self.implicit_pfifo())?;
        }
        Ok(nodes)
    }
}

/// Returns where a packet goes: to its band. It is refused where there is no such band (tc-prio(8)).
#[inline(always)]
pub(crate) fn choose(
    filters: &Filters,
    priomap: &[u8; 16],
    bands: usize,
    packet: &KeptPacket,
) -> Choice
    ensures { result ≡ child_of bands (option_map_or (λ n. n - 1) (named_class filters.now packet.now) (slice_index priomap.now packet.now.prio)) }
{
    child_of(bands, band(filters, priomap, packet))
}

// Returns the band of a packet, from 0: that of the class which a filter names, else that of its priority (tc-prio(8)).
#[inline(always)]
fn band(filters: &Filters, priomap: &[u8; 16], packet: &KeptPacket) -> usize
    ensures { result ≡ option_map_or (λ minor. minor - 1) (named_class filters.now packet.now) (slice_index priomap.now packet.now.prio) }
{
    match filters.named_class(packet) {
        Some(minor) => usize::from(minor.number()) - 1,
        None => usize::from(priomap[usize::from(packet.stored.prio)]),
    }
}

/// Asks the bands in order, and dequeues the packet of the first band that shows one into `out` (tc-prio(8)). Returns what the prio shows.
pub(crate) fn dequeue_bands<S: Sink>(
    bands: &mut [Node],
    now: Moment,
    out: &mut KeptPacket,
    signals: &mut Signals,
    sink: &mut S,
) -> Shown
    requires { CanBegin (CanAskEach now bands.old) (length (packets_beneath bands.old)) (S.state sink.old).room signals.old }
    ensures after { (own : Own) → AreSent (ask_prio own (answers now bands.old)) bands.old bands.new result (S.state sink.old) (S.state sink.new) }
    ensures packet { out.new ≡ unwrap_or result.packet out.old }
    ensures signals { signals.new ≡ signals_of result }
    ensures kept { S.keeps sink.old sink.new }
{
    let mut shown = Shown::at_hand(&None);
    for place in 0..bands.len() {
        // Most bands are fifos that have nothing, and need not be asked.
        if bands[place].is_an_empty_fifo() {
            continue;
        }
        shown = bands[place].peek_after(shown, now, signals, sink);
        if shown.has_packet() {
            bands[place].dequeue_at_hand(out);
            return shown;
        }
    }
    shown
}

/// Asks the bands in order, up to the first that shows a packet, and returns what that one shows (tc-prio(8)).
#[cycle(peek)]
#[inline(never)]
pub(crate) fn peek_bands<S: Sink>(
    bands: &mut [Node],
    now: Moment,
    signals: &mut Signals,
    sink: &mut S,
) -> Shown
    requires { CanBegin (CanAskEach now bands.old) (length (packets_beneath bands.old)) (S.state sink.old).room signals.old }
    ensures after { (own : Own) → AreAsked (ask_prio own (answers now bands.old)) bands.old bands.new result (S.state sink.old) (S.state sink.new) }
    ensures signals { signals.new ≡ signals_of result }
    ensures kept { S.keeps sink.old sink.new }
{
    let mut shown = Shown::at_hand(&None);
    for place in 0..bands.len() {
        shown = bands[place].peek_after(shown, now, signals, sink);
        if shown.has_packet() {
            return shown;
        }
    }
    shown
}

/// Returns what the bands show where they were asked already: the packet of the first that has one at hand.
#[cycle(peek_again)]
#[inline(always)]
pub(crate) fn peek_bands_again(bands: &[Node], so_far: Shown) -> Shown
    ensures { result ≡ record so_far { packet = first_shown (map pop bands.now) } }
{
    let mut shown = so_far;
    for band in bands {
        shown = band.peek_again(shown);
        if shown.has_packet() {
            return shown;
        }
    }
    shown.showing(&None)
}

/// Dequeues the packet of the first band that has one at hand into `out`. Returns whether there was one.
#[cycle(dequeue_at_hand)]
#[inline(always)]
pub(crate) fn dequeue_first(bands: &mut [Node], out: &mut KeptPacket) -> bool
    ensures given { result ≡ is_some (first_shown (map pop bands.old)) }
    ensures packet { out.new ≡ unwrap_or (first_shown (map pop bands.old)) out.old }
    ensures after { ArePopped bands.old bands.new }
{
    // One that has none stays as it is.
    for place in 0..bands.len() {
        if bands[place].dequeue_at_hand(out) {
            return true;
        }
    }
    false
}

/// Returns the packet of the first band that has one at hand.
#[cycle(at_hand)]
pub(crate) fn first_at_hand(bands: &[Node]) -> Option<KeptPacket>
    ensures { result ≡ first_shown (map pop bands.now) }
{
    for band in bands {
        if let Some(packet) = band.at_hand() {
            return Some(packet);
        }
    }
    None
}

/// Returns when the packet arrived that the first band which has one has at hand.
#[cycle(at_hand_since)]
pub(crate) fn first_since(bands: &[Node]) -> Option<Moment>
    ensures { result ≡ first_since (map at_hand_since bands.now) }
{
    for band in bands {
        if let Some(since) = band.at_hand_since() {
            return Some(since);
        }
    }
    None
}

/// Returns what is known of the next packet of a prio, by its bands in order.
#[cycle(outlook)]
pub(crate) fn of_bands(bands: &[Node], now: Moment) -> Outlook
    ensures { result ≡ with_bands no_packet (map (outlook now) bands.now) }
{
    let mut outlook = Outlook::NO_PACKET;
    for band in bands {
        outlook = outlook.with_band(&band.outlook(now));
    }
    outlook
}

impl Outlook {
    // Returns what is known of a prio, of whose first bands this is known, and `next` of the band behind them (tc-prio(8)).
    fn with_band(&self, next: &Outlook) -> Outlook
        ensures { result ≡ with_band self.now next.now }
    {
        let Some(first_at) = self.at else {
            return *next;
        };
        let Some(next_at) = next.at else {
            return *self;
        };
        let least = self.least.min(next.least);
        if next_at < first_at {
            return Outlook {
                at: next.at,
                least,
                len: next.len,
                until: sooner(self.at, next.until),
            };
        }
        Outlook {
            at: self.at,
            least,
            len: self.len,
            until: self.until,
        }
    }
}

impl Planner<'_> {
    /// Returns the change of a prio to these options, with the leaves that it needs for its bands.
    ///
    /// # Errors
    ///
    /// Returns why the prio stays as it is: the node is no prio, a filter names a band that would go, the tree would have too many nodes, or an
    /// allocation fails.
    pub(crate) fn bands(
        &self,
        node: &Node,
        options: &PrioOptions,
    ) -> Result<DisciplineChange, Refusal>
        requires within { count_nodes node.now ≤ count_nodes (root_of self.now) }
        ensures { IsChange MakesChildren (λ path. change_sized (device_of self.now) self.now.moment (shape (root_of self.now)) (shape node.now) path node.now.own.discipline (kind.Prio options.now)) node.now result }
    {
        let nodes = self.qdiscs.root.count_nodes();
        let more = node.leaves_needed(options.bands, nodes)?;
        let Ok(leaves) = self.leaves(more) else {
            return Err(Refusal::Memory);
        };
        Ok(DisciplineChange::SetBands(*options, leaves))
    }
}

impl Node {
    // Returns how many leaves a prio needs for so many bands, in a tree of so many nodes.
    fn leaves_needed(&self, bands: u8, nodes: usize) -> Result<usize, Refusal>
        requires within { count_nodes self.now ≤ nodes }
        requires few { nodes ≤ most_nodes }
        ensures { result ≡ leaves_answer bands nodes self.now self.now.own.discipline }
    {
        let Discipline::Prio { .. } = &self.discipline else {
            return Err(Refusal::CannotChange);
        };
        let bands = usize::from(bands);
        if names_beyond(self.filters.all(), bands) {
            return Err(Refusal::Busy);
        }
        let more = bands.saturating_sub(self.children().len());
        if nodes + more > MOST_NODES + self.nodes_from(bands) {
            return Err(Refusal::TooMany);
        }
        Ok(more)
    }

    // Returns how many nodes there are among the children from this place on, and below them.
    fn nodes_from(&self, place: usize) -> usize
        requires { count_nodes self.now ≤ most_nodes }
        ensures value { result ≡ nodes_from place self.now }
        ensures few { result ≤ most_nodes }
    {
        let children = self.children();
        let mut nodes = 0;
        for child in &children[place.min(children.len())..] {
            nodes += child.count_nodes();
        }
        nodes
    }
}

impl Discipline {
    /// Gives a prio other options and these leaves behind its bands, of which the last go that are too many (tc-prio(8)). Returns how many
    /// packets and bytes are lost with those.
    ///
    /// # Errors
    ///
    /// Returns `AllocError` if an allocation fails; nothing has changed then.
    pub(crate) fn set_bands<S: Sink>(
        &mut self,
        options: PrioOptions,
        leaves: Vec<Node>,
        sink: &mut S,
    ) -> Result<Totals, AllocError>
        requires few { FitsCounters (lost_with (SetBands options leaves) (discipline_seen self.old) (children_seen self.old)) }
        requires sink { length (lost_with (SetBands options leaves) (discipline_seen self.old) (children_seen self.old)) ≤ (S.state sink.old).room }
        ensures after { OnOk result (IsChangedBy (SetBands options leaves) self.old self.new) }
        ensures totals { OnOk result (result ≡ Ok (totals_in (lost_with (SetBands options leaves) (discipline_seen self.old) (children_seen self.old)))) }
        ensures told { OnOk result (IsTold (purged (lost_with (SetBands options leaves) (discipline_seen self.old) (children_seen self.old))) (S.state sink.old) (S.state sink.new)) }
        ensures memory { OnErr result (0 < length leaves.items) }
        ensures same { OnErr result (IsUnchanged self.old self.new) }
        ensures not_lost { OnErr result (S.state sink.new ≡ S.state sink.old) }
        ensures kept { S.keeps sink.old sink.new }
    {
        let Discipline::Prio { bands, .. } = self else {
            return Ok(NOTHING);
        };
        let mut leaves = leaves;
        bands.append(&mut leaves)?;
        let lost = keep_first(bands, usize::from(options.bands), sink);
        self.set_priomap(options.priomap);
        Ok(lost)
    }

    // Gives a prio the band, from 0, of each priority.
    fn set_priomap(&mut self, new: [u8; 16])
        ensures discipline { discipline_seen self.new ≡ remapped new (discipline_seen self.old) }
        ensures children { children_seen self.new ≡ children_seen self.old }
        ensures places { places_seen self.new ≡ places_seen self.old }
    {
        if let Discipline::Prio { priomap, .. } = self {
            *priomap = new;
        }
    }
}

// Returns whether one of these filters names a band beyond so many.
fn names_beyond(filters: &[MaskedFilter], bands: usize) -> bool
    ensures { result ≡ list_any (λ (f : Filter). nat_lt bands f.minor) filters.now }
{
    filters.iter().any(|filter| bands < usize::from(filter.filter().minor.number()))
}

// Keeps so many nodes in front, removes the others in their order, and returns how many packets and bytes were lost with them.
fn keep_first<S: Sink>(nodes: &mut Vec<Node>, count: usize, sink: &mut S) -> Totals
    requires few { FitsCounters (packets_beneath (drop count nodes.old.items)) }
    requires sink { length (packets_beneath (drop count nodes.old.items)) ≤ (S.state sink.old).room }
    ensures after { nodes.new.items ≡ take count nodes.old.items }
    ensures totals { result ≡ totals_in (packets_beneath (drop count nodes.old.items)) }
    ensures told { IsTold (purged (packets_beneath (drop count nodes.old.items))) (S.state sink.old) (S.state sink.new) }
    ensures kept { S.keeps sink.old sink.new }
{
    let mut lost = NOTHING;
    while nodes.len() > count {
        let node = nodes.remove(count);
        lost = sum(lost, node.queued());
        node.purge(sink);
    }
    lost
}
