ghost use Rattle.std.specs.Prelude.{◌≡◌};
ghost use Rattle.qtree_c.specs.answers.Nodes.{node_of, place_in, unlisted_of, with_fq_codel, with_listed, with_options};

use crate::abi::c_row::CRow;
use q_device::ListedFlows;
use q_fqcodel::Settings;
use q_model::{NodeView, Place, QdiscView};

/// A qdisc, where it is, its settings and what it counted, as C has them. What its kind lacks is 0.
#[repr(C)]
#[derive(Clone, Copy, Drop)]
pub struct CNodeView {
    pub row: CRow,
    /// Packets for a pfifo or an fq_codel, bytes for a bfifo or a tbf.
    pub limit: u64,
    /// A tbf's, in bits a second.
    pub rate: u64,
    /// An fq_codel's, in nanoseconds.
    pub target: u64,
    /// An fq_codel's, in nanoseconds.
    pub interval: u64,
    /// A tbf's, in bytes.
    pub burst: u32,
    /// An fq_codel's.
    pub flows: u32,
    /// How many of an fq_codel's flows are in its list of new ones.
    pub new_flows: u32,
    /// How many of an fq_codel's flows are in its list of old ones.
    pub old_flows: u32,
    /// An fq_codel's, in bytes.
    pub quantum: u32,
    /// An fq_codel's, in packets.
    pub drop_batch: u32,
    /// 1 pfifo, 2 bfifo, 3 prio, 4 tbf, 5 drr, 6 fq_codel.
    pub kind: u32,
    /// 1 for the root, 2 for a class.
    pub place: u32,
    /// 0 for a leaf that nobody added.
    pub handle: u16,
    /// The class in which it is; 0 at the root.
    pub parent_major: u16,
    pub parent_minor: u16,
    /// An fq_codel's, in bytes.
    pub mtu: u16,
    /// An fq_codel's: 1 where CoDel marks.
    pub ecn: u8,
    /// A prio's.
    pub bands: u8,
    /// A prio's: the band of each priority, from 0.
    pub priomap: [u8; 16],
}

impl CNodeView {
    /// This node as C has it, with the flows that it has listed if it is an fq_codel.
    pub fn of(node: &NodeView, listed: Option<ListedFlows>) -> CNodeView
        ensures { result ≡ node_of node.now listed }
    {
        CNodeView::unlisted(node).with_listed(listed)
    }

    /// This node as C has it, without the flows that it has listed.
    fn unlisted(node: &NodeView) -> CNodeView
        ensures { result ≡ unlisted_of node.now }
    {
        let handle = match node.handle {
            Some(handle) => handle.major(),
            None => 0,
        };
        let (place, parent_major, parent_minor) = place_in(node.place);
        let view = CNodeView {
            row: CRow::of(&node.row),
            limit: 0,
            rate: 0,
            target: 0,
            interval: 0,
            burst: 0,
            flows: 0,
            new_flows: 0,
            old_flows: 0,
            quantum: 0,
            drop_batch: 0,
            kind: 0,
            place,
            handle,
            parent_major,
            parent_minor,
            mtu: 0,
            ecn: 0,
            bands: 0,
            priomap: [0; 16],
        };
        view.with_options(&node.qdisc)
    }

    /// The same with the numbers of an fq_codel's listed flows.
    fn with_listed(self, listed: Option<ListedFlows>) -> CNodeView
        ensures { result ≡ with_listed listed self }
    {
        match listed {
            Some(flows) => CNodeView {
                new_flows: flows.new_flows,
                old_flows: flows.old_flows,
                ..self
            },
            None => self,
        }
    }

    /// The same with the kind of a qdisc and its settings.
    fn with_options(self, qdisc: &QdiscView) -> CNodeView
        ensures { result ≡ with_options qdisc.now self }
    {
        let mut view = self;
        match *qdisc {
            QdiscView::Pfifo { limit } => {
                view.kind = 1;
                view.limit = limit;
            }
            QdiscView::Bfifo { limit } => {
                view.kind = 2;
                view.limit = limit;
            }
            QdiscView::Prio { bands, priomap } => {
                view.kind = 3;
                view.bands = bands;
                view.priomap = priomap;
            }
            QdiscView::Tbf { rate, burst, limit } => {
                view.kind = 4;
                view.rate = rate;
                view.burst = burst;
                view.limit = limit;
            }
            QdiscView::Drr => view.kind = 5,
            QdiscView::FqCodel(settings) => return view.with_fq_codel(&settings),
        }
        view
    }

    /// The same with the settings of an fq_codel.
    fn with_fq_codel(self, settings: &Settings) -> CNodeView
        ensures { result ≡ with_fq_codel settings.now self }
    {
        CNodeView {
            limit: u64::from(settings.limit),
            target: settings.target,
            interval: settings.interval,
            flows: settings.flows,
            quantum: settings.quantum,
            drop_batch: settings.drop_batch,
            kind: 6,
            mtu: settings.mtu,
            ecn: u8::from(settings.ecn),
            ..self
        }
    }
}

/// The number of a place, and the major and minor number of the class that it is.
fn place_in(place: Place) -> (u32, u16, u16)
    ensures { result ≡ place_in place }
{
    match place {
        Place::Top => (0, 0, 0),
        Place::Root => (1, 0, 0),
        Place::Class(class) => (2, class.major.major(), class.minor.number()),
    }
}
