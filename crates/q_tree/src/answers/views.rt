ghost use Rattle.std.specs.Prelude.{◌≡◌, ◌+◌, IfSome, None, length, option_map, slice_get, unwrap_or};
ghost use Rattle.q_model.specs.Node.{children};
ghost use Rattle.q_model.specs.Views.{class_ids, class_kind, class_views, filter_views, minors, node_view, places_below, qdisc_view};
ghost use Rattle.q_model.specs.declared.place.Place.TheVariants as place;
ghost use Rattle.q_tree.specs.answers.Showing.{HasClass, IsNumbered, standing};
ghost use Rattle.q_tree.specs.Kept.{kept};

use crate::filters::masked_filter::MaskedFilter;
use crate::node::{Discipline, Node};
use q_codel::Limit;
use q_model::{
    ClassId, ClassKind, ClassView, Filter, FilterView, Minor, NodeView, Place, QdiscView,
};

impl Node {
    /// The node so many places on in the order of show, which has each node before those below it, with the place where it
    /// is. `None` where there are not so many; `left` says then how many are still to pass.
    pub(crate) fn nth(&self, place: Place, left: &mut usize) -> Option<(Place, &Node)>
        requires { IsNumbered self.now }
        ensures found { option_map (λ x. (x.0, x.1.now)) result ≡ slice_get (standing place self.now) left.old }
        ensures numbered { IfSome result (λ x. IsNumbered x.1.now) }
        ensures left { result ≡ None → left.new + length (standing place self.now) ≡ left.old }
    {
        if *left == 0 {
            return Some((place, self));
        }
        *left -= 1;
        for (i, child) in self.children().iter().enumerate() {
            if let Some(found) = child.nth(self.place_beneath(i), left) {
                return Some(found);
            }
        }
        None
    }

    /// What `tc -s qdisc show` prints of the node, which is in this place.
    pub(crate) fn view(&self, place: Place) -> NodeView
        requires { IsNumbered self.now }
        ensures { result ≡ node_view kept place self.now }
    {
        NodeView {
            handle: self.handle,
            place,
            qdisc: self.qdisc_view(),
            row: self.row.row(),
        }
    }

    fn qdisc_view(&self) -> QdiscView
        requires { IsNumbered self.now }
        ensures { result ≡ qdisc_view (length (children self.now)) self.now.own.discipline }
    {
        match &self.discipline {
            Discipline::Fifo(fifo) => match fifo.limit() {
                Limit::Packets(limit) => return QdiscView::Pfifo { limit },
                Limit::Bytes(limit) => return QdiscView::Bfifo { limit },
            },
            Discipline::Prio { priomap, bands } => {
                return QdiscView::Prio {
                    bands: bands.len() as u8,
                    priomap: *priomap,
                };
            }
            Discipline::Tbf { bucket, limit, .. } => {
                return QdiscView::Tbf {
                    rate: bucket.rate(),
                    burst: bucket.burst(),
                    limit: *limit,
                };
            }
            Discipline::Drr { .. } => return QdiscView::Drr,
            Discipline::FqCodel(queue) => return QdiscView::FqCodel(queue.settings()),
        }
    }

    /// What `tc class show` prints of the class in this place.
    pub(crate) fn class_view(&self, j: usize) -> Option<ClassView>
        requires { IsNumbered self.now }
        ensures { result ≡ slice_get (class_views self.now) j }
    {
        let class = self.class_id(j)?;
        Some(ClassView {
            class,
            kind: self.class_kind(class.minor),
        })
    }

    // A class by the kind of its qdisc: one of a drr is active with a deficit, or inactive.
    fn class_kind(&self, minor: Minor) -> ClassKind
        requires { HasClass minor self.now.own.discipline }
        ensures { result ≡ class_kind self.now.own.discipline minor }
    {
        match &self.discipline {
            Discipline::Drr { active, .. } => {
                let class = minor.number();
                let quantum = active.quantum(class);
                if !active.is_active(class) {
                    return ClassKind::Drr {
                        quantum,
                        deficit: None,
                    };
                }
                return ClassKind::Drr {
                    quantum,
                    deficit: Some(active.deficit(class)),
                };
            }
            Discipline::Tbf { .. } => return ClassKind::Tbf,
            Discipline::Prio { .. } | Discipline::Fifo(_) | Discipline::FqCodel(_) => {
                return ClassKind::Prio;
            }
        }
    }

    /// What `tc filter show` prints of a filter.
    pub(crate) fn filter_view(&self, j: usize) -> Option<FilterView>
        ensures { result ≡ slice_get (filter_views self.now) j }
    {
        let parent = self.handle?;
        let filter = filter_at(self.filters.all(), j)?;
        Some(FilterView { parent, filter })
    }

    // Where the child in this place is: in its class, if the node has a handle.
    pub(crate) fn place_beneath(&self, i: usize) -> Place
        requires { IsNumbered self.now }
        ensures { result ≡ unwrap_or (slice_get (places_below self.now.own self.now.below) i) place.Root }
    {
        match self.class_id(i) {
            Some(class) => Place::Class(class),
            None => Place::Root,
        }
    }

    // The class in this place, if the node has a handle.
    fn class_id(&self, i: usize) -> Option<ClassId>
        requires { IsNumbered self.now }
        ensures { result ≡ slice_get (class_ids self.now) i }
    {
        let major = self.handle?;
        let minor = self.minor(i)?;
        Some(ClassId { major, minor })
    }

    // The number of the class in this place.
    fn minor(&self, i: usize) -> Option<Minor>
        requires { IsNumbered self.now }
        ensures { result ≡ slice_get (minors (length (children self.now)) self.now.own.discipline) i }
    {
        match &self.discipline {
            Discipline::Prio { bands, .. } => {
                if i < bands.len() {
                    return Minor::new(i as u16 + 1);
                }
                return None;
            }
            Discipline::Tbf { .. } => {
                if i == 0 {
                    return Minor::new(1);
                }
                return None;
            }
            Discipline::Drr { active, .. } => return Minor::new(active.class_at(i)?),
            Discipline::Fifo(_) | Discipline::FqCodel(_) => return None,
        }
    }
}

fn filter_at(filters: &[MaskedFilter], j: usize) -> Option<Filter>
    ensures { result ≡ slice_get filters.now j }
{
    Some(*filters.get(j)?.filter())
}
