//! The lists of new and of old flows, each linked through the flows' links: one flow appended, the first taken out or moved to the
//! end, one written.
ghost use Rattle.std.specs.Prelude.{◌≡◌, ◌≢◌, ◌<◌, None, [], ◌∷◌, ◌++◌, length, set, drop, slice_get};
ghost use Rattle.q_fqcodel.specs.Links.{link_of, led_on, link_at, entries_in, IsLine, KeepsLines};

use crate::ends::Ends;
use crate::entry::Entry;
use crate::link::Link;
use crate::place::Place;

/// Appends a flow that is in no list to the one at this place.
pub(crate) fn append_flow(
    links: &mut Vec<Link>,
    list: Ends,
    place: Place,
    flow: u32,
    credits: i64,
) -> Ends
    requires within { flow < length links.old.items }
    requires free { link_at links.old.items flow ≡ None }
    requires listed { place ≢ Place.Unlisted }
    requires linked { IsLine links.old.items place list }
    requires few { list.count < 65536 }
    ensures entries { entries_in links.new.items result ≡ entries_in links.old.items list ++ record { flow = flow; credits = credits } ∷ [] }
    ensures linked { IsLine links.new.items place result }
    ensures others { KeepsLines place links.old.items links.new.items }
    ensures len { length links.new.items ≡ length links.old.items }
{
    write(links, flow, Link::last(place, credits));
    if list.count == 0 {
        return Ends {
            head: flow,
            tail: flow,
            count: 1,
        };
    }
    write_next(links, list.tail, flow);
    Ends {
        head: list.head,
        tail: flow,
        count: list.count + 1,
    }
}

/// Takes the first flow out of the list at this place.
pub(crate) fn remove_first(links: &mut Vec<Link>, list: Ends) -> Ends
    requires some { 0 < list.count }
    requires linked { (place : Place) × IsLine links.old.items place list }
    ensures entries { entries_in links.new.items result ≡ drop 1 (entries_in links.old.items list) }
    ensures linked { (place : Place) → IsLine links.old.items place list → IsLine links.new.items place result }
    ensures free { link_at links.new.items list.head ≡ None }
    ensures others { (place : Place) → IsLine links.old.items place list → KeepsLines place links.old.items links.new.items }
    ensures len { length links.new.items ≡ length links.old.items }
{
    let first = read(links, list.head);
    write(links, list.head, Link::unlisted());
    Ends {
        head: first.next,
        tail: list.tail,
        count: list.count - 1,
    }
}

/// Moves the first flow of a list, which has others behind it, to the end, with the credits of `entry`, which is its own. It stays
/// listed at this place all the time, so that its link is neither cleared nor written anew.
pub(crate) fn move_first_to_end(links: &mut Vec<Link>, list: Ends, entry: Entry) -> Ends
    requires several { 1 < list.count }
    requires own { list.head ≡ entry.flow }
    requires linked { (place : Place) × IsLine links.old.items place list }
    ensures entries { entries_in links.new.items result ≡ drop 1 (entries_in links.old.items list) ++ entry ∷ [] }
    ensures linked { (place : Place) → IsLine links.old.items place list → IsLine links.new.items place result }
    ensures others { (place : Place) → IsLine links.old.items place list → KeepsLines place links.old.items links.new.items }
    ensures len { length links.new.items ≡ length links.old.items }
{
    let front = read(links, list.head);
    write_credits(links, entry);
    write_next(links, list.tail, list.head);
    Ends {
        head: front.next,
        tail: list.head,
        count: list.count,
    }
}

/// The first flow of a list, where there is one.
pub(crate) fn first_of(links: &Vec<Link>, list: Ends) -> Option<Entry>
    requires { (place : Place) × IsLine links.now.items place list }
    ensures { result ≡ slice_get (entries_in links.now.items list) 0 }
{
    if list.count == 0 {
        return None;
    }
    let link = read(links, list.head);
    Some(link.entry(list.head))
}

/// Gives the flow of `entry` its credits, and leaves it where it is listed.
pub(crate) fn write_credits(links: &mut Vec<Link>, entry: Entry)
    requires { entry.flow < length links.old.items }
    ensures { links.new.items ≡ set links.old.items entry.flow (record (link_of links.old.items entry.flow) { credits = entry.credits }) }
{
    links[entry.flow as usize].credits = entry.credits;
}

fn read(links: &Vec<Link>, flow: u32) -> Link
    requires { flow < length links.now.items }
    ensures { result ≡ link_of links.now.items flow }
{
    links[flow as usize]
}

fn write(links: &mut Vec<Link>, flow: u32, link: Link)
    requires { flow < length links.old.items }
    ensures { links.new.items ≡ set links.old.items flow link }
{
    links[flow as usize] = link;
}

// One field of a link alone, so that the others are neither read nor written.
fn write_next(links: &mut Vec<Link>, flow: u32, next: u32)
    requires { flow < length links.old.items }
    ensures { links.new.items ≡ set links.old.items flow (led_on next (link_of links.old.items flow)) }
{
    links[flow as usize].next = next;
}
