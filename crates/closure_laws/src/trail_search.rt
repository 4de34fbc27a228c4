//! The serials from which links lead to one, and the trails from them.
ghost use Rattle.std.specs.Prelude.{◌≡◌, ◌<◌, ◌==◌, ◌++◌, ◌∷◌, ℕ, [], List as TheList, cond, length, map, IfNone, IfOk, IfSome};
ghost use Rattle.std.specs.Prelude.{OnOk};
ghost use Rattle.std.specs.HashMap.{get};
ghost use Rattle.cry_base.specs.Sets.{In};
ghost use Rattle.closure_laws.specs.Found.{AreAllFound, AreChained, AreOpen, IsClosed, StandsAt, found_by, links_in, serials_of};
ghost use Rattle.closure_laws.specs.Keeping.{IsTrail};
ghost use Rattle.closure_laws.specs.declared.keeping.HeldLink.{HeldLink as TheLink};
ghost use Rattle.closure_laws.specs.declared.trail_search.Found.{Found as TheFound};

use crate::keeping::{HeldLink, LinkRef};
use cry_base::{List, Mem, Serial};
use std::alloc::Global;
use std::collections::HashMap;

/// The links that end at each serial.
type ByEnd = HashMap<u64, List<HeldLink>>;

/// A serial, the link that leads on from it, and the place of that link's end among those found before.
#[derive(Clone, Copy)]
pub(crate) struct Found {
    pub(crate) serial: Serial,
    pub(crate) by: LinkRef,
    pub(crate) next: usize,
}

/// Adds a link behind those that end where it does.
fn add_link(groups: &mut ByEnd, alloc: Global, link: HeldLink) -> Mem<()>
    ensures { OnOk result ((s : ℕ) → links_in (get ◌==◌ groups.new s)
        ≡ cond (link.to.0 == s) (links_in (get ◌==◌ groups.old link.to.0) ++ link ∷ []) (links_in (get ◌==◌ groups.old s))) }
{
    let mut group = match groups.remove(&link.to.0) {
        Some(group) => group,
        None => List::new(alloc),
    };
    group.push(link)?;
    groups.insert(link.to.0, group)?;
    Ok(())
}

/// The links by their ends.
fn by_end(alloc: Global, links: &[HeldLink]) -> Mem<ByEnd>
    ensures { IfOk result (λ groups. (found : TheList TheFound) → AreOpen links.now found groups) }
{
    let mut groups = HashMap::new(alloc);
    for link in links {
        add_link(&mut groups, alloc, *link)?;
    }
    Ok(groups)
}

/// Adds where each of the links begins, which ends at the place.
fn add_starts(found: &mut List<Found>, links: &[HeldLink], place: usize) -> Mem<()>
    ensures { OnOk result (found.new.items ≡ found.old.items ++ map (found_by place) links.now) }
{
    for link in links {
        found.push(Found {
            serial: link.from,
            by: link.at,
            next: place,
        })?;
    }
    Ok(())
}

/// Adds where each link begins that ends at a serial that was found, and takes these links out.
fn follow_back(found: &mut List<Found>, groups: &mut ByEnd, place: usize) -> Mem<()>
    requires place { place < length found.old.items }
    ensures open { OnOk result ((links : TheList TheLink) → AreOpen links found.old.items groups.old
        → AreOpen links found.new.items groups.new) }
    ensures chained { OnOk result ((links : TheList TheLink) (b : ℕ) → AreOpen links found.old.items groups.old
        → AreChained links b found.old.items → AreChained links b found.new.items) }
    ensures closed { OnOk result ((links : TheList TheLink) → AreOpen links found.old.items groups.old → (x : TheFound)
        → StandsAt found.old.items place x → IsClosed links found.new.items x.serial.0) }
    ensures kept { OnOk result ((rest : TheList TheFound) × (found.new.items ≡ found.old.items ++ rest)) }
{
    let serial = found.as_slice()[place].serial;
    match groups.remove(&serial.0) {
        Some(links) => add_starts(found, links.as_slice(), place),
        None => Ok(()),
    }
}

/// All serials from which links lead to one, that one first. Each link is looked at once.
pub(crate) fn all_found(alloc: Global, links: &[HeldLink], to: Serial) -> Mem<List<Found>>
    ensures { IfOk result (λ found. AreAllFound links.now to.0 found.items) }
{
    let mut groups = by_end(alloc, links)?;
    let mut found = List::new(alloc);
    let first = LinkRef {
        payload: 0,
        link: 0,
    };
    found.push(Found {
        serial: to,
        by: first,
        next: 0,
    })?;
    let mut done = 0;
    while done < found.as_slice().len() {
        follow_back(&mut found, &mut groups, done)?;
        done += 1;
    }
    Ok(found)
}

/// The first place of a serial among those found.
pub(crate) fn place_of(found: &[Found], serial: Serial) -> Option<usize>
    ensures place { IfSome result (λ place. (x : TheFound) × StandsAt found.now place x × (x.serial ≡ serial)) }
    ensures none { IfNone result (In serial.0 (serials_of found.now) → ⊥) }
{
    let mut place = 0;
    for one in found {
        if one.serial == serial {
            return Some(place);
        }
        place += 1;
    }
    None
}

/// The links that lead from the serial at a place to the first.
pub(crate) fn trail_from(alloc: Global, found: &[Found], place: usize) -> Mem<List<LinkRef>>
    requires place { place < length found.now }
    requires chained { (links : TheList TheLink) × ((b : ℕ) × AreChained links b found.now) }
    ensures { IfOk result (λ trail. (links : TheList TheLink) (b : ℕ) (x : TheFound) → AreChained links b found.now
        → StandsAt found.now place x → IsTrail links x.serial.0 b trail.items) }
{
    let mut trail = List::new(alloc);
    let mut at = place;
    while at > 0 {
        let one = found[at];
        trail.push(one.by)?;
        at = one.next;
    }
    Ok(trail)
}
