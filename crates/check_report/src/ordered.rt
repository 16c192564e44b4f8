//! Sorts broken links for people: files and targets in natural order.
ghost use Rattle.std.specs.Prelude.{◌≡◌, ◌++◌, IfOk, OnOk, flat_map, map, string_bytes};
ghost use Rattle.std.specs.List.{All};
ghost use Rattle.check_report.specs.Names.{target_name};
ghost use Rattle.check_report.specs.Order.{bare_of, bare_targets, kind_rank, link_of, links_by_file, links_to, named_cmp, ordered_places, ordered_targets, place_cmp, places_by_file, shown_places, targets_by_name};
ghost use Rattle.check_report.specs.declared.ordered.Named.{Named};

use crate::names::target_name;
use crate::natural::natural_cmp;
use crate::put::NoMemory;
use crate::value::{Broken, Kind, Place};
use crate::view::Order;
use std::alloc::Global;
use std::cmp::Ordering;

/// The number of locations of a target that a report lists if it does not list all.
pub const PLACES_LIMIT: usize = 3;

// ---- locations

/// The locations in this order.
pub fn ordered_places(
    alloc: Global,
    places: &[Place],
    order: Order,
) -> Result<Vec<&Place>, NoMemory>
    ensures { IfOk result (λ ordered. map (λ place. place.now) ordered.items ≡ ordered_places order places.now) }
{
    match order {
        Order::Given => references(alloc, places),
        Order::Target | Order::File => places_by_file(alloc, places),
    }
}

/// The locations by file, line and column.
fn places_by_file(alloc: Global, places: &[Place]) -> Result<Vec<&Place>, NoMemory>
    ensures { IfOk result (λ sorted. map (λ place. place.now) sorted.items ≡ places_by_file places.now) }
{
    let mut sorted = references(alloc, places)?;
    sorted.sort_by(|a, b| place_cmp(*a, *b))?;
    Ok(sorted)
}

/// A reference to each, in the given order.
fn references<T>(alloc: Global, items: &[T]) -> Result<Vec<&T>, NoMemory>
    ensures { IfOk result (λ all. map (λ item. item.now) all.items ≡ items.now) }
{
    items.iter().collect(alloc)
}

/// Compares two locations by file, line and column.
fn place_cmp(a: &Place, b: &Place) -> Ordering
    ensures { result ≡ place_cmp a.now b.now }
{
    let position = a.line.cmp(&b.line).then(a.column.cmp(&b.column));
    natural_cmp(a.file.as_str(), b.file.as_str()).then(position)
}

/// The locations that are listed: the first ones, or all of them.
pub fn shown_places<'s, 'r>(places: &'s [&'r Place], all: bool) -> &'s [&'r Place]
    ensures { result.now ≡ shown_places all places.now }
{
    if all || places.len() <= PLACES_LIMIT {
        places
    } else {
        &places[..PLACES_LIMIT]
    }
}

// ---- targets

/// A target and its name.
#[derive(Drop)]
struct Named<'r> {
    broken: &'r Broken,
    name: String,
}

/// The targets in this order.
pub fn ordered_targets(
    alloc: Global,
    targets: &[Broken],
    order: Order,
) -> Result<Vec<&Broken>, NoMemory>
    ensures { IfOk result (λ ordered. map (λ target. target.now) ordered.items ≡ ordered_targets order targets.now) }
{
    match order {
        Order::Given => references(alloc, targets),
        Order::Target | Order::File => targets_by_name(alloc, targets),
    }
}

/// The targets by kind and name.
fn targets_by_name(alloc: Global, targets: &[Broken]) -> Result<Vec<&Broken>, NoMemory>
    ensures { IfOk result (λ sorted. map (λ target. target.now) sorted.items ≡ targets_by_name targets.now) }
{
    let mut named = with_names(alloc, targets)?;
    named.sort_by(|a, b| named_cmp(a, b))?;
    targets_of(alloc, named.as_slice())
}

/// The targets with their names.
#[tactic(auto, using(crate::proofs::Sorting::targets_more, crate::proofs::Sorting::named_more))]
fn with_names(alloc: Global, targets: &[Broken]) -> Result<Vec<Named<'_>>, NoMemory>
    ensures targets { IfOk result (λ all. map (λ one. one.broken.now) all.items ≡ targets.now) }
    ensures names { IfOk result (λ all. All (λ one. string_bytes one.name ≡ target_name one.broken.now) all.items) }
{
    let mut all = Vec::new(alloc);
    for broken in targets {
        let name = target_name(alloc, broken)?;
        all.push(Named { broken, name })?;
    }
    Ok(all)
}

/// Compares two targets by kind and name.
fn named_cmp(a: &Named<'_>, b: &Named<'_>) -> Ordering
    ensures { result ≡ named_cmp a.now b.now }
{
    let names = natural_cmp(a.name.as_str(), b.name.as_str());
    kind_rank(a.broken.kind)
        .cmp(&kind_rank(b.broken.kind))
        .then(names)
}

/// The rank of a kind: missing pages, missing anchors, invalid links, links that lead out of the site.
fn kind_rank(kind: Kind) -> u8
    ensures { result ≡ kind_rank kind }
{
    match kind {
        Kind::NoPage => 0,
        Kind::NoAnchor => 1,
        Kind::NotUrl | Kind::UnknownScheme | Kind::LocalFile => 2,
        Kind::Leaves | Kind::OutsideBase | Kind::NotInMap => 3,
    }
}

/// The targets without their names.
fn targets_of<'r>(alloc: Global, named: &[Named<'r>]) -> Result<Vec<&'r Broken>, NoMemory>
    ensures { IfOk result (λ all. map (λ target. target.now) all.items ≡ map (λ one. one.broken.now) named.now) }
{
    let mut all = Vec::new(alloc);
    for one in named {
        all.push(one.broken)?;
    }
    Ok(all)
}

/// The targets without locations.
pub fn bare_targets<'r>(alloc: Global, targets: &[&'r Broken]) -> Result<Vec<&'r Broken>, NoMemory>
    ensures { IfOk result (λ bare. map (λ target. target.now) bare.items ≡ bare_targets (map (λ target. target.now) targets.now)) }
{
    let mut bare = Vec::new(alloc);
    for target in targets {
        push_bare(*target, &mut bare)?;
    }
    Ok(bare)
}

/// Appends the target if it has no locations.
fn push_bare<'r>(target: &'r Broken, bare: &mut Vec<&'r Broken>) -> Result<(), NoMemory>
    ensures { OnOk result (map (λ target. target.now) bare.new.items ≡ map (λ target. target.now) bare.old.items ++ bare_of target.now) }
{
    if target.places.len() > 0 {
        return Ok(());
    }
    bare.push(target)?;
    Ok(())
}

// ---- links

/// A broken link: its target and its location.
#[derive(Clone, Copy)]
pub struct Link<'r> {
    pub target: &'r Broken,
    pub place: &'r Place,
}

/// The links to these targets by file, line and column: three links to each target, or all of them.
pub fn links_by_file<'r>(
    alloc: Global,
    targets: &[&'r Broken],
    all: bool,
) -> Result<Vec<Link<'r>>, NoMemory>
    ensures { IfOk result (λ links. map link_of links.items ≡ links_by_file all (map (λ target. target.now) targets.now)) }
{
    let mut links = links_to_all(alloc, targets, all)?;
    links.sort_by(|a, b| place_cmp(a.place, b.place))?;
    Ok(links)
}

/// The links to these targets, one target after the other.
fn links_to_all<'r>(
    alloc: Global,
    targets: &[&'r Broken],
    all: bool,
) -> Result<Vec<Link<'r>>, NoMemory>
    ensures { IfOk result (λ links. map link_of links.items ≡ flat_map (λ target. links_to all target.now) targets.now) }
{
    let mut links = Vec::new(alloc);
    for target in targets {
        push_links(alloc, *target, all, &mut links)?;
    }
    Ok(links)
}

/// Appends the links to this target: the first three by file, line and column, or all of them.
#[tactic(auto, using(crate::proofs::Sorting::pushed_links))]
fn push_links<'r>(
    alloc: Global,
    target: &'r Broken,
    all: bool,
    links: &mut Vec<Link<'r>>,
) -> Result<(), NoMemory>
    ensures { OnOk result (map link_of links.new.items ≡ map link_of links.old.items ++ links_to all target.now) }
{
    let places = places_by_file(alloc, target.places.as_slice())?;
    let shown = shown_places(places.as_slice(), all);
    for place in shown {
        links.push(Link {
            target,
            place: *place,
        })?;
    }
    Ok(())
}
