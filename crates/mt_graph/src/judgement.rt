//! What an exploration from the entries comes to.
ghost use Rattle.std.specs.Prelude.{◌≡◌, ◌⊎◌, ◌++◌, [], ◌∷◌, IfOk, OnOk, Some, ◌≤◌, slice_index};
ghost use Rattle.std.specs.Ordering.{nat_cmp};
ghost use Rattle.std.specs.Cmp.Lexicographic.{slice_cmp};
ghost use Rattle.std.specs.FinMap as map;
ghost use Rattle.std.specs.List.{enumerate_from, fold, list_all, slice_get, zip};
ghost use Rattle.std.specs.List.Sorted.{IsStrictlySortedBy};
ghost use Rattle.std.specs.Option.{option_map_or};
ghost use Rattle.mt_files.specs.Edges.{fault_of};
ghost use Rattle.mt_files.specs.Fresh.{decided};
ghost use Rattle.mt_transform.specs.Outputs.{places_of};
ghost use Rattle.mt_graph.specs.Founds.{paths_of};
ghost use Rattle.mt_graph.specs.Judged.{judged, judged_faults, link_fault, link_faults};
ghost use Rattle.mt_graph.specs.Members.{faults_of_all, is_file, member_faults, members_of, node_or_fault, settled, with_entry, with_found};

use crate::found::{Found, FoundList, LinkList};
use crate::graph::{Graph, Node};
use mt_containers::List;
use mt_files::{BuildFault, Target};
use mt_path::{Path, PathMap};
use mt_tokens::{Shared, SourceFault};
use mt_transform::{Name, Output};
use std::alloc::{AllocError, Global};

/// The most modules of a build.
pub const MAX_MODULES: usize = 65536;

/// The faults of a build.
pub type FaultList = List<BuildFault>;

/// What was found at a path that is to be a module.
#[derive(Drop)]
struct Member {
    made: Result<Shared<Output>, SourceFault>,
    links: LinkList,
}

/// What was found at each path that is to be a module: nothing at an entry that is missing.
type MemberMap = PathMap<Option<Member>>;

/// Whether each of these links leads to a source.
fn lead_to_sources(links: &LinkList) -> bool
    ensures exact { result ≡ list_all is_file links.now }
{
    links
        .iter()
        .all(|link| matches!(&*link.target, Target::File(_)))
}

/// One fault.
fn one_fault(alloc: Global, fault: BuildFault) -> Result<FaultList, AllocError>
    ensures one { IfOk result (λ faults. faults ≡ fault ∷ []) }
{
    let mut faults = FaultList::new(alloc);
    faults.push(fault)?;
    Ok(faults)
}

/// The fault of a name at this place that leads to this target.
fn fault_of_target(
    alloc: Global,
    path: &Path,
    name: &Name,
    place: u32,
    target: &Target,
) -> Result<FaultList, AllocError>
    ensures exact { IfOk result (λ faults. faults ≡ fault_of path.now (record { name = name.now.text; kind = name.now.kind; place = place }) target.now) }
{
    match target {
        Target::File(_) => Ok(FaultList::new(alloc)),
        Target::None => {
            let path = path.clone()?;
            let name = name.text.clone()?;
            one_fault(alloc, BuildFault::Unresolved { path, place, name })
        }
        Target::BadPackage(package) => {
            let path = path.clone()?;
            let package = package.clone()?;
            one_fault(
                alloc,
                BuildFault::Package {
                    path,
                    place,
                    package,
                },
            )
        }
    }
}

/// The place with the number `i`, 0 where there is none.
fn place_at(places: &[u32], i: usize) -> u32
    ensures exact { result ≡ slice_index places.now i }
{
    places.get(i).copied().unwrap_or(0)
}

/// Adds the fault of the name with the number `i`, where it leads to no source.
fn push_fault(
    alloc: Global,
    path: &Path,
    output: &Output,
    places: &[u32],
    links: &LinkList,
    i: usize,
    faults: &mut FaultList,
) -> Result<(), AllocError>
    requires places { places.now ≡ places_of output.now }
    ensures ok { OnOk result (faults.new ≡ faults.old ++ option_map_or (link_fault path.now output.now) (slice_get (enumerate_from 0 (zip output.now.names links.now)) i) []) }
{
    let Some(name) = output.names().get(i) else {
        return Ok(());
    };
    let Some(link) = links.get(i) else {
        return Ok(());
    };
    let place = place_at(places, i);
    faults.append(fault_of_target(alloc, path, name, place, &link.target)?)
}

/// The faults of an output's names. The source is read again, once, only where a name leads to no source.
fn faults_of_links(
    alloc: Global,
    path: &Path,
    output: &Output,
    links: &LinkList,
) -> Result<FaultList, AllocError>
    ensures exact { IfOk result (λ faults. faults ≡ link_faults path.now output.now links.now) }
{
    let mut faults = FaultList::new(alloc);
    if lead_to_sources(links) {
        return Ok(faults);
    }
    let places = output.places(alloc)?;
    for i in 0..links.len() {
        push_fault(
            alloc,
            path,
            output,
            places.as_slice(),
            links,
            i,
            &mut faults,
        )?;
    }
    Ok(faults)
}

/// The faults at a path that is to be a module.
fn faults_of_member(
    alloc: Global,
    path: &Path,
    member: &Option<Member>,
) -> Result<FaultList, AllocError>
    ensures exact { IfOk result (λ faults. faults ≡ member_faults path.now member.now) }
{
    let Some(Member { made, links }) = member else {
        return one_fault(
            alloc,
            BuildFault::EntryMissing {
                path: path.clone()?,
            },
        );
    };
    match made {
        Ok(output) => faults_of_links(alloc, path, output, links),
        Err(fault) => one_fault(
            alloc,
            BuildFault::Source {
                path: path.clone()?,
                fault: *fault,
            },
        ),
    }
}

/// The module of an output whose names have these links, or the first fault among them.
fn linked(
    alloc: Global,
    path: &Path,
    output: Shared<Output>,
    links: LinkList,
) -> Result<Node, BuildFault>
    ensures exact { (result ≡ Err BuildFault.NoMemory) ⊎ (result ≡ decided (record { output = output; links = links }) (link_faults path.now output links)) }
{
    let faults = faults_of_links(alloc, path, &output, &links)?;
    match faults.into_iter().next() {
        Some(fault) => Err(fault),
        None => Ok(Node { output, links }),
    }
}

/// The module at a path that is to be one, or its first fault.
fn node_of_member(alloc: Global, path: &Path, member: Option<Member>) -> Result<Node, BuildFault>
    ensures exact { (result ≡ Err BuildFault.NoMemory) ⊎ (result ≡ node_or_fault path.now member) }
{
    let Some(Member { made, links }) = member else {
        return Err(BuildFault::EntryMissing {
            path: path.clone()?,
        });
    };
    match made {
        Ok(output) => linked(alloc, path, output, links),
        Err(fault) => Err(BuildFault::Source {
            path: path.clone()?,
            fault,
        }),
    }
}

/// Nothing at each of the entries.
fn entry_members(alloc: Global, entries: &[Path]) -> Result<MemberMap, AllocError>
    ensures { IfOk result (λ members. members ≡ fold with_entry map.empty entries.now) }
{
    let mut members = MemberMap::new(alloc);
    for entry in entries {
        members.insert(entry.clone()?, None)?;
    }
    Ok(members)
}

/// The entries and what was found, by their paths.
fn members(alloc: Global, entries: &[Path], founds: FoundList) -> Result<MemberMap, AllocError>
    requires ascending { IsStrictlySortedBy (slice_cmp nat_cmp) (paths_of founds) }
    ensures exact { IfOk result (λ members. members ≡ members_of entries.now founds) }
{
    let mut members = entry_members(alloc, entries)?;
    for found in founds {
        let Found { path, made, links } = found;
        members.insert(path, Some(Member { made, links }))?;
    }
    Ok(members)
}

/// The modules of the members, or the first fault.
fn settle(alloc: Global, members: MemberMap) -> Result<Graph, BuildFault>
    ensures exact { (result ≡ Err BuildFault.NoMemory) ⊎ (result ≡ settled map.empty (map.entries members)) }
{
    let mut graph = Graph::new(alloc);
    for (path, member) in members {
        let node = node_of_member(alloc, &path, member)?;
        graph.insert(path, node)?;
    }
    Ok(graph)
}

/// The faults of the members, by ascending path and place.
fn faults_of_members(alloc: Global, members: &MemberMap) -> Result<FaultList, AllocError>
    ensures exact { IfOk result (λ faults. faults ≡ faults_of_all (map.entries members.now)) }
{
    let mut faults = FaultList::new(alloc);
    for (path, member) in members {
        faults.append(faults_of_member(alloc, path, member)?)?;
    }
    Ok(faults)
}

/// The graph of what was found from the entries, or the first fault: too many modules, or else the fault with the least
/// path and place among the entries at which nothing was found, the refused sources, and the names that lead to no source.
#[tactic(auto, using(crate::proofs::Members::settled_members))]
pub fn judge(alloc: Global, entries: &[Path], founds: FoundList) -> Result<Graph, BuildFault>
    requires ascending { IsStrictlySortedBy (slice_cmp nat_cmp) (paths_of founds) }
    ensures exact { (result ≡ Err BuildFault.NoMemory) ⊎ (result ≡ judged entries.now founds) }
{
    if founds.len() > MAX_MODULES {
        return Err(BuildFault::TooManyModules);
    }
    settle(alloc, members(alloc, entries, founds)?)
}

/// All faults of what was found from the entries, by ascending path and place; too many modules alone. Refused only where
/// memory runs out.
#[tactic(auto, using(crate::proofs::Members::faults_of_members))]
pub fn faults_found(
    alloc: Global,
    entries: &[Path],
    founds: FoundList,
) -> Result<FaultList, AllocError>
    requires ascending { IsStrictlySortedBy (slice_cmp nat_cmp) (paths_of founds) }
    ensures exact { IfOk result (λ faults. faults ≡ judged_faults entries.now founds) }
{
    if founds.len() > MAX_MODULES {
        return one_fault(alloc, BuildFault::TooManyModules);
    }
    faults_of_members(alloc, &members(alloc, entries, founds)?)
}
