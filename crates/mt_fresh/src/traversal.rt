//! An explorer without threads.
ghost use Rattle.std.specs.Prelude.{◌≡◌, ◌≤◌, ◌++◌, ◌||◌, [], ◌∷◌, length, map as mapped, IfOk, OnOk, true};
ghost use Rattle.std.specs.List.{All, fold};
ghost use Rattle.std.specs.FinMap as map;
ghost use Rattle.mt_tokens.specs.Sources.{max_source_bytes};
ghost use Rattle.mt_files.specs.Snapshots.{has_source};
ghost use Rattle.mt_files.specs.PathSets.{with_paths};
ghost use Rattle.mt_graph.specs.Founds.{link_of, links_of, made_of};
ghost use Rattle.mt_graph.specs.Explored.{IsExploration, explored};
ghost use Rattle.mt_resolve.specs.Resolvers.{IsSound, files_in, options_in};
ghost use Rattle.mt_fresh.specs.Visits.{found_of, is_new, visit_of, visits_of, waiting_with, waiting_with_all};

use mt_files::{FileMap, Link, Target, path_kind};
use mt_graph::{Explorer, Found, FoundList, LinkList};
use mt_package::Options;
use mt_path::{Path, PathMap, PathSet};
use mt_resolve::Resolver;
use mt_tokens::{Bytes, Shared, SourceFault};
use mt_transform::{NameList, Output, transform};
use std::alloc::{AllocError, Global};

/// What became of the source at a path, and where the names of that lead.
#[derive(Drop)]
struct Visit {
    made: Result<Shared<Output>, SourceFault>,
    links: LinkList,
}

/// The modules visited, by their paths.
type VisitMap = PathMap<Visit>;

/// What becomes of the source at a path. Refused only where memory runs out.
fn make(
    alloc: Global,
    options: &Options,
    path: &Path,
    source: &Shared<Bytes>,
) -> Result<Result<Shared<Output>, SourceFault>, AllocError>
    requires small { length source.now ≤ max_source_bytes }
    ensures exact { IfOk result (λ made. made ≡ made_of options.now path.now source.now) }
{
    match transform(alloc, options, path_kind(path), source.clone()?) {
        Ok(output) => Ok(Ok(Shared::new(alloc, output)?)),
        Err(SourceFault::NoMemory) => Err(AllocError),
        Err(fault) => Ok(Err(fault)),
    }
}

/// Where the names of the module at a path lead.
fn resolve_names(
    alloc: Global,
    resolver: &mut Resolver,
    path: &Path,
    names: &NameList,
) -> Result<LinkList, AllocError>
    requires sound { IsSound resolver.old }
    ensures exact { IfOk result (λ links. links ≡ mapped (link_of (options_in resolver.old) (files_in resolver.old) path.now) names.now) }
    ensures files { files_in resolver.new ≡ files_in resolver.old }
    ensures options { options_in resolver.new ≡ options_in resolver.old }
    ensures sound { IsSound resolver.new }
{
    let mut links = LinkList::new(alloc);
    for name in names.as_slice() {
        let target = resolver.target(alloc, path, &name.text, name.kind)?;
        links.push(Link { target })?;
    }
    Ok(links)
}

/// Visits the module at a path that has this source.
fn visit_source(
    alloc: Global,
    options: &Options,
    resolver: &mut Resolver,
    path: &Path,
    source: &Shared<Bytes>,
) -> Result<Visit, AllocError>
    requires small { length source.now ≤ max_source_bytes }
    requires sound { IsSound resolver.old }
    requires options { options_in resolver.old ≡ options.now }
    ensures exact { IfOk result (λ visit. visit ≡ visit_of options.now (files_in resolver.old) path.now source.now) }
    ensures files { files_in resolver.new ≡ files_in resolver.old }
    ensures options { options_in resolver.new ≡ options_in resolver.old }
    ensures sound { IsSound resolver.new }
{
    match make(alloc, options, path, source)? {
        Ok(output) => {
            let links = resolve_names(alloc, resolver, path, output.names())?;
            Ok(Visit {
                made: Ok(output),
                links,
            })
        }
        Err(fault) => Ok(Visit {
            made: Err(fault),
            links: LinkList::new(alloc),
        }),
    }
}

/// Whether a path to which the module `origin` leads is neither known, nor visited, nor `origin`, nor waits already.
fn is_new_target(
    path: &Path,
    origin: &Path,
    known: &PathSet,
    visits: &VisitMap,
    waiting: &PathSet,
) -> bool
    ensures exact { result ≡ is_new origin.now known.now visits.now waiting.now path.now }
{
    path != origin && !known.contains(path) && !visits.contains(path) && !waiting.contains(path)
}

/// Lets the source to which a link of the module `origin` leads wait, where it is new.
fn add_target(
    link: &Link,
    origin: &Path,
    known: &PathSet,
    visits: &VisitMap,
    waiting: &mut PathSet,
) -> Result<(), AllocError>
    ensures ok { OnOk result (waiting.new ≡ waiting_with origin.now known.now visits.now waiting.old link.now.target) }
{
    let Target::File(path) = &*link.target else {
        return Ok(());
    };
    if !is_new_target(path, origin, known, visits, waiting) {
        return Ok(());
    }
    waiting.insert(path.clone()?, ())
}

/// Lets each new source to which the module `origin` leads wait.
fn add_targets(
    links: &LinkList,
    origin: &Path,
    known: &PathSet,
    visits: &VisitMap,
    waiting: &mut PathSet,
) -> Result<(), AllocError>
    ensures ok { OnOk result (waiting.new ≡ waiting_with_all origin.now known.now visits.now waiting.old links.now) }
{
    for link in links.as_slice() {
        add_target(link, origin, known, visits, waiting)?;
    }
    Ok(())
}

/// A set of these paths.
fn set_of(alloc: Global, paths: &[Path]) -> Result<PathSet, AllocError>
    ensures set { IfOk result (λ set. set ≡ with_paths map.empty paths.now) }
{
    let mut set = PathSet::new(alloc);
    for path in paths {
        set.insert(path.clone()?, ())?;
    }
    Ok(set)
}

/// Visits the modules to which the seeds lead.
fn visit_all(
    alloc: Global,
    files: &FileMap,
    options: &Options,
    seeds: &[Path],
    known: &PathSet,
) -> Result<VisitMap, AllocError>
    requires sources { All (λ seed. has_source files.now seed ≡ true) seeds.now }
    ensures exact { IfOk result (λ visits. visits ≡ visits_of options.now files.now seeds.now known.now) }
{
    let mut visits = VisitMap::new(alloc);
    let mut resolver = Resolver::new(alloc, files, options)?;
    let mut waiting = set_of(alloc, seeds)?;
    for _turn in 0..u64::MAX {
        let Some((path, ())) = waiting.pop_first() else {
            return Ok(visits);
        };
        let Some(source) = files.source(&path) else {
            continue;
        };
        let visit = visit_source(alloc, options, &mut resolver, &path, source)?;
        add_targets(&visit.links, &path, known, &visits, &mut waiting)?;
        visits.insert(path, visit)?;
    }
    // No run gets here: no memory holds the paths of 2^64 - 1 turns.
    Err(AllocError)
}

/// What was visited, by ascending path.
fn founds_of(alloc: Global, visits: VisitMap) -> Result<FoundList, AllocError>
    ensures exact { IfOk result (λ founds. founds ≡ mapped found_of (map.entries visits)) }
{
    let mut founds = FoundList::new(alloc);
    for (path, visit) in visits {
        let Visit { made, links } = visit;
        founds.push(Found { path, made, links })?;
    }
    Ok(founds)
}

/// An explorer that visits one module after another.
#[derive(Debug, Drop)]
pub struct Traversal;

impl Explorer for Traversal {
    ghost sure = { λ _. Unit {0} };

    fn explore(
        &mut self,
        alloc: Global,
        files: &FileMap,
        options: &Options,
        seeds: &[Path],
        known: &PathSet,
    ) -> Result<FoundList, AllocError> {
        founds_of(alloc, visit_all(alloc, files, options, seeds, known)?)
    }
}
