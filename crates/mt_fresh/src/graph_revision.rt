//! The revision of a graph under a numbering.
ghost use Rattle.std.specs.Prelude.{◌≡◌, ◌<◌, ◌≤◌, ℕ, true, List, Ok, length, map, IfOk, OnOk, option_copied};
ghost use Rattle.std.specs.List.{list_all};
ghost use Rattle.std.specs.Option.{IfSome, option_map_or};
ghost use Rattle.std.specs.FinMap.{insert};
ghost use Rattle.mt_files.specs.Asks.{Ask};
ghost use Rattle.mt_files.specs.Reach.{reach};
ghost use Rattle.mt_files.specs.Snapshots.{Snapshot};
ghost use Rattle.mt_graph.specs.Graphs.{fresh_graph};
ghost use Rattle.mt_revision.specs.Numberings.{has_path, number_in, place_in};
ghost use Rattle.mt_revision.specs.Revisions.{WasMadeAfter, made_after};
ghost use Rattle.mt_revision.specs.Contents.{HasContent, numbers_of, revision_after, slot_of};
ghost use Rattle.mt_fresh.specs.GraphRevisions.{module_of_node, modules_of_graph, slot_of_link};

use mt_containers::{List, Shared};
use mt_files::{Link, Target};
use mt_graph::{Graph, Node};
use mt_package::Options;
use mt_path::Path;
use mt_revision::{Module, ModuleMap, Numbering, Revision};
use mt_write::Slot;
use std::alloc::{AllocError, Global};

/// The number of a path, or how many paths there are where it has none.
fn number_or_len(numbering: &Numbering, path: &Path) -> u32
    ensures number { result ≡ number_in numbering.now path.now }
{
    match numbering.number_of(path) {
        Some(number) => number,
        None => numbering.len(),
    }
}

/// The numbers of paths.
fn numbers_of(alloc: Global, numbering: &Numbering, paths: &[Path]) -> Result<List<u32>, AllocError>
    ensures numbers { IfOk result (λ numbers. numbers ≡ numbers_of numbering.now paths.now) }
{
    let mut numbers = List::new(alloc);
    for path in paths {
        numbers.push(number_or_len(numbering, path))?;
    }
    Ok(numbers)
}

/// The slot of a name that leads to a target.
fn slot_of(numbering: &Numbering, target: &Target) -> Slot
    ensures slot { result ≡ slot_of numbering.now target.now }
{
    match target {
        Target::File(path) => Slot::Module(number_or_len(numbering, path)),
        Target::None => Slot::Empty,
        Target::BadPackage(_) => Slot::Empty,
    }
}

/// The slots of links.
fn slots_of(alloc: Global, numbering: &Numbering, links: &[Link]) -> Result<List<Slot>, AllocError>
    ensures slots { IfOk result (λ slots. slots ≡ map (slot_of_link numbering.now) links.now) }
{
    let mut slots = List::new(alloc);
    for link in links {
        slots.push(slot_of(numbering, &link.target))?;
    }
    Ok(slots)
}

/// The module of a node.
fn module_of_node(
    alloc: Global,
    numbering: &Numbering,
    path: Path,
    node: Node,
) -> Result<Module, AllocError>
    ensures made { IfOk result (λ m. m ≡ module_of_node numbering.now path node) }
{
    let slots = slots_of(alloc, numbering, node.links.as_slice())?;
    Ok(Module {
        path,
        output: node.output,
        slots,
    })
}

/// Keeps the module of a node under the number of its path, if the path has one.
fn keep_module(
    alloc: Global,
    numbering: &Numbering,
    modules: &mut ModuleMap,
    path: Path,
    node: Node,
) -> Result<(), AllocError>
    requires few { length numbering.now ≤ 327680 }
    ensures kept { OnOk result (modules.new ≡ option_map_or (λ number. insert modules.old number (module_of_node numbering.now path node)) (place_in numbering.now path) modules.old) }
{
    let Some(number) = numbering.number_of(&path) else {
        return Ok(());
    };
    let made = module_of_node(alloc, numbering, path, node)?;
    modules.insert(number, Shared::new(alloc, made)?)
}

/// The modules of a graph under the numbers of their paths.
fn modules_of_graph(
    alloc: Global,
    numbering: &Numbering,
    graph: Graph,
) -> Result<ModuleMap, AllocError>
    requires few { length numbering.now ≤ 327680 }
    ensures modules { IfOk result (λ modules. modules ≡ modules_of_graph numbering.now graph) }
{
    let mut modules = ModuleMap::new(alloc);
    for (path, node) in graph {
        keep_module(alloc, numbering, &mut modules, path, node)?;
    }
    Ok(modules)
}

/// The revision of a graph that comes after another one, or the first: it has each module of the graph whose path has a
/// number. Where the graph is the fresh one of a snapshot and each of its modules has a number, the revision has what is
/// asked for of that snapshot. Refused only where memory runs out.
pub fn revision_of_graph(
    alloc: Global,
    before: Option<&Revision>,
    options: &Options,
    changes: u32,
    numbering: &Numbering,
    entries: &[Path],
    graph: Graph,
) -> Result<Revision, AllocError>
    requires number { IfSome (option_copied before) (λ b. b.number < 4294967295) }
    requires dev { IfSome (option_copied before) (λ b. b.dev ≡ options.now.dev) }
    requires few { length numbering.now ≤ 327680 }
    ensures exact { IfOk result (λ r. r ≡ made_after (option_copied before.entry) options.now.dev changes (numbers_of numbering.now entries.now) (modules_of_graph numbering.now graph)) }
    ensures made { IfOk result (λ r. WasMadeAfter (option_copied before.entry) r) }
    ensures fresh { (ask : Ask) (files : Snapshot) → ask ≡ record { options = options.now; entries = entries.now }
        → fresh_graph ask files ≡ Ok graph → list_all (has_path numbering.now) (reach ask files) ≡ true
        → IfOk result (λ r. r ≡ revision_after ask (option_copied before.entry) changes numbering.now files) }
    ensures content { (ask : Ask) (files : Snapshot) → ask ≡ record { options = options.now; entries = entries.now }
        → fresh_graph ask files ≡ Ok graph → list_all (has_path numbering.now) (reach ask files) ≡ true
        → IfOk result (λ r. HasContent ask r numbering.now files) }
{
    let numbers = numbers_of(alloc, numbering, entries)?;
    let modules = modules_of_graph(alloc, numbering, graph)?;
    Revision::make(alloc, before, options.dev, changes, numbers, modules)
}
