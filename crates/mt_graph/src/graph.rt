//! The modules of a build.
ghost use Rattle.std.specs.Prelude.{◌≡◌, IfOk};
ghost use Rattle.std.specs.FinMap as map;

use crate::found::LinkList;
use mt_path::{PathList, PathMap};
use mt_tokens::Shared;
use mt_transform::Output;
use std::alloc::{AllocError, Global};

/// A module of a build: what its source became, and where each of its names leads.
#[derive(Drop)]
pub struct Node {
    pub output: Shared<Output>,
    pub links: LinkList,
}

/// The modules of a build by their paths.
pub type Graph = PathMap<Node>;

/// The paths of the modules, ascending. Refused only where memory runs out.
pub fn module_paths(alloc: Global, graph: &Graph) -> Result<PathList, AllocError>
    ensures paths { IfOk result (λ paths. paths ≡ map.keys graph.now) }
{
    let mut paths = PathList::new(alloc);
    for path in graph.keys() {
        paths.push(path.clone()?)?;
    }
    Ok(paths)
}
