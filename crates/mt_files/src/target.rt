//! Where names lead.
use mt_containers::Shared;
use mt_path::Path;

/// Where a name leads.
#[derive(Debug, Drop)]
pub enum Target {
    /// The source file with this path.
    File(Path),
    /// Nowhere.
    None,
    /// To a package whose file, of this path, can't be read.
    BadPackage(Path),
}

/// A name of a module, by where it leads.
#[derive(Drop)]
pub struct Link {
    /// Where it leads. Names that lead there from the same folder share it.
    pub target: Shared<Target>,
}
