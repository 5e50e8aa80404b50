//! What an exploration finds.
use mt_containers::List;
use mt_files::Link;
use mt_path::Path;
use mt_tokens::{Shared, SourceFault};
use mt_transform::Output;

/// Where the names of a module lead, in their order.
pub type LinkList = List<Link>;

/// What was found at a path that has a source.
#[derive(Drop)]
pub struct Found {
    /// The path.
    pub path: Path,
    /// What its source became, or why it is refused.
    pub made: Result<Shared<Output>, SourceFault>,
    /// Where the names of the output lead; nowhere after a refusal.
    pub links: LinkList,
}

/// What was found at some paths.
pub type FoundList = List<Found>;
