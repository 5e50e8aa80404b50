//! A snapshot of a folder's files, the crawl that makes one, its changes and their journal, and what a fresh build of
//! it is.
#![tactic(auto)]

mod build_fault;
mod change;
mod crawler;
mod difference;
mod fault;
mod fault_texts;
mod file_map;
mod journal;
mod kind;
mod law;
mod search;
mod target;

pub use build_fault::BuildFault;
pub use change::{Change, ChangeList};
pub use crawler::{MAX_FILES, MAX_FOLDER_BYTES, crawl};
pub use difference::rescan;
pub use fault::CrawlFault;
pub use fault_texts::fault_text;
pub use file_map::{Entry, FileMap};
pub use journal::{Journal, JournalFault, MAX_CHANGES, MAX_JOURNAL_BYTES};
pub use kind::path_kind;
pub use law::{law_of_crawls, law_of_limits, law_of_reach, law_of_rescans};
pub use target::{Link, Target};
