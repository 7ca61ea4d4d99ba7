//! A disk over the files of a folder: the edge of the store.
#![tactic(auto)]

mod folder;
mod folder_disk;
mod handle;
mod lock;
mod names;

pub use folder_disk::FolderDisk;
pub use lock::TryLock;
