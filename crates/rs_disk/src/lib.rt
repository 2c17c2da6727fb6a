//! A disk whose calls may fail, and what it leaves at a stop: the trait, a disk in memory, and one over a file.
#![tactic(auto)]

mod call;
mod disk;
mod file_disk;
mod image;
mod laws;
mod mem_disk;

pub use call::{Act, Arm, Call, State};
pub use disk::Disk;
pub use file_disk::FileDisk;
pub use laws::{content_is_an_image, crashes_leave_images, synced_disks_have_one_image};
pub use mem_disk::MemDisk;
