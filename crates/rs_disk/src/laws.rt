//! Laws of disks. A law's claim is its contract, and its body is empty.

ghost use Rattle.rs_disk.specs.Laws.{SyncedHasOneImage, ContentIsImage, CrashIsImage};

/// Proves that a synced disk has one image, its content.
pub fn synced_disks_have_one_image()
    ensures { SyncedHasOneImage }
{}

/// Proves that what a read gives is always one of the images.
pub fn content_is_an_image()
    ensures { ContentIsImage }
{}

/// Proves that what a crash of a disk in memory leaves is one of the images.
pub fn crashes_leave_images()
    ensures { CrashIsImage }
{}
