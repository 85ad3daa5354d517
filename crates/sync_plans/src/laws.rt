//! A law.
ghost use Rattle.std.specs.Prelude.{◌≡◌, ◌≤◌, ◌<◌, ℕ, true, List, Option};
ghost use Rattle.vm_types.specs.declared.file.FileInfo.{FileInfo};
ghost use Rattle.disk_model.specs.Stop.{Image};
ghost use Rattle.stores.specs.Images.{is_pool, StandsFor};

/// It does nothing: its contract is a law. It is what `kefs_resize` of the C library relies on where it lengthens the host file: an image of a store with
/// a pool stands on more sectors for the files that it stood for, whatever the new sectors hold.
pub fn longer_images_stand_as_before()
    ensures { (shorter longer : ℕ) (files : ℕ → Option FileInfo) (pages : ℕ → ℕ → List ℕ) (old new : Image) → shorter ≤ longer
        → is_pool old ≡ true → ((k : ℕ) → k < shorter → new k ≡ old k) → StandsFor shorter files pages old → StandsFor longer files pages new }
{}
