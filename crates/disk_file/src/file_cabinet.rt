//! Stores in folders.

ghost use Rattle.std.specs.Prelude.{◌≡◌, ◌↔◌, ◌≤◌, ℕ, List, None, IfOk, IsErr};
ghost use Rattle.disk_file.specs.Names.{IsNamed};
ghost use Rattle.disk_model.specs.Cabinet.{AreSized, GoesOut, OneLessOut};
ghost use Rattle.disk_model.specs.Cause.{HasCause, Rose};

use crate::file_disk::FileDisk;
use crate::names::{add_name, has_name, remove_name};
use disk_model::{Cabinet, Failed, Four, Sizes};
use std::alloc::Global;
use std::fs::{self, File, Files, OpenOptions};
use std::io;

/// Keeps each store in the files log, pages, pagelog and maplog of its folder.
#[derive(Drop)]
pub struct FileCabinet<R: Files<File = File> + Drop> {
    alloc: Global,
    files: R,
    out: Vec<String>,
    faults: u64,
}

impl<R: Files<File = File> + Drop> FileCabinet<R> {
    /// The folders of this system. No store is out.
    pub fn new(alloc: Global, files: R) -> FileCabinet<R>
        ensures faults { ⟦<FileCabinet<R> as Cabinet>⟧.faults result ≡ 0 }
        ensures out { (name : List ℕ) → ⟦<FileCabinet<R> as Cabinet>⟧.is_out result name → ⊥ }
    {
        FileCabinet {
            alloc,
            files,
            out: Vec::new(alloc),
            faults: 0,
        }
    }

    // Hands out the devices of a store that is not out.
    #[tactic(auto, using(crate::proofs::Listed::goes_out, crate::proofs::Listed::goes_not_out))]
    fn hand_out(
        &mut self,
        dir: &str,
        four: io::Result<Four<FileDisk>>,
    ) -> Result<Four<FileDisk>, Failed>
        ensures cause { HasCause self.old.faults self.new.faults result }
        ensures out { GoesOut dir.now (IsNamed self.old.out.items) (IsNamed self.new.out.items) result }
        ensures same { IfOk result (λ taken. IfOk four (λ given. taken ≡ given)) }
        ensures given { IsErr four → IsErr result }
    {
        if let Ok(four) = four
            && let Ok(name) = String::from_str(self.alloc, dir)
            && add_name(&mut self.out, name).is_ok()
        {
            return Ok(four);
        }
        Err(self.fault())
    }

    // Counts a failed call.
    fn fault(&mut self) -> Failed
        ensures later { self.old.faults ≤ self.new.faults }
        ensures rose { Rose self.old.faults self.new.faults }
        ensures same { self.new.out ≡ self.old.out }
    {
        self.faults = self.faults.saturating_add(1);
        Failed
    }
}

// The file of that name in the folder, opened as `options` say.
fn open(
    files: &impl Files<File = File>,
    alloc: Global,
    options: &OpenOptions,
    dir: &str,
    name: &str,
) -> io::Result<File> {
    let path = format!(in alloc; "{dir}/{name}")?;
    options.open(files, path.as_str())
}

// The devices of the store in that folder.
fn open_store(
    files: &impl Files<File = File>,
    alloc: Global,
    dir: &str,
) -> io::Result<Four<FileDisk>> {
    let mut options = OpenOptions::new();
    options.read(true).write(true);
    Ok(Four {
        log: FileDisk::over(open(files, alloc, &options, dir, "log")?)?,
        pages: FileDisk::over(open(files, alloc, &options, dir, "pages")?)?,
        pagelog: FileDisk::over(open(files, alloc, &options, dir, "pagelog")?)?,
        maplog: FileDisk::over(open(files, alloc, &options, dir, "maplog")?)?,
    })
}

// Syncs a folder, so that the system keeps the names in it.
fn sync_folder(files: &impl Files<File = File>, dir: &str) -> io::Result<()> {
    File::open(files, dir)?.sync_all()
}

// The devices of a new store in that folder, which is made if it is missing; all bytes are 0.
fn make_store(
    files: &impl Files<File = File>,
    alloc: Global,
    dir: &str,
    sizes: Sizes,
) -> io::Result<Four<FileDisk>>
    ensures { IfOk result (λ four. AreSized (λ disk. disk.size) sizes four) }
{
    fs::create_dir_all(files, dir)?;
    let mut options = OpenOptions::new();
    options.read(true).write(true).create(true).truncate(true);
    let four = Four {
        log: FileDisk::sized(open(files, alloc, &options, dir, "log")?, sizes.log_bytes())?,
        pages: FileDisk::sized(
            open(files, alloc, &options, dir, "pages")?,
            sizes.pages_bytes(),
        )?,
        pagelog: FileDisk::sized(
            open(files, alloc, &options, dir, "pagelog")?,
            sizes.pagelog_bytes(),
        )?,
        maplog: FileDisk::sized(
            open(files, alloc, &options, dir, "maplog")?,
            sizes.maplog_bytes(),
        )?,
    };
    sync_folder(files, dir)?;
    let above = format!(in alloc; "{dir}/..")?;
    sync_folder(files, above.as_str())?;
    Ok(four)
}

impl<R: Files<File = File> + Drop> Cabinet for FileCabinet<R> {
    type Device = FileDisk;

    ghost faults = { λ cabinet. cabinet.faults };

    ghost is_out = { λ cabinet. IsNamed cabinet.out.items };

    ghost tells = { λ _. ⊥ };

    ghost store = { λ _ _. None };

    ghost none_out = { λ _ _ no _. absurd no };

    fn faults(&self) -> u64 {
        self.faults
    }

    #[tactic(auto, using(crate::proofs::Listed::goes_not_out))]
    fn fetch(&mut self, dir: &str) -> Result<Four<FileDisk>, Failed> {
        if has_name(&self.out, dir) {
            return Err(self.fault());
        }
        let four = open_store(&self.files, self.alloc, dir);
        self.hand_out(dir, four)
    }

    #[tactic(auto, using(crate::proofs::Listed::goes_not_out))]
    fn create(&mut self, dir: &str, sizes: Sizes) -> Result<Four<FileDisk>, Failed> {
        if has_name(&self.out, dir) {
            return Err(self.fault());
        }
        let four = make_store(&self.files, self.alloc, dir, sizes);
        self.hand_out(dir, four)
    }

    #[tactic(auto, using(crate::proofs::Listed::comes_back))]
    fn put_back(&mut self, dir: &str, four: Four<FileDisk>)
        requires { IsNamed self.old.out.items dir.now }
        ensures faults { self.new.faults ≡ self.old.faults }
        ensures out { OneLessOut dir.now (IsNamed self.old.out.items) (IsNamed self.new.out.items) }
    {
        drop(four);
        remove_name(&mut self.out, dir);
    }
}
