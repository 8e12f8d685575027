//! A device over a file.

ghost use Rattle.std.specs.Prelude.{◌≡◌, ◌≤◌, [], IfOk};
ghost use Rattle.disk_model.specs.Cause.{HasCause};

use disk_model::{Disk, Failed};
use std::fs::File;
use std::io;
use std::os::unix::fs::FileExt;

// How many bytes of a new file are written at once.
const CHUNK: u64 = 16384;

/// A device over an open file, of the length that the file had. Each call that the system refuses is a fault.
#[derive(Debug, Drop)]
pub struct FileDisk {
    file: File,
    size: u64,
    faults: u64,
}

impl FileDisk {
    /// The device of a file that is open for reading and writing.
    pub fn over(file: File) -> io::Result<FileDisk>
        ensures { IfOk result (λ disk. disk.faults ≡ 0) }
    {
        let size = file.metadata()?.len();
        Ok(FileDisk {
            file,
            size,
            faults: 0,
        })
    }

    /// The device of an empty file that is open for reading and writing: that many bytes, all of them 0, which the
    /// system was told to keep. They are written, so that the file has its room on the system's disk from the start: no
    /// later write wants more, and a sync has bytes alone to keep.
    pub fn sized(file: File, size: u64) -> io::Result<FileDisk>
        ensures { IfOk result (λ disk. ⟦<FileDisk as Disk>⟧.extent disk ≡ size) }
    {
        write_zeros(&file, size)?;
        file.sync_all()?;
        Ok(FileDisk {
            file,
            size,
            faults: 0,
        })
    }

    // The answer of a call of the system; a refused one is counted.
    fn counted(&mut self, answer: io::Result<()>) -> Result<(), Failed>
        ensures cause { HasCause self.old.faults self.new.faults result }
        ensures size { self.new.size ≡ self.old.size }
    {
        match answer {
            Ok(()) => Ok(()),
            Err(_) => {
                self.faults = self.faults.saturating_add(1);
                Err(Failed)
            }
        }
    }
}

// Writes that many bytes from the beginning of a file, all of them 0.
fn write_zeros(file: &File, size: u64) -> io::Result<()> {
    let zeros = [0; CHUNK as usize];
    for chunk in 0..size / CHUNK {
        file.write_all_at(&zeros, chunk * CHUNK)?;
    }
    let rest = size % CHUNK;
    file.write_all_at(&zeros[..rest as usize], size - rest)
}

impl Disk for FileDisk {
    ghost extent = { λ disk. disk.size };

    ghost faults = { λ disk. disk.faults };

    ghost is_honest = { λ _. ⊥ };

    ghost remembers = { ⊥ };

    ghost state = { λ _. record { seen = []; is_loose = λ _. ⊥ } };

    ghost clock = { λ _. record { moment = 0; left_since = λ _ _. ⊥ } };

    ghost sized = { λ _ no. absurd no };

    ghost counts_now = { λ _ _ _ no _ _. absurd no };

    ghost only_now = { λ _ _ no _. absurd no };

    fn size(&self) -> u64 {
        self.size
    }

    fn faults(&self) -> u64 {
        self.faults
    }

    fn read_at(&mut self, place: u64, out: &mut [u8]) -> Result<(), Failed> {
        let answer = self.file.read_exact_at(out, place);
        self.counted(answer)
    }

    fn write_at(&mut self, place: u64, bytes: &[u8]) -> Result<(), Failed> {
        let answer = self.file.write_all_at(bytes, place);
        self.counted(answer)
    }

    // The file's length never changes, so its bytes are all that the system has to keep.
    fn sync(&mut self) -> Result<(), Failed> {
        let answer = self.file.sync_data();
        self.counted(answer)
    }
}
