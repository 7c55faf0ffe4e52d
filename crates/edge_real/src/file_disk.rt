//! Two files as a disk.
use crate::OpenError;
use crate::area_file::AreaFile;
use crate::faults::Faults;
use crate::lock::Lock;
use edge_traits::{Area, Disk, Failed};
use std::fs::OpenFile;
use std::os::unix::fs::FileExt;
use std::rt::Files;

/// The files `PATH.0` and `PATH.1`, with their locks. A missing file is an empty area, and its first write creates it.
/// Each error of the system is a fault; once a sync of an area has failed, each call on that area fails. No call takes
/// memory.
#[derive(Drop)]
pub struct FileDisk<R: Files> {
    files: R,
    left: AreaFile<R::File>,
    right: AreaFile<R::File>,
    faults: Faults,
}

impl<R: Files + Drop> FileDisk<R>
where
    R::File: FileExt + OpenFile + Lock,
{
    ghost use Rattle.std.specs.Prelude.{◌≡◌, IfOk};
    ghost use Rattle.edge_real.specs.FileDisk.{faults_of};

    /// Opens those of the two files that are there, takes their locks, and creates none. `Taken` comes where another
    /// program has the lock of one of them.
    pub fn at(files: R, path: &str) -> Result<Self, OpenError>
    where
        R: AllocGlobal,
        ensures { IfOk result (λ disk. faults_of disk ≡ 0) }
    {
        let left = format!(in files.alloc(); "{path}.0")?;
        let right = format!(in files.alloc(); "{path}.1")?;
        FileDisk::over(files, left, right)
    }

    /// The same for two paths.
    pub(crate) fn over(files: R, left: String, right: String) -> Result<Self, OpenError>
        ensures { IfOk result (λ disk. faults_of disk ≡ 0) }
    {
        let left = AreaFile::at(&files, left)?;
        let right = AreaFile::at(&files, right)?;
        Ok(FileDisk {
            files,
            left,
            right,
            faults: Faults::none(),
        })
    }
}

impl<R: Files + Drop> Disk for FileDisk<R>
where
    R::File: FileExt + OpenFile + Lock,
{
    ghost use Rattle.std.specs.Prelude.{⊤, false, []};
    ghost use Rattle.edge_traits.specs.Disk.{Areas};
    ghost use Rattle.edge_real.specs.Faults.{Counts};
    ghost use Rattle.edge_real.specs.FileDisk.{faults_of};

    ghost tells = { λ _. false };

    ghost seen = { λ _. record { left = []; right = [] } };

    ghost may_leave = { λ _ _. ⊤ };

    ghost moment = { λ _. 0 };

    ghost left_since = { λ _ _ _. ⊤ };

    ghost fault_count = { λ disk. disk.faults.count };

    ghost fault_count_fits = { λ disk. disk.faults.fits };

    ghost may_leave_seen = { λ _ _. tt };

    ghost counts_now = { λ _ _ _ _ may. may };

    ghost only_now = { λ _ _ left. left };

    fn len(&mut self, area: Area) -> Result<u64, Failed>
        ensures counted { Counts (faults_of self.old) (faults_of self.new) result }
    {
        self.faults.told(match area {
            Area::Left => self.left.len(),
            Area::Right => self.right.len(),
        })
    }

    fn read_at(&mut self, area: Area, at: u64, buf: &mut [u8]) -> Result<(), Failed>
        ensures counted { Counts (faults_of self.old) (faults_of self.new) result }
    {
        self.faults.told(match area {
            Area::Left => self.left.read_at(at, buf),
            Area::Right => self.right.read_at(at, buf),
        })
    }

    fn write_at(&mut self, area: Area, at: u64, bytes: &[u8]) -> Result<(), Failed>
        ensures counted { Counts (faults_of self.old) (faults_of self.new) result }
    {
        self.faults.told(match area {
            Area::Left => self.left.write_at(&self.files, at, bytes),
            Area::Right => self.right.write_at(&self.files, at, bytes),
        })
    }

    fn sync(&mut self, area: Area) -> Result<(), Failed>
        ensures counted { Counts (faults_of self.old) (faults_of self.new) result }
    {
        self.faults.told(match area {
            Area::Left => self.left.sync(&self.files),
            Area::Right => self.right.sync(&self.files),
        })
    }

    fn faults(&self) -> u64 {
        self.faults.count()
    }
}

#[cfg(test)]
mod tests {
    use super::*;
    use std::fs;
    use std::os::unix::fs::MetadataExt;
    use std::test::Fail;

    fn sent<D: Disk + Send>(disk: D) -> D {
        disk
    }

    #[test]
    fn what_one_disk_syncs_the_next_one_reads(rt: HostRuntime) -> Result<(), Fail> {
        let _ = fs::remove_dir_all(&rt, "file_disk_kept");
        fs::create_dir(&rt, "file_disk_kept")?;
        let mut disk = sent(FileDisk::at(rt, "file_disk_kept/journal")?);
        assert_eq!(rt; disk.len(Area::Left), Ok(0));
        assert_eq!(rt; disk.read_at(Area::Left, 0, &mut []), Ok(()));
        assert_eq!(rt; disk.sync(Area::Left), Ok(()));
        assert!(rt; !fs::exists(&rt, "file_disk_kept/journal.0")?);
        assert_eq!(rt; disk.write_at(Area::Right, 0, b"a journal"), Ok(()));
        assert_eq!(rt; disk.write_at(Area::Right, 2, b"new one"), Ok(()));
        assert_eq!(rt; disk.sync(Area::Right), Ok(()));
        assert_eq!(rt; disk.sync(Area::Right), Ok(()));
        assert_eq!(rt; disk.len(Area::Right), Ok(9));
        let mut back = [0; 4];
        assert_eq!(rt; disk.read_at(Area::Right, 1, &mut back), Ok(()));
        assert_eq!(rt; back, *b" new");
        assert_eq!(rt; disk.faults(), 0);
        drop(disk);
        let mut next = FileDisk::at(&rt, "file_disk_kept/journal")?;
        assert_eq!(rt; next.len(Area::Right), Ok(9));
        let mut back = [0; 9];
        assert_eq!(rt; next.read_at(Area::Right, 0, &mut back), Ok(()));
        assert_eq!(rt; back, *b"a new one");
        assert_eq!(rt; next.faults(), 0);
        assert!(rt; !fs::exists(&rt, "file_disk_kept/journal.0")?);
        assert_eq!(rt;
            fs::read(&rt, "file_disk_kept/journal.1")?.as_slice(),
            b"a new one".as_slice()
        );
        fs::remove_dir_all(&rt, "file_disk_kept")?;
        Ok(())
    }

    #[test]
    fn one_disk_at_a_time_has_the_files(rt: HostRuntime) -> Result<(), Fail> {
        let _ = fs::remove_dir_all(&rt, "file_disk_taken");
        fs::create_dir(&rt, "file_disk_taken")?;
        let mut disk = FileDisk::at(rt, "file_disk_taken/journal")?;
        let mut other = FileDisk::at(rt, "file_disk_taken/journal")?;
        assert_eq!(rt; disk.write_at(Area::Right, 0, b"a"), Ok(()));
        assert_eq!(rt; other.write_at(Area::Right, 0, b"b"), Err(Failed));
        let mode = fs::metadata(&rt, "file_disk_taken/journal.1")?.mode();
        assert_eq!(rt; mode & 0o777, 0o600);
        assert!(rt;
            matches!(
                FileDisk::at(rt, "file_disk_taken/journal"),
                Err(OpenError::Taken)
            )
        );
        drop(disk);
        drop(other);
        let mut next = FileDisk::at(rt, "file_disk_taken/journal")?;
        assert_eq!(rt; next.len(Area::Right), Ok(1));
        fs::remove_dir_all(&rt, "file_disk_taken")?;
        Ok(())
    }

    #[test]
    fn each_error_of_the_system_is_a_fault(rt: HostRuntime) -> Result<(), Fail> {
        let _ = fs::remove_dir_all(&rt, "file_disk_lost");
        let mut disk = FileDisk::at(rt, "file_disk_lost/journal")?;
        assert_eq!(rt; disk.read_at(Area::Left, 0, &mut [0]), Err(Failed));
        assert_eq!(rt; disk.write_at(Area::Left, 0, b"a"), Err(Failed));
        assert_eq!(rt; disk.faults(), 2);
        fs::create_dir(&rt, "file_disk_lost")?;
        assert_eq!(rt; disk.write_at(Area::Left, 0, b"a"), Ok(()));
        assert_eq!(rt; disk.read_at(Area::Left, 0, &mut [0; 2]), Err(Failed));
        assert_eq!(rt; disk.len(Area::Left), Ok(1));
        assert_eq!(rt; disk.faults(), 3);
        fs::remove_dir_all(&rt, "file_disk_lost")?;
        assert_eq!(rt; disk.sync(Area::Left), Err(Failed));
        assert_eq!(rt; disk.sync(Area::Left), Err(Failed));
        assert_eq!(rt; disk.len(Area::Left), Err(Failed));
        assert_eq!(rt; disk.faults(), 6);
        Ok(())
    }
}
