// A file in a folder of the host.
ghost use Rattle.std.specs.Prelude.{◌≡◌, ◌≢◌, ◌+◌, ◌-◌, ◌<◌, ◌≤◌, ◌^◌, ℕ, length, min, true, false, string_bytes, IsTrue, IsErr, IfOk, OnOk, OnErr, if◌then◌else◌, is_err, is_ok};
ghost use Rattle.disk_model.specs.Bytes.{after_write, after_resize};
ghost use Rattle.disk_model.specs.Images.{Has};
ghost use Rattle.disk_model.specs.Keeps.{Outside};
ghost use Rattle.disk_model.specs.Faults.{next_count};
ghost use Rattle.disk_model.specs.Calls.{Changes, Known, Rests, Syncs};
ghost use Rattle.disk_model.specs.Controls.{struck};
ghost use Rattle.tee_ports.specs.Files.{ActsByArms, HasCause, ReadsAt, StaysByArms};
ghost use Rattle.host_folder.specs.Folder.{failed_once, file_path, folder_file, fresh_file};
ghost use Rattle.host_folder.specs.declared.access.Access.TheVariants.{Read, ReadIfThere, Write};

use crate::access::Access;
use crate::folder_lock::FolderLock;
use crate::names::{file_name, folder_of, sync_folder};
use std::alloc::Global;
use std::fs::{File, Files, OpenOptions};
use std::io::ErrorKind;
use std::marker::Model;
use std::os::unix::fs::{FileExt, OpenOptionsExt};
use std::{fs, io};
use tee_ports::{Failed, NoMemory, StoreFile};

/// The file `NNN.bin` of a folder of the host, where `NNN` is its number with three digits.
///
/// It is opened at the first call that needs it. A write and `set_len` make it where it is not there, for its owner alone;
/// no other call does. Of a file that is not there the length is 0, a sync has nothing to settle, and a read fails, unless the
/// file is to be read if it is there. Each call that the system refuses counts a fault. It tells no bytes: what the host keeps of it is the host's affair.
///
/// Where this value made the file, the folder is synced before a sync succeeds. Once a sync failed, each later one fails.
#[derive(Drop)]
pub struct FolderFile<'a, R> {
    rt: &'a R,
    path: String,
    access: Access,
    file: Option<File>,
    // Whether this value made the file, and the folder was not synced since.
    made: bool,
    faults: u64,
    written: u64,
    // How many syncs succeeded, and whether one failed.
    syncs: u64,
    sync_failed: bool,
    lock: Option<FolderLock>,
}

impl<'a, R> Model for FolderFile<'a, R> {
    ghost use Rattle.std.specs.Prelude.{string_bytes, is_some};
    ghost use Rattle.host_folder.specs.Folder.{FolderState};

    ghost Value = { FolderState };

    ghost view = { λ f. record { path = string_bytes f.path; access = f.access; faults = f.faults; written = f.written; syncs = f.syncs; sync_failed = f.sync_failed; holds_lock = is_some f.lock } };
}

impl<'a, R: Files<File = File>> FolderFile<'a, R> {
    /// The file of this number in a folder, to be read and written. Nothing is opened.
    ///
    /// # Errors
    ///
    /// Memory ran out.
    pub fn new(
        rt: &'a R,
        alloc: Global,
        folder: &str,
        number: u16,
    ) -> Result<FolderFile<'a, R>, NoMemory>
        ensures { IfOk result (λ f. f ≡ fresh_file (file_path folder.now number) Write) }
    {
        let path = file_name(alloc, folder, number)?;
        Ok(FolderFile::named(rt, path, Access::Write))
    }

    /// The file of this number in a folder, to be read alone: each write fails. Nothing is opened, and it is never made.
    ///
    /// # Errors
    ///
    /// Memory ran out.
    pub fn read_only(
        rt: &'a R,
        alloc: Global,
        folder: &str,
        number: u16,
    ) -> Result<FolderFile<'a, R>, NoMemory>
        ensures { IfOk result (λ f. f ≡ fresh_file (file_path folder.now number) Read) }
    {
        let path = file_name(alloc, folder, number)?;
        Ok(FolderFile::named(rt, path, Access::Read))
    }

    /// The file of this number in a folder, to be read alone, if it is there: one that is not reads as one of no bytes. Nothing is
    /// opened, and it is never made.
    ///
    /// # Errors
    ///
    /// Memory ran out.
    pub fn read_if_there(
        rt: &'a R,
        alloc: Global,
        folder: &str,
        number: u16,
    ) -> Result<FolderFile<'a, R>, NoMemory>
        ensures { IfOk result (λ f. f ≡ fresh_file (file_path folder.now number) ReadIfThere) }
    {
        let path = file_name(alloc, folder, number)?;
        Ok(FolderFile::named(rt, path, Access::ReadIfThere))
    }

    fn named(rt: &'a R, path: String, access: Access) -> FolderFile<'a, R>
        ensures { result ≡ fresh_file (string_bytes path) access }
    {
        FolderFile {
            rt,
            path,
            access,
            file: None,
            made: false,
            faults: 0,
            written: 0,
            syncs: 0,
            sync_failed: false,
            lock: None,
        }
    }

    /// The same file, which holds this lock for as long as it lives.
    pub fn holding(self, lock: FolderLock) -> FolderFile<'a, R>
        ensures { result ≡ record self.entry { holds_lock = true } }
    {
        FolderFile {
            lock: Some(lock),
            ..self
        }
    }

    /// How many bytes the system's file has; of one that is not there, none. Nothing is opened or made.
    ///
    /// # Errors
    ///
    /// The system refused to tell it.
    pub fn len_there(&self) -> io::Result<u64> {
        match fs::metadata(self.rt, self.path.as_str()) {
            Ok(metadata) => Ok(metadata.len()),
            Err(error) if error.kind() == ErrorKind::NotFound => Ok(0),
            Err(error) => Err(error),
        }
    }

    /// Whether the system has the file. Nothing is opened or made.
    ///
    /// # Errors
    ///
    /// The system refused to tell it.
    pub fn is_there(&self) -> io::Result<bool> {
        fs::exists(self.rt, self.path.as_str())
    }

    // Opens the system's file, where it is there and not open yet, and tells whether it is open.
    fn find(&mut self) -> io::Result<bool>
        ensures same { self.new ≡ self.old }
    {
        if self.file.is_none() {
            self.file = open_there(self.rt, self.path.as_str(), self.access)?;
        }
        Ok(self.file.is_some())
    }

    // Opens the system's file to write it, and makes it where it is not there. A file to be read alone is left as it is.
    fn find_or_make(&mut self) -> io::Result<()>
        ensures same { self.new ≡ self.old }
        ensures read_only { self.old.access ≢ Write → IsErr result }
    {
        if self.access != Access::Write {
            return Err(io::Error::from(ErrorKind::PermissionDenied));
        }
        if !self.find()? {
            self.file = Some(open_or_make(self.rt, self.path.as_str())?);
            self.made = true;
        }
        Ok(())
    }

    fn opened(&self) -> io::Result<&File> {
        match &self.file {
            Some(file) => Ok(file),
            None => Err(io::Error::from(ErrorKind::NotFound)),
        }
    }

    // Counts one more fault.
    fn fail(&mut self) -> Failed
        ensures counted { self.new ≡ failed_once self.old }
        ensures rises { self.old.faults ≤ self.new.faults }
        ensures carried { result.count ≡ self.new.faults }
    {
        self.faults = self.faults.saturating_add(1);
        Failed { count: self.faults }
    }

    fn try_len(&mut self) -> io::Result<u64>
        ensures same { self.new ≡ self.old }
    {
        if !self.find()? {
            return Ok(0);
        }
        Ok(self.opened()?.metadata()?.len())
    }

    fn try_read(&mut self, at: u64, into: &mut [u8]) -> io::Result<usize>
        requires { at < 2 ^ 32 }
        ensures same { self.new ≡ self.old }
        ensures within { IfOk result (λ n. n ≤ length into.old) }
    {
        if !self.find()? && self.access == Access::ReadIfThere {
            return Ok(0);
        }
        read_full(self.opened()?, at, into)
    }

    fn try_write(&mut self, at: u64, from: &[u8]) -> io::Result<()>
        ensures same { self.new ≡ self.old }
        ensures read_only { self.old.access ≢ Write → IsErr result }
    {
        self.find_or_make()?;
        self.opened()?.write_all_at(from, at)
    }

    fn try_resize(&mut self, size: u64) -> io::Result<()>
        ensures same { self.new ≡ self.old }
        ensures read_only { self.old.access ≢ Write → IsErr result }
    {
        self.find_or_make()?;
        self.opened()?.set_len(size)
    }

    fn try_sync(&mut self) -> io::Result<()>
        ensures same { self.new ≡ self.old }
    {
        if !self.find()? {
            return Ok(());
        }
        self.opened()?.sync_all()?;
        self.sync_name()
    }

    // Syncs the folder, where this value made the file: its name is settled then.
    fn sync_name(&mut self) -> io::Result<()>
        ensures same { self.new ≡ self.old }
    {
        if self.made {
            sync_folder(self.rt, folder_of(self.path.as_str()))?;
            self.made = false;
        }
        Ok(())
    }

    // Settles all bytes, unless a sync failed before: a system may drop what it could not write, and settle the rest at the
    // next sync as if that were all.
    fn settle(&mut self) -> io::Result<()>
        ensures settled { OnOk result (self.new ≡ record self.old { syncs = self.old.syncs + 1 }) }
        ensures failed { OnErr result (self.new ≡ record self.old { sync_failed = true }) }
        ensures stays_failed { IsTrue self.old.sync_failed → IsErr result }
    {
        // A count of syncs that stands at its end lets no more through.
        let may_settle = !self.sync_failed && self.syncs < u64::MAX;
        self.sync_failed = true;
        if !may_settle {
            return Err(io::Error::from(ErrorKind::Other));
        }
        self.try_sync()?;
        self.sync_failed = false;
        self.syncs += 1;
        Ok(())
    }
}

// The system's file, where it is there.
fn open_there<R: Files<File = File>>(
    rt: &R,
    path: &str,
    access: Access,
) -> io::Result<Option<File>> {
    let opened = OpenOptions::new()
        .read(true)
        .write(access == Access::Write)
        .open(rt, path);
    match opened {
        Ok(file) => Ok(Some(file)),
        Err(error) if error.kind() == ErrorKind::NotFound => Ok(None),
        Err(error) => Err(error),
    }
}

// The system's file, made for its owner alone where it is not there.
fn open_or_make<R: Files<File = File>>(rt: &R, path: &str) -> io::Result<File> {
    OpenOptions::new()
        .read(true)
        .write(true)
        .create(true)
        .mode(0o600)
        .open(rt, path)
}

// Reads until the buffer is full or the file ends.
fn read_full(file: &File, at: u64, into: &mut [u8]) -> io::Result<usize>
    requires { at < 2 ^ 32 }
    ensures { IfOk result (λ n. n ≤ length into.old) }
{
    let mut done = 0;
    for _ in 0..u64::MAX {
        if done >= into.len() {
            return Ok(into.len());
        }
        match file.read_at(&mut into[done..], at + done as u64) {
            Ok(0) => return Ok(done),
            Ok(count) => done += count,
            Err(error) if error.kind() == ErrorKind::Interrupted => {}
            Err(error) => return Err(error),
        }
    }
    Err(io::Error::from(ErrorKind::Interrupted))
}

impl<'a, R: Files<File = File>> StoreFile for FolderFile<'a, R> {
    ghost use Rattle.host_folder.specs.Folder.{folder_file, folder_sound};

    ghost state = { folder_file };

    ghost sound = { folder_sound };

    // Behind the clauses of every file each call says what it leaves.
    fn len(&mut self) -> Result<u64, Failed>
        ensures rests { Rests (folder_file self.old) (folder_file self.new) }
        ensures told { IfOk result (λ n. IsTrue (folder_file self.new).tells → n ≡ length (folder_file self.new).reads) }
        ensures cause { HasCause (folder_file self.old) (folder_file self.new) result }
        ensures armed { IsTrue (folder_file self.old).tells_arms → StaysByArms (folder_file self.old) (folder_file self.new) (is_err result) }
        ensures same { OnOk result (self.new ≡ self.old) }
        ensures failed { OnErr result (self.new ≡ failed_once self.old) }
    {
        match self.try_len() {
            Ok(length) => Ok(length),
            Err(_) => Err(self.fail()),
        }
    }

    fn read_at(&mut self, at: u64, into: &mut [u8]) -> Result<usize, Failed>
        requires { at < 2 ^ 32 }
        ensures rests { Rests (folder_file self.old) (folder_file self.new) }
        ensures within { IfOk result (λ n. n ≤ length into.old) }
        ensures told { IfOk result (λ n. IsTrue (folder_file self.new).tells → ReadsAt (folder_file self.new).reads at into.old n into.new) }
        ensures cause { HasCause (folder_file self.old) (folder_file self.new) result }
        ensures armed { IsTrue (folder_file self.old).tells_arms → StaysByArms (folder_file self.old) (folder_file self.new) (is_err result) }
        ensures same { OnOk result (self.new ≡ self.old) }
        ensures failed { OnErr result (self.new ≡ failed_once self.old) }
    {
        match self.try_read(at, into) {
            Ok(count) => Ok(count),
            Err(_) => Err(self.fail()),
        }
    }

    fn write_at(&mut self, at: u64, from: &[u8]) -> Result<(), Failed>
        ensures changes { Changes at (at + length from.now) (folder_file self.old) (folder_file self.new) }
        ensures written { OnOk result (Known (folder_file self.old) (folder_file self.new) →
            (folder_file self.new).reads ≡ after_write (folder_file self.old).reads at from.now) }
        ensures others { Known (folder_file self.old) (folder_file self.new) → (place byte : ℕ) →
            Outside at (at + length from.now) place →
            Has (folder_file self.old).reads place byte → Has (folder_file self.new).reads place byte }
        ensures others_struck { IsTrue (folder_file self.old).tells_arms → (place byte : ℕ) →
            Outside at (at + length from.now) place →
            Has (struck (folder_file self.old)).reads place byte → Has (folder_file self.new).reads place byte }
        ensures at_most { (folder_file self.new).written ≤ (folder_file self.old).written + length from.now }
        ensures counted { OnOk result ((folder_file self.new).written ≡
            min ((folder_file self.old).written + length from.now) (2 ^ 64 - 1)) }
        ensures cause { HasCause (folder_file self.old) (folder_file self.new) result }
        ensures armed { IsTrue (folder_file self.old).tells_arms → ActsByArms (folder_file self.old) (folder_file self.new) (is_err result) }
        ensures struck { OnOk result (IsTrue (folder_file self.old).tells_arms →
            ((folder_file self.new).settled ≡ (struck (folder_file self.old)).settled)
            × ((folder_file self.new).reads ≡ after_write (struck (folder_file self.old)).reads at from.now)) }
        ensures left { OnOk result (self.new ≡ record self.old { written = min (self.old.written + length from.now) (2 ^ 64 - 1) }) }
        ensures failed { OnErr result (self.new ≡ failed_once self.old) }
        ensures read_only { self.old.access ≢ Write → IsErr result }
    {
        match self.try_write(at, from) {
            Ok(()) => {
                self.written = self.written.saturating_add(from.len() as u64);
                Ok(())
            }
            Err(_) => Err(self.fail()),
        }
    }

    fn set_len(&mut self, size: u64) -> Result<(), Failed>
        ensures changes { Changes size (length (folder_file self.old).reads) (folder_file self.old) (folder_file self.new) }
        ensures resized { OnOk result (Known (folder_file self.old) (folder_file self.new) →
            (folder_file self.new).reads ≡ after_resize (folder_file self.old).reads size) }
        ensures others { Known (folder_file self.old) (folder_file self.new) → (place byte : ℕ) →
            Outside size (length (folder_file self.old).reads) place →
            Has (folder_file self.old).reads place byte → Has (folder_file self.new).reads place byte }
        ensures others_struck { IsTrue (folder_file self.old).tells_arms → (place byte : ℕ) →
            Outside size (length (folder_file self.old).reads) place →
            Has (struck (folder_file self.old)).reads place byte → Has (folder_file self.new).reads place byte }
        ensures counted { (folder_file self.new).written ≡ (folder_file self.old).written }
        ensures cause { HasCause (folder_file self.old) (folder_file self.new) result }
        ensures armed { IsTrue (folder_file self.old).tells_arms → ActsByArms (folder_file self.old) (folder_file self.new) (is_err result) }
        ensures struck { OnOk result (IsTrue (folder_file self.old).tells_arms →
            ((folder_file self.new).settled ≡ (struck (folder_file self.old)).settled)
            × ((folder_file self.new).reads ≡ after_resize (struck (folder_file self.old)).reads size)) }
        ensures same { OnOk result (self.new ≡ self.old) }
        ensures failed { OnErr result (self.new ≡ failed_once self.old) }
        ensures read_only { self.old.access ≢ Write → IsErr result }
    {
        match self.try_resize(size) {
            Ok(()) => Ok(()),
            Err(_) => Err(self.fail()),
        }
    }

    fn sync(&mut self) -> Result<(), Failed>
        ensures synced { OnOk result (Syncs (folder_file self.old) (folder_file self.new)) }
        ensures unsettled { OnErr result (Rests (folder_file self.old) (folder_file self.new)) }
        ensures cause { HasCause (folder_file self.old) (folder_file self.new) result }
        ensures armed { IsTrue (folder_file self.old).tells_arms → ActsByArms (folder_file self.old) (folder_file self.new) (is_err result) }
        ensures struck { OnOk result (IsTrue (folder_file self.old).tells_arms →
            ((folder_file self.new).settled ≡ (struck (folder_file self.old)).reads) × ((folder_file self.new).reads ≡ (struck (folder_file self.old)).reads)) }
        ensures left { OnOk result (self.new ≡ record self.old { syncs = self.old.syncs + 1 }) }
        ensures failed { OnErr result (self.new ≡ record (failed_once self.old) { sync_failed = true }) }
        ensures stays_failed { IsTrue self.old.sync_failed → IsErr result }
    {
        match self.settle() {
            Ok(()) => Ok(()),
            Err(_) => Err(self.fail()),
        }
    }
}

#[cfg(test)]
mod tests {
    use super::*;
    use crate::folder_lock::{LockFault, Sharing, lock_folder};
    use std::os::unix::fs::PermissionsExt;
    use std::path::PathBuf;
    use std::test::Fail;
    use std::{env, process};

    fn leave_a_gap<F: StoreFile>(file: &mut F) -> Result<(), Failed> {
        file.write_at(0, b"abcd")?;
        file.set_len(2)?;
        file.write_at(5, b"xyz")?;
        file.sync()
    }

    // How many bytes there are from place 1 on, where there is room for seven, and these.
    fn read_back<F: StoreFile>(file: &mut F) -> Result<(usize, [u8; 7]), Failed> {
        let mut bytes = [9; 7];
        let count = file.read_at(1, &mut bytes)?;
        Ok((count, bytes))
    }

    fn mode_of<R: Files>(rt: &R, path: &PathBuf) -> io::Result<u32> {
        Ok(fs::metadata(rt, path.as_path())?.permissions().mode() & 0o777)
    }

    #[test]
    fn a_file_keeps_its_bytes(rt: HostRuntime) -> Result<(), Fail> {
        let name = format!(in rt.alloc(); "folder-file-{}", process::id(rt.process()))?;
        let folder = env::temp_dir(&rt)?.join(rt.alloc(), name.as_str())?;
        fs::create_dir(&rt, folder.as_path())?;
        let mut file = FolderFile::new(&rt, rt.alloc(), folder.as_str(), 7)?;
        let mut again = FolderFile::read_only(&rt, rt.alloc(), folder.as_str(), 7)?;
        let written = leave_a_gap(&mut file);
        let refused = (again.write_at(0, b"no"), again.set_len(1), again.sync());
        let read = read_back(&mut again);
        let length = again.len();
        let there = again.len_there();
        let path = folder.join(rt.alloc(), "007.bin")?;
        let mode = mode_of(&rt, &path);
        let stored = fs::read(&rt, path.as_path());
        fs::remove_dir_all(&rt, folder.as_path())?;

        assert_eq!(rt; written, Ok(()));
        assert_eq!(rt;
            refused,
            (Err(Failed { count: 1 }), Err(Failed { count: 2 }), Ok(()))
        );
        assert_eq!(rt; read, Ok((7, *b"b\0\0\0xyz")));
        assert_eq!(rt; length, Ok(8));
        assert_eq!(rt; there?, 8);
        assert_eq!(rt; mode?, 0o600);
        assert_eq!(rt; stored?.as_slice(), b"ab\0\0\0xyz".as_slice());
        Ok(())
    }

    #[test]
    fn no_read_makes_a_file(rt: HostRuntime) -> Result<(), Fail> {
        let name = format!(in rt.alloc(); "folder-missing-{}", process::id(rt.process()))?;
        let folder = env::temp_dir(&rt)?.join(rt.alloc(), name.as_str())?;
        fs::create_dir(&rt, folder.as_path())?;
        let mut file = FolderFile::new(&rt, rt.alloc(), folder.as_str(), 7)?;
        let mut if_there = FolderFile::read_if_there(&rt, rt.alloc(), folder.as_str(), 7)?;
        let none = read_back(&mut if_there);
        let answers = (file.len(), file.sync(), read_back(&mut file));
        let there = (file.len_there(), file.is_there());
        let made = file.set_len(3);
        let there_then = file.is_there();
        fs::remove_dir_all(&rt, folder.as_path())?;

        assert_eq!(rt; none, Ok((0, [9; 7])));
        assert_eq!(rt; answers, (Ok(0), Ok(()), Err(Failed { count: 1 })));
        assert_eq!(rt; there.0?, 0);
        assert!(rt; !there.1?);
        assert_eq!(rt; made, Ok(()));
        assert!(rt; there_then?);
        Ok(())
    }

    #[test]
    fn a_lock_keeps_others_out(rt: HostRuntime) -> Result<(), Fail> {
        let name = format!(in rt.alloc(); "folder-lock-{}", process::id(rt.process()))?;
        let folder = env::temp_dir(&rt)?.join(rt.alloc(), name.as_str())?;
        let missing = lock_folder(&rt, folder.as_str(), Sharing::Alone).err();
        fs::create_dir(&rt, folder.as_path())?;
        let file = FolderFile::new(&rt, rt.alloc(), folder.as_str(), 7)?;
        let alone = lock_folder(&rt, folder.as_str(), Sharing::Alone);
        let file = match alone {
            Ok(lock) => file.holding(lock),
            Err(_) => file,
        };
        let beside = [
            lock_folder(&rt, folder.as_str(), Sharing::Alone).err(),
            lock_folder(&rt, folder.as_str(), Sharing::Shared).err(),
        ];
        drop(file);
        let first = lock_folder(&rt, folder.as_str(), Sharing::Shared);
        let second = lock_folder(&rt, folder.as_str(), Sharing::Shared);
        let third = lock_folder(&rt, folder.as_str(), Sharing::Alone).err();
        let shared = first.is_ok() && second.is_ok();
        fs::remove_dir_all(&rt, folder.as_path())?;

        assert_eq!(rt; missing, Some(LockFault::Missing));
        assert_eq!(rt; beside, [Some(LockFault::Busy), Some(LockFault::Busy)]);
        assert!(rt; shared);
        assert_eq!(rt; third, Some(LockFault::Busy));
        Ok(())
    }
}
