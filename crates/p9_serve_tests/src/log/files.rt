//! Logs in files of a folder.

use crate::log::logs::add;
use p9_disk::FileDevice;
use p9_log::{Crash, Device, DeviceError, Log, create, recover};
use std::alloc::Global;
use std::fs;
use std::io::ErrorKind;
use std::os::unix::fs::{MetadataExt, symlink};

// Whether a folder without entries is made.
fn makes_folder(rt: &HostRuntime, folder: &str) -> bool {
    let _ = fs::remove_dir_all(rt, folder);
    fs::create_dir(rt, folder).is_ok()
}

// Whether a folder is removed.
fn removes_folder(rt: &HostRuntime, folder: &str) -> bool {
    fs::remove_dir_all(rt, folder).is_ok()
}

// Whether there is nothing of this name.
fn is_free(rt: &HostRuntime, path: &str) -> bool {
    fs::symlink_metadata(rt, path).is_err()
}

// What is done with a device.
#[derive(Clone, Copy)]
enum Work<'a> {
    // A log is made, and added to.
    Make,
    // These bytes are recovered of it.
    Recover(&'a [u8]),
    // A draft is put in the place of the file, which is this one.
    Put(&'a str),
    // These bytes are read of it, and nothing a second time.
    Read(&'a [u8]),
}

// Whether it is done with a device of the file `log` of a folder.
fn is_done(rt: &HostRuntime, folder: &str, work: Work<'_>) -> bool {
    match FileDevice::open(rt, folder, "log") {
        Ok(device) => is_done_over(rt, device, work),
        Err(_) => false,
    }
}

fn is_done_over(rt: &HostRuntime, device: FileDevice, work: Work<'_>) -> bool {
    let mut device = device;
    match work {
        Work::Make => is_made(device),
        Work::Recover(bytes) => recovers(rt.alloc(), device, bytes),
        Work::Put(path) => is_put(rt, &mut device, path),
        Work::Read(bytes) => is_read_once(rt, &mut device, bytes),
    }
}

fn is_made<D: Device>(device: D) -> bool {
    match create(device) {
        Ok(log) => is_written(log),
        Err(_) => false,
    }
}

fn is_written<D: Device>(log: Log<D>) -> bool {
    let mut log = log;
    add(&mut log, &[7, 8]).is_ok() && log.sync().is_ok() && add(&mut log, &[9]).is_ok()
}

fn recovers<D: Device>(alloc: Global, device: D, bytes: &[u8]) -> bool {
    match recover(alloc, device, Crash::Killed) {
        Ok(found) => found.bytes.as_slice() == bytes,
        Err(_) => false,
    }
}

// Whether a draft is written beside the file, of which the first one is given up, and then put in its place.
fn is_put(rt: &HostRuntime, device: &mut FileDevice, path: &str) -> bool {
    device.write_at(0, &[1, 2, 3]).is_ok()
        && device.put_draft() == Err(DeviceError::Failed)
        && device.begin_draft().is_ok()
        && device.add_to_draft(&[4]).is_ok()
        && device.begin_draft().is_ok()
        && device.add_to_draft(&[5]).is_ok()
        && device.add_to_draft(&[6, 7]).is_ok()
        && has_bytes(rt, path, &[1, 2, 3])
        && device.put_draft().is_ok()
        && device.write_at(3, &[8, 9]).is_ok()
        && device.cut(4).is_ok()
        && device.sync().is_ok()
}

// Whether a file has these bytes.
fn has_bytes(rt: &HostRuntime, path: &str, bytes: &[u8]) -> bool {
    match fs::read(rt, path) {
        Ok(file) => file.as_slice() == bytes,
        Err(_) => false,
    }
}

// Whether a file has the mode 600.
fn is_private(rt: &HostRuntime, path: &str) -> bool {
    match fs::metadata(rt, path) {
        Ok(made) => made.mode() & 0o777 == 0o600,
        Err(_) => false,
    }
}

#[test]
fn a_log_is_recovered_from_its_file(rt: HostRuntime) {
    assert!(rt; makes_folder(&rt, "log_in_a_file"));
    assert!(rt; is_done(&rt, "log_in_a_file", Work::Make));
    assert!(rt; is_done(&rt, "log_in_a_file", Work::Recover(&[7, 8, 9])));
    assert!(rt; is_private(&rt, "log_in_a_file/log"));
    assert!(rt; removes_folder(&rt, "log_in_a_file"));
}

// Whether these bytes are read of a device, and nothing a second time.
fn is_read_once(rt: &HostRuntime, device: &mut FileDevice, bytes: &[u8]) -> bool {
    is_read(rt, device, bytes)
        && device.last_error().is_none()
        && device.read(rt.alloc()).is_err()
        && device.last_error().is_some()
}

fn is_read(rt: &HostRuntime, device: &mut FileDevice, bytes: &[u8]) -> bool {
    match device.read(rt.alloc()) {
        Ok(read) => read.as_slice() == bytes,
        Err(_) => false,
    }
}

#[test]
fn a_draft_is_put_in_place(rt: HostRuntime) {
    assert!(rt; makes_folder(&rt, "draft_of_a_file"));
    assert!(rt; is_done(&rt, "draft_of_a_file", Work::Put("draft_of_a_file/log")));
    assert!(rt; is_done(&rt, "draft_of_a_file", Work::Read(&[5, 6, 7, 8])));
    assert!(rt; is_free(&rt, "draft_of_a_file/log.new"));
    assert!(rt; removes_folder(&rt, "draft_of_a_file"));
}

// Whether a file, two links and a folder are made.
fn makes_entries(rt: &HostRuntime) -> bool {
    makes_folder(rt, "refused_files")
        && makes_folder(rt, "refused_files/folder")
        && fs::write(rt, "refused_files/other", b"kept".as_slice()).is_ok()
        && symlink(rt, "other", "refused_files/link").is_ok()
        && symlink(rt, "nothing", "refused_files/dangling").is_ok()
}

// Why this name in the folder is refused, if it is.
fn refusal(rt: &HostRuntime, name: &str) -> Option<ErrorKind> {
    match FileDevice::open(rt, "refused_files", name) {
        Ok(_) => None,
        Err(error) => Some(error.kind()),
    }
}

// Whether all that is no file is refused, and nothing is made where a link leads.
fn refuses_all(rt: &HostRuntime) -> bool {
    refusal(rt, "link").is_some()
        && refusal(rt, "dangling").is_some()
        && refusal(rt, "folder").is_some()
        && refusal(rt, "folder/log").is_some()
        && is_free(rt, "refused_files/nothing")
}

// Whether a file is refused once it has two names.
fn refuses_a_second_name(rt: &HostRuntime) -> bool {
    refusal(rt, "other").is_none()
        && fs::hard_link(rt, "refused_files/other", "refused_files/second").is_ok()
        && refusal(rt, "other").is_some()
}

#[test]
fn what_is_no_file_of_its_own_is_refused(rt: HostRuntime) {
    assert!(rt; makes_entries(&rt) && refuses_all(&rt) && refuses_a_second_name(&rt));
    assert!(rt; removes_folder(&rt, "refused_files"));
    assert!(rt; refusal(&rt, "log") == Some(ErrorKind::NotFound));
}
