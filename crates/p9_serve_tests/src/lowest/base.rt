//! The faults, as the table of them has them. No row reaches one of them, that qid numbers are used up.

use p9_base::Fault;
use std::alloc::AllocError;

// The faults by their numbers, from 1.
const FAULTS: [Fault; 30] = [
    Fault::Malformed,
    Fault::VersionNotSet,
    Fault::SmallMsize,
    Fault::NoAuthentication,
    Fault::UnknownUser,
    Fault::UnknownAttachName,
    Fault::UnknownFid,
    Fault::FidInUse,
    Fault::FidOpen,
    Fault::FidNotOpen,
    Fault::NotDirectory,
    Fault::NotFound,
    Fault::PermissionDenied,
    Fault::PhaseError,
    Fault::BadOpenMode,
    Fault::IsDirectory,
    Fault::ExclusiveUse,
    Fault::BadFileName,
    Fault::FileExists,
    Fault::CreationForbidden,
    Fault::BadDirectoryOffset,
    Fault::SmallReadCount,
    Fault::FileTooLarge,
    Fault::NotEmpty,
    Fault::IsRoot,
    Fault::FixedField,
    Fault::TooManyFids,
    Fault::QidsUsedUp,
    Fault::OutOfMemory,
    Fault::PathTooDeep,
];

// The number and the text of each fault, and what is shown of it.
const TOLD: &str = "\
1 malformed message = malformed message
2 version not set = version not set
3 msize too small = msize too small
4 authentication not required = authentication not required
5 unknown user = unknown user
6 unknown attach name = unknown attach name
7 unknown fid = unknown fid
8 fid in use = fid in use
9 fid already open = fid already open
10 fid not open for this = fid not open for this
11 not a directory = not a directory
12 file does not exist = file does not exist
13 permission denied = permission denied
14 phase error = phase error
15 bad open mode = bad open mode
16 is a directory = is a directory
17 exclusive use file already open = exclusive use file already open
18 bad file name = bad file name
19 file already exists = file already exists
20 mounted directory forbids creation = mounted directory forbids creation
21 bad directory offset = bad directory offset
22 read count too small = read count too small
23 file too large = file too large
24 directory not empty = directory not empty
25 root can't be removed or renamed = root can't be removed or renamed
26 wstat of a fixed field = wstat of a fixed field
27 too many fids = too many fids
28 qid numbers used up = qid numbers used up
29 out of memory = out of memory
30 path too deep = path too deep
";

// Adds the line of a fault.
fn tell(told: &mut String, fault: Fault) -> Result<(), AllocError> {
    let (number, text) = (fault.number(), fault.text());
    writeln!(told, "{number} {text} = {fault}")
}

#[test]
fn faults_have_their_numbers_and_texts(rt: HostRuntime) {
    let mut told = String::new(rt.alloc());
    for fault in &FAULTS {
        assert!(rt; tell(&mut told, *fault).is_ok());
    }
    assert!(rt; told.as_str() == TOLD);
}
