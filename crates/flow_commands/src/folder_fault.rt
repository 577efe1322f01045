//! What the system refuses or lacks: why a folder can't be opened as an archive's disk, or no time is known.

ghost use Rattle.std.specs.Prelude.{Some, ◌≡◌};
ghost use Rattle.flow_folder.specs.Naming.{name_of};
ghost use Rattle.flow_commands.specs.Archives.{fault_printed};

use flow_refusals::RefusalCode;
use std::fmt;

/// The name of a file in a folder.
#[derive(Drop)]
struct FileName(u64);

impl fmt::Display for FileName {
    ghost output = { λ name. Some (name_of name.0) };

    fn fmt<W: fmt::Write>(&self, f: &mut fmt::Formatter<W>) -> fmt::Result {
        match self.0 {
            1 => write!(f, "1.slot"),
            2 => write!(f, "2.slot"),
            file => write!(f, "{file}.ipfix"),
        }
    }
}

/// Why a folder can't be opened, or no time is known, printed as 30 Fault, and a second line.
#[derive(Debug, Drop)]
pub enum FolderFault {
    /// There is nothing at this path.
    NotThere,
    /// There is a file at this path, or another thing that is no folder.
    NotAFolder,
    /// The system refused it.
    Refused,
    /// It is in use.
    InUse,
    /// The name of this file is that of something else.
    NotAFile(u64),
    /// The system can't lock it.
    NoLock,
    /// The system's list of open files isn't there.
    NoHandles,
    /// The system's clock can't be read, or is set before 1970.
    NoClock,
}

impl fmt::Display for FolderFault {
    ghost output = { λ e. Some (fault_printed e) };

    fn fmt<W: fmt::Write>(&self, f: &mut fmt::Formatter<W>) -> fmt::Result {
        match self {
            FolderFault::NotThere => write!(
                f,
                "{}\nflowvault: there is no such folder",
                RefusalCode::Fault
            ),
            FolderFault::NotAFolder => write!(
                f,
                "{}\nflowvault: that is a file, and DIR is the folder of an archive",
                RefusalCode::Fault
            ),
            FolderFault::Refused => write!(
                f,
                "{}\nflowvault: the system refused the folder: may this user read, write and enter it?",
                RefusalCode::Fault
            ),
            FolderFault::InUse => write!(
                f,
                "{}\nflowvault: the folder is in use, by a flowvault that still runs",
                RefusalCode::Fault
            ),
            FolderFault::NotAFile(file) => write!(
                f,
                "{}\nflowvault: {} in the folder is a link, a folder, a pipe or a device, and not a file",
                RefusalCode::Fault,
                FileName(*file)
            ),
            FolderFault::NoLock => write!(
                f,
                "{}\nflowvault: the system can't lock the folder: has its file system locks?",
                RefusalCode::Fault
            ),
            FolderFault::NoHandles => write!(
                f,
                "{}\nflowvault: the system's list of open files, /proc/self/fd, isn't there",
                RefusalCode::Fault
            ),
            FolderFault::NoClock => write!(
                f,
                "{}\nflowvault: the system's clock can't be read",
                RefusalCode::Fault
            ),
        }
    }
}
