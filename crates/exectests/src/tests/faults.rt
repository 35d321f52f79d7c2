//! The numbers of the faults, which begin with 1 in each kind.
use super::comparing::same;
use execlib::fault::LibFault;
use iorequest::fault::ReqFault;
use memlist::MemFault;
use msgport::fault::PortFault;
use sigsem::fault::SemFault;
use taskscript::{EventFault, FileFault};

/// The faults of a machine file, by their numbers.
static OF_FILES: [FileFault; 11] = [
    FileFault::NotToml,
    FileFault::UnknownKey,
    FileFault::MissingKey,
    FileFault::BadValue,
    FileFault::NameTwice,
    FileFault::BadRegions,
    FileFault::BadCommand,
    FileFault::BadLabel,
    FileFault::NotInInterrupt,
    FileFault::TooMany,
    FileFault::OutOfMemory,
];

#[test]
fn faults_of_files_are_numbered_from_1(rt: HostRuntime) {
    for (i, fault) in OF_FILES.iter().enumerate() {
        let number = usize::from(fault.number());
        same(&rt, fault.name(), "its number", number, i + 1);
    }
}

#[test]
fn faults_of_events_and_memory_are_numbered_from_1(rt: HostRuntime) {
    let numbers = [
        EventFault::BadLine(7).number(),
        EventFault::TooMany.number(),
        EventFault::OutOfMemory.number(),
        MemFault::Misaligned.number(),
        MemFault::Overlap.number(),
        MemFault::TooLarge.number(),
        MemFault::OutOfMemory.number(),
    ];
    same(
        &rt,
        "faults",
        "their numbers",
        numbers,
        [1, 2, 3, 1, 2, 3, 4],
    );
}

#[test]
fn faults_of_objects_are_numbered_from_1(rt: HostRuntime) {
    let numbers = [
        PortFault::NotEmpty.number(),
        PortFault::Link.number(),
        PortFault::Unknown.number(),
        PortFault::PoolFull.number(),
        SemFault::NotOwner.number(),
        SemFault::TooDeep.number(),
        SemFault::Busy.number(),
        SemFault::PoolFull.number(),
        ReqFault::InUse.number(),
        ReqFault::NotOpen.number(),
        ReqFault::PoolFull.number(),
        LibFault::NotOpen.number(),
    ];
    let wanted = [1, 2, 3, 4, 1, 2, 3, 4, 1, 2, 3, 1];
    same(&rt, "faults", "their numbers", numbers, wanted);
}
