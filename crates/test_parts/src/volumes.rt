//! Tests of volumes.

use pm_volume::{Copies, Volume, VolumeFault};
use std::alloc::{AllocError, Global};
use std::process::Abort;

// Returns the image of a new volume of 20 blocks.
fn work(alloc: Global) -> Result<Vec<u8>, VolumeFault> {
    Ok(Volume::blank(alloc, "work", 20)?.into_bytes())
}

fn write(image: &mut [u8], at: usize, bytes: &[u8]) {
    for (i, b) in bytes.iter().enumerate() {
        if let Some(place) = at.checked_add(i) {
            if place < image.len() {
                image[place] = *b;
            }
        }
    }
}

// Returns the fault of the image of a new volume in which `bytes` replace the bytes from offset `at` on.
fn fault_after(alloc: Global, at: usize, bytes: &[u8]) -> Option<VolumeFault> {
    let Ok(mut image) = work(alloc) else {
        return Some(VolumeFault::NoMemory);
    };
    write(&mut image, at, bytes);
    Volume::open(image).err().map(|e| e.0)
}

// Returns the fault of an image of `count` zeros.
fn fault_of_zeros(rt: &impl Abort, alloc: Global, count: usize) -> Option<VolumeFault> {
    let image = vec![in alloc; 0; count].expect(rt, "memory");
    Volume::open(image).err().map(|e| e.0)
}

#[test]
fn refused_images(rt: HostRuntime) {
    let header = Some(VolumeFault::BadHeader);
    assert_eq!(rt; fault_after(rt.alloc(), 0, b"\x00"), None);
    assert_eq!(rt; fault_after(rt.alloc(), 1030, b"\x00"), header);
    assert_eq!(rt; fault_after(rt.alloc(), 1030, b"\x08"), header);
    assert_eq!(rt; fault_after(rt.alloc(), 1026, b"\x07"), header);
    assert_eq!(rt; fault_after(rt.alloc(), 1026, b"\x0a"), None);
    assert_eq!(rt; fault_after(rt.alloc(), 1038, b"\x05"), header);
    let past = Some(VolumeFault::PastEnd);
    assert_eq!(rt; fault_after(rt.alloc(), 1038, b"\x15"), past);
    let many = Some(VolumeFault::TooManyFiles);
    assert_eq!(rt; fault_after(rt.alloc(), 1040, b"\x4e"), many);
    let entry = Some(VolumeFault::BadEntry(1));
    assert_eq!(rt; fault_after(rt.alloc(), 1040, b"\x01"), entry);
    let mut file = [0; 36];
    write(&mut file, 0, b"\x01");
    write(&mut file, 10, b"\x05\x00\x07\x00\x00\x00\x01A");
    write(&mut file, 32, b"\x00\x02");
    assert_eq!(rt; fault_after(rt.alloc(), 1040, &file), entry);
    write(&mut file, 10, b"\x06\x00\x15\x00");
    assert_eq!(rt; fault_after(rt.alloc(), 1040, &file), past);
    write(&mut file, 10, b"\x06\x00\x14\x00");
    assert_eq!(rt; fault_after(rt.alloc(), 1040, &file), None);
    let blocks = Some(VolumeFault::NotBlocks);
    assert_eq!(rt; fault_of_zeros(&rt, rt.alloc(), 513), blocks);
    let short = Some(VolumeFault::TooShort);
    assert_eq!(rt; fault_of_zeros(&rt, rt.alloc(), 2560), short);
    assert_eq!(rt; fault_of_zeros(&rt, rt.alloc(), 0), short);
    assert_eq!(rt; VolumeFault::BadEntry(7).detail(), Some(7));
    assert_eq!(rt; VolumeFault::NoMemory.number(), 12);
}

// Asserts that the file `name` is one block, the block `first`, and that each of its bytes is `byte`.
fn has_block(rt: &impl Abort, volume: &Volume, name: &str, first: u16, byte: u8) {
    let found = volume.find(name);
    assert_eq!(rt; found.as_ref().map(|e| e.first), Some(first));
    if let Some(e) = found {
        assert_eq!(rt; volume.file(&e), Some([byte; 512].as_slice()));
    }
}

#[test]
fn full_volume(rt: HostRuntime) {
    let mut volume = Volume::blank(rt.alloc(), "WORK", 83).expect(&rt, "a volume");
    for n in 1..78u32 {
        let name = format!(in rt.alloc(); "F{}{}", n / 10, n % 10).expect(&rt, "memory");
        let e = volume
            .add(&name, 5, &[n as u8; 512], 0)
            .expect(&rt, "no refusal");
        assert_eq!(rt; u32::from(e.first), n + 5);
    }
    assert_eq!(rt;
        volume.add("F78", 5, b"", 0).err(),
        Some(VolumeFault::DirectoryFull)
    );
    volume.remove("f10").expect(&rt, "no refusal");
    volume.remove("F20").expect(&rt, "no refusal");
    let two = [8; 1024];
    assert_eq!(rt;
        volume.add("TWO", 5, &two, 0).err(),
        Some(VolumeFault::NoRoom)
    );
    volume.krunch();
    let e = volume.add("TWO", 5, &two, 0).expect(&rt, "no refusal");
    assert_eq!(rt; (e.first, e.end), (81, 83));
    assert_eq!(rt; volume.entries().count(), 76);
    // The files after a removed file have moved by one or two blocks, together with their bytes.
    for (name, first, byte) in [
        ("F09", 14, 9),
        ("F11", 15, 11),
        ("F21", 24, 21),
        ("F77", 80, 77),
    ] {
        has_block(&rt, &volume, name, first, byte);
    }
}

#[test]
fn files_come_and_go(rt: HostRuntime) {
    let mut volume = Volume::blank(rt.alloc(), "work", 20).expect(&rt, "a volume");
    assert_eq!(rt; volume.name(), b"WORK".as_slice());
    let a = volume.add("a", 21, b"xyz", 9).expect(&rt, "no refusal");
    assert_eq!(rt; (a.first, a.end, a.last_bytes, a.kind), (6, 7, 3, 5));
    assert_eq!(rt;
        volume.add("A", 5, b"xyz", 0).err(),
        Some(VolumeFault::Duplicate)
    );
    assert_eq!(rt;
        volume.add("a:b", 5, b"", 0).err(),
        Some(VolumeFault::BadName)
    );
    let c = volume.add("C", 3, b"", 0).expect(&rt, "no refusal");
    assert_eq!(rt; (c.first, c.end, c.last_bytes), (7, 7, 512));
    assert_eq!(rt; volume.rename("A", "c").err(), Some(VolumeFault::Duplicate));
    assert_eq!(rt; volume.rename("b", "").err(), Some(VolumeFault::NoFile));
    assert_eq!(rt; volume.rename("a", "").err(), Some(VolumeFault::BadName));
    volume.rename("a", "A").expect(&rt, "no refusal");
    volume.rename("a", "bad").expect(&rt, "no refusal");
    volume.add("D", 1, b"stays", 0).expect(&rt, "no refusal");
    volume.remove("bad").expect(&rt, "no refusal");
    assert_eq!(rt; volume.remove("bad").err(), Some(VolumeFault::NoFile));
    volume.krunch();
    let places = (
        volume.find("c").map(|e| e.first),
        volume.find("d").map(|e| e.first),
    );
    assert_eq!(rt; places, (Some(6), Some(7)));
    if let Some(d) = volume.find("d") {
        assert_eq!(rt; volume.file(&d), Some(b"stays".as_slice()));
    }
    assert_eq!(rt; volume.zero("TOO:BAD").err(), Some(VolumeFault::BadName));
    volume.zero("new").expect(&rt, "no refusal");
    assert_eq!(rt; (volume.entries().count(), volume.blocks()), (0, 20));
}

#[test]
fn disks(rt: HostRuntime) {
    let mut disk = Volume::blank(rt.alloc(), "work", 20)
        .expect(&rt, "a volume")
        .into_disk();
    assert_eq!(rt; disk.blocks(), 20);
    assert_eq!(rt; disk.write(10239, b"ab"), false);
    assert_eq!(rt; disk.write(10238, b"ab"), true);
    assert_eq!(rt; disk.block(19).and_then(|b| b.last().copied()), Some(b'b'));
    assert_eq!(rt; disk.block(20).is_some(), false);
}

// Returns the bytes of `image` from the offset `begin` up to the offset `end`. Returns an empty slice if they are not
// in `image`.
fn part(image: &[u8], begin: usize, end: usize) -> &[u8] {
    match image.get(begin..end) {
        Some(bytes) => bytes,
        None => &[],
    }
}

// Returns whether `image` has bytes from `begin` up to `end`, and all of them are `byte`.
fn are_all(image: &[u8], begin: usize, end: usize, byte: u8) -> bool {
    let bytes = part(image, begin, end);
    !bytes.is_empty() && bytes.iter().all(|b| *b == byte)
}

// Returns an image of the volume W of 20 blocks with the file A at block 8. Every byte that no call reads is 165.
fn marked(alloc: Global) -> Result<Vec<u8>, AllocError> {
    let mut image = vec![in alloc; 165; 10240]?;
    write(&mut image, 1026, b"\x06\x00");
    write(&mut image, 1030, b"\x01W");
    write(&mut image, 1038, b"\x14\x00\x01\x00");
    write(&mut image, 1050, b"\x08\x00\x09\x00\xa5\xa5\x01A");
    write(&mut image, 1072, b"\x05\x00");
    Ok(image)
}

#[test]
fn unread_bytes_stay(rt: HostRuntime) {
    let mut volume = Volume::open(marked(rt.alloc()).expect(&rt, "memory"))
        .map_err(|e| e.0)
        .expect(&rt, "a volume");
    volume.set_date(513);
    volume.add("B", 5, b"b", 2).expect(&rt, "no refusal");
    volume.rename("a", "longer").expect(&rt, "no refusal");
    volume.remove("B").expect(&rt, "no refusal");
    assert_eq!(rt; volume.last_date(), 513);
    let image = volume.into_bytes();
    assert!(rt; are_all(&image, 0, 1026, 165));
    assert_eq!(rt;
        part(&image, 1026, 1032),
        b"\x06\x00\xa5\xa5\x01W".as_slice()
    );
    assert!(rt; are_all(&image, 1032, 1038, 165));
    assert_eq!(rt;
        part(&image, 1038, 1044),
        b"\x14\x00\x01\x00\xa5\xa5".as_slice()
    );
    assert_eq!(rt;
        part(&image, 1044, 1050),
        b"\x01\x02\xa5\xa5\xa5\xa5".as_slice()
    );
    assert_eq!(rt;
        part(&image, 1050, 1063),
        b"\x08\x00\x09\x00\xa5\xa5\x06LONGER".as_slice()
    );
    assert!(rt; are_all(&image, 1063, 1072, 0));
    assert_eq!(rt; part(&image, 1072, 1076), b"\x05\x00\xa5\xa5".as_slice());
    assert!(rt; are_all(&image, 1076, 1102, 0));
    assert!(rt; are_all(&image, 1102, 3072, 165));
    assert_eq!(rt; image.get(3072).copied(), Some(b'b'));
    assert!(rt; are_all(&image, 3073, 3584, 0));
    assert!(rt; are_all(&image, 3584, 10240, 165));
}

// Returns the image of a volume of 20 blocks with a second copy of its directory and a file A of 3 bytes.
fn doubled(alloc: Global) -> Result<Vec<u8>, VolumeFault> {
    let mut volume = Volume::blank(alloc, "work", 20)?;
    volume.add_duplicate()?;
    volume.add("A", 5, b"abc", 0)?;
    Ok(volume.into_bytes())
}

// Returns the fault of the image of `doubled` after these changes: the byte at offset 1,030 becomes `first`, the bytes
// from offset `at` on become `second`, and the image is cut to `size` bytes.
fn fault_of_doubled(
    alloc: Global,
    size: usize,
    first: u8,
    at: usize,
    second: &[u8],
) -> Option<VolumeFault> {
    let Ok(mut image) = doubled(alloc) else {
        return Some(VolumeFault::NoMemory);
    };
    write(&mut image, 1030, &[first]);
    write(&mut image, at, second);
    image.truncate(size);
    Volume::open(image).err().map(|e| e.0)
}

#[test]
fn copies_are_kept_the_same(rt: HostRuntime) {
    let mut image = work(rt.alloc()).expect(&rt, "no refusal");
    write(&mut image, 1026, b"\x0a");
    let mut volume = Volume::open(image).map_err(|e| e.0).expect(&rt, "a volume");
    assert_eq!(rt; volume.duplicate(), Copies::Differs);
    let a = volume.add("A", 5, b"abc", 0).expect(&rt, "no refusal");
    assert_eq!(rt; (a.first, volume.duplicate()), (10, Copies::Same));
    let space = volume.space();
    assert_eq!(rt; (space.free, space.largest), (9, 9));
    volume.remove("A").expect(&rt, "no refusal");
    let b = volume.add("B", 5, b"b", 0).expect(&rt, "no refusal");
    assert_eq!(rt; b.first, 10);
    volume.rename("b", "C").expect(&rt, "no refusal");
    volume.krunch();
    volume.set_date(9);
    assert_eq!(rt; volume.duplicate(), Copies::Same);
    volume.zero("NEW").expect(&rt, "no refusal");
    assert_eq!(rt; volume.duplicate(), Copies::Same);
    volume.drop_duplicate();
    assert_eq!(rt; volume.duplicate(), Copies::Single);
    let image = volume.into_bytes();
    assert!(rt; are_all(&image, 3072, 5120, 0));
}

#[test]
fn second_copy_repairs(rt: HostRuntime) {
    let bad = Some(VolumeFault::FirstCopyBad(3));
    let header = Some(VolumeFault::BadHeader);
    assert_eq!(rt; fault_of_doubled(rt.alloc(), 10240, 4, 0, b""), None);
    assert_eq!(rt; fault_of_doubled(rt.alloc(), 10240, 4, 5000, b"x"), None);
    assert_eq!(rt; fault_of_doubled(rt.alloc(), 10240, 0, 0, b""), bad);
    assert_eq!(rt;
        fault_of_doubled(rt.alloc(), 10240, 0, 3078, b"\x00"),
        header
    );
    assert_eq!(rt;
        fault_of_doubled(rt.alloc(), 10240, 0, 3074, b"\x06"),
        header
    );
    assert_eq!(rt; fault_of_doubled(rt.alloc(), 4608, 0, 0, b""), header);
    let past = Some(VolumeFault::PastEnd);
    assert_eq!(rt; fault_of_doubled(rt.alloc(), 4608, 4, 0, b""), past);
    let mut image = doubled(rt.alloc()).expect(&rt, "no refusal");
    write(&mut image, 1024, &[255; 2048]);
    let volume = Volume::repair(image)
        .map_err(|e| e.0)
        .expect(&rt, "a volume");
    assert_eq!(rt; volume.duplicate(), Copies::Same);
    assert_eq!(rt;
        (volume.entries().count(), volume.name()),
        (1, b"WORK".as_slice())
    );
    if let Some(a) = volume.find("a") {
        assert_eq!(rt; volume.file(&a), Some(b"abc".as_slice()));
    }
}

#[test]
fn room_for_a_second_copy(rt: HostRuntime) {
    let mut small = Volume::blank(rt.alloc(), "WORK", 8).expect(&rt, "a volume");
    assert_eq!(rt; small.add_duplicate().err(), Some(VolumeFault::BadHeader));
    let mut volume = Volume::blank(rt.alloc(), "WORK", 20).expect(&rt, "a volume");
    volume.add("A", 5, b"", 0).expect(&rt, "no refusal");
    assert_eq!(rt; volume.add_duplicate().err(), Some(VolumeFault::Occupied));
    volume.drop_duplicate();
    assert_eq!(rt;
        (volume.duplicate(), volume.entries().count()),
        (Copies::Single, 1)
    );
}
