// Files that are there, long, absent or closed to the reader.
use crate::file_bytes;
use std::io;
use std::io::ErrorKind;
use std::test::Fail;

#[test]
fn whole(rt: HostRuntime) -> Result<(), Fail> {
    let opened: io::Result<&[u8]> = Ok(b"parcel");
    let bytes = file_bytes(rt.alloc(), opened, 6)?;
    assert_eq!(rt; bytes.as_slice(), b"parcel".as_slice());
    Ok(())
}

#[test]
fn long(rt: HostRuntime) -> Result<(), Fail> {
    let opened: io::Result<&[u8]> = Ok(b"parcels");
    let bytes = file_bytes(rt.alloc(), opened, 6)?;
    assert_eq!(rt; bytes.as_slice(), b"parcel".as_slice());
    Ok(())
}

#[test]
fn absent(rt: HostRuntime) -> Result<(), Fail> {
    let opened: io::Result<&[u8]> = Err(io::Error::from(ErrorKind::NotFound));
    let bytes = file_bytes(rt.alloc(), opened, 6)?;
    assert!(rt; bytes.is_empty());
    Ok(())
}

#[test]
fn closed(rt: HostRuntime) -> Result<(), Fail> {
    let opened: io::Result<&[u8]> = Err(io::Error::from(ErrorKind::PermissionDenied));
    let outcome = file_bytes(rt.alloc(), opened, 6);
    assert!(rt; outcome.is_err());
    Ok(())
}
