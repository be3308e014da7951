// Streams and children in memory (`child_mem`).
use child_mem::{MemSource, MemSpawner};
use children::{Source, Spawner};
use mvn_shared::{Bytes, List};
use std::test::Fail;

#[test]
fn a_source_gives_its_bytes(rt: HostRuntime) -> Result<(), Fail> {
    let mut into = [0u8; 4];
    let mut source = MemSource::without_failures(Bytes::from_slice(rt.alloc(), b"ab")?);
    assert!(rt; matches!(source.read(&mut into), Ok(2)));
    Ok(())
}

#[test]
fn a_spawner_starts_a_child(rt: HostRuntime) {
    let mut spawner = MemSpawner::without_failures(rt.alloc(), List::new(rt.alloc()));
    assert!(rt; matches!(spawner.start(), Ok(0)));
}
