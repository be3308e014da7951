// Objects over real files and streams (`outside_real`); what they do on a disk is rows of `disk_rows`.
use mvn_outside::{Area, Sink};
use mvn_shared::Text;
use outside_real::{RealArea, RealSink};
use std::fs;
use std::test::Fail;

#[test]
fn a_sink_writes_to_its_stream(rt: HostRuntime) -> Result<(), Fail> {
    let mut bytes = Vec::new(rt.alloc());
    assert!(rt; matches!(RealSink::new(&mut bytes).write(b"ab"), Ok(2)));
    assert!(rt; bytes.as_slice() == b"ab".as_slice());
    Ok(())
}

#[test]
fn a_piece_is_discarded(rt: HostRuntime) -> Result<(), Fail> {
    let folder = Text::from_str(rt.alloc(), "staging")?;
    let mut area = RealArea::new(&rt, folder, Text::from_str(rt.alloc(), "one")?);
    let Ok(piece) = area.begin() else {
        return Err(Fail::new("no piece"));
    };
    assert!(rt; area.discard(piece).is_ok());
    assert!(rt; fs::metadata(&rt, "staging/one-0").is_err());
    Ok(())
}
