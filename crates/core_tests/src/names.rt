// Tests of Maven's names (`mvn_base`), faulty words (`cli_words`), versions (`versions`) and locks (`build_core`).
use build_core::{LockTable, Mode, Tried};
use cli_words::WordKind;
use mvn_base::{Rule, artifact_folder, phase_of, valid_group};
use mvn_shared::Text;
use std::test::Fail;
use versions::{Interval, Kind};

#[test]
fn what_is_refused_has_its_name(rt: HostRuntime) {
    assert_eq!(rt; Rule::LineageTooLong.name(), "LineageTooLong");
    assert_eq!(rt; WordKind::TooManyWorkers.name(), "TooManyWorkers");
    assert!(rt; phase_of(b"test-compile").is_some_and(|phase| phase.name() == "test-compile"));
}

#[test]
fn a_qualifier_stands_in_front_of_a_number(rt: HostRuntime) {
    assert!(rt; Kind::Qualifier.rank() < Kind::DotNumber.rank());
    let all = Interval {
        lower: None,
        upper: None,
    };
    assert!(rt; !all.is_crossed());
}

#[test]
fn an_artifact_has_its_folder(rt: HostRuntime) -> Result<(), Fail> {
    let group = Text::from_str(rt.alloc(), "org.demo")?;
    if !valid_group(group.as_bytes()) {
        return Err(Fail::new("the group"));
    }
    let folder = artifact_folder(rt.alloc(), &group, &group)?;
    assert_eq!(rt; folder.as_str(), "org/demo/org.demo");
    Ok(())
}

#[test]
fn a_reader_keeps_a_writer_out(rt: HostRuntime) -> Result<(), Fail> {
    let mut table = LockTable::new(rt.alloc(), 1, 2)?;
    if table.names() != 1 || table.workers() != 2 || table.holds(0, 0).is_some() {
        return Err(Fail::new("another table"));
    }
    assert!(rt; table.take(0, 0, Mode::Shared) == Tried::Taken);
    assert!(rt; table.blocker(0, 1, Mode::Shared).is_none());
    assert!(rt; table.blocker(0, 1, Mode::Exclusive) == Some(0));
    Ok(())
}
