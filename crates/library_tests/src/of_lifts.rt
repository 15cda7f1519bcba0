// Ranges of lift records, and the faults of those out of range.
use super::board_fault;
use lifts::{Fault, Layer, Lift, LiftNumber, LiftPair, Refusal, State};
use std::test::Fail;

#[test]
fn numbers_to_511(rt: HostRuntime) {
    assert_eq!(rt; LiftNumber::new(0, Layer::Board).err(), None);
    assert_eq!(rt; LiftNumber::new(511, Layer::Board).err(), None);
    assert_eq!(rt;
        LiftNumber::new(512, Layer::Board).err(),
        Some(board_fault(Refusal::NumberTooLarge, 512))
    );
    assert_eq!(rt;
        LiftNumber::new(512, Layer::Book).err(),
        Some(Fault::about(Refusal::NumberTooLarge, Layer::Book, 512))
    );
}

#[test]
fn records_in_range(rt: HostRuntime) -> Result<(), Fail> {
    assert_eq!(rt; Lift::new(511, 10079, 15).err(), None);
    assert_eq!(rt;
        Lift::new(5, 10080, 0).err(),
        Some(board_fault(Refusal::DueOrClassTooLarge, 5))
    );
    assert_eq!(rt;
        Lift::new(5, 0, 16).err(),
        Some(board_fault(Refusal::DueOrClassTooLarge, 5))
    );
    assert_eq!(rt;
        Lift::new(512, 10080, 16).err(),
        Some(board_fault(Refusal::NumberTooLarge, 512))
    );
    let lift = Lift::new(7, 95, 3)?;
    assert_eq!(rt; lift.number().get(), 7);
    assert_eq!(rt; lift.due(), 95);
    assert_eq!(rt; lift.class(), 3);
    Ok(())
}

#[test]
fn pairs_of_two(rt: HostRuntime) {
    assert_eq!(rt; LiftPair::new(0, 511, Layer::Board).err(), None);
    assert_eq!(rt;
        LiftPair::new(512, 513, Layer::Board).err(),
        Some(board_fault(Refusal::NumberTooLarge, 512))
    );
    assert_eq!(rt;
        LiftPair::new(2, 513, Layer::Board).err(),
        Some(board_fault(Refusal::NumberTooLarge, 513))
    );
    assert_eq!(rt;
        LiftPair::new(600, 600, Layer::Board).err(),
        Some(board_fault(Refusal::NumberTooLarge, 600))
    );
    assert_eq!(rt;
        LiftPair::new(2, 2, Layer::Board).err(),
        Some(board_fault(Refusal::SameLiftTwice, 2))
    );
}

#[test]
fn numbers_of_cases(rt: HostRuntime) {
    assert_eq!(rt; u32::from(Refusal::ThresholdOutOfRange), 1);
    assert_eq!(rt; u32::from(Refusal::LineNumberOutOfRange), 15);
    assert_eq!(rt; u32::from(State::Released), 1);
    assert_eq!(rt; u32::from(State::Held), 2);
    assert_eq!(rt; u32::from(State::Off), 3);
    assert_eq!(rt; Refusal::ThresholdOutOfRange.number(), 1);
    assert_eq!(rt; Refusal::LineNumberOutOfRange.number(), 15);
    assert_eq!(rt; State::Released.number(), 1);
    assert_eq!(rt; State::Held.number(), 2);
    assert_eq!(rt; State::Off.number(), 3);
}

#[test]
fn faults_are_told(rt: HostRuntime) -> Result<(), Fail> {
    let alloc = rt.alloc();
    let large = board_fault(Refusal::NumberTooLarge, 512);
    let full = Fault::without_lift(Refusal::TextFull, Layer::File);
    assert_eq!(rt;
        format!(in alloc; "{large}")?.as_str(),
        "refused 3, lift 512"
    );
    assert_eq!(rt; format!(in alloc; "{full}")?.as_str(), "refused 13");
    Ok(())
}
