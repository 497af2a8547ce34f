// How many values an answer or a command has.
use crate::{Answer, Values};
use table_refusals::Refusal;

#[test]
fn holds_the_first_three(rt: HostRuntime) {
    let held = Values::of(&[5, 6, 7, 8]);
    assert_eq!(rt; held.count, 3);
    assert_eq!(rt; held.as_slice(), [5, 6, 7].as_slice());
}

#[test]
fn holds_all_of_fewer(rt: HostRuntime) {
    let held = Values::of(&[5, 6]);
    assert_eq!(rt; held.count, 2);
    assert_eq!(rt; held.as_slice(), [5, 6].as_slice());
    assert_eq!(rt; Values::of(&[]).count, 0);
}

#[test]
fn an_arrival_has_three(rt: HostRuntime) {
    let arrived = Answer::Arrived(4, 2, 1);
    assert_eq!(rt; arrived.values().count, 3);
    assert_eq!(rt;
        crate::values_told(Ok(arrived)).as_slice(),
        [4, 2, 1].as_slice()
    );
}

#[test]
fn a_refusal_has_none(rt: HostRuntime) {
    assert_eq!(rt; crate::values_told(Err(Refusal::Unsound)).count, 0);
}
