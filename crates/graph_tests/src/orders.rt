// The three orders, where due minutes, ranks or classes are the same and where they are not.
use super::selection::{RANKS, first_of, four_lifts};
use precedence::{ByClass, ByDue, ByNumber, Precedence};
use std::test::Fail;

#[test]
fn by_number(rt: HostRuntime) -> Result<(), Fail> {
    let [a, b, c, d] = four_lifts()?;
    assert!(rt; ByNumber.before(b, a));
    assert!(rt; !ByNumber.before(a, b));
    assert!(rt; !ByNumber.before(a, a));
    assert!(rt; ByNumber.before(c, d));
    assert_eq!(rt; first_of(&ByNumber, &[a, b, c, d]), Some(1));
    Ok(())
}

#[test]
fn by_due(rt: HostRuntime) -> Result<(), Fail> {
    let [a, b, c, d] = four_lifts()?;
    assert!(rt; ByDue.before(d, a));
    assert!(rt; ByDue.before(b, a));
    assert!(rt; !ByDue.before(a, b));
    assert!(rt; !ByDue.before(b, b));
    assert!(rt; ByDue.before(a, c));
    assert_eq!(rt; first_of(&ByDue, &[a, b, c, d]), Some(3));
    assert_eq!(rt; first_of(&ByDue, &[a, b, c]), Some(1));
    Ok(())
}

#[test]
fn by_class(rt: HostRuntime) -> Result<(), Fail> {
    let order = ByClass::new(RANKS);
    let [a, b, c, d] = four_lifts()?;
    assert!(rt; order.before(d, b));
    assert!(rt; order.before(b, c));
    assert!(rt; !order.before(c, b));
    assert!(rt; order.before(c, a));
    assert!(rt; !order.before(a, a));
    assert_eq!(rt; first_of(&order, &[a, b, c, d]), Some(3));
    assert_eq!(rt; first_of(&order, &[a, c, b]), Some(2));
    assert_eq!(rt; first_of(&order, &[]), None);
    Ok(())
}
