// Lists over lent places: full, cleared and filled again.
use lifts::{Fault, Layer, Refusal};
use lists::List;
use std::test::Fail;

#[derive(Clone, Copy, PartialEq, Eq, Debug)]
struct Entry {
    number: u32,
    weight: u16,
}

#[test]
fn numbers(rt: HostRuntime) -> Result<(), Fail> {
    let mut places = [7u32; 3];
    {
        let mut list = List::new(&mut places);
        assert_eq!(rt; list.len(), 0);
        assert_eq!(rt; list.get(0).copied(), None);
        list.append(10)?;
        list.append(20)?;
        assert_eq!(rt; list.free(), 1);
        list.append(30)?;
        assert_eq!(rt;
            list.append(40),
            Err(Fault::without_lift(Refusal::ListFull, Layer::Board))
        );
        assert_eq!(rt; list.len(), 3);
        assert_eq!(rt; list.get(2).copied(), Some(30));
        assert_eq!(rt; list.get(3).copied(), None);
        list.clear();
        assert_eq!(rt; list.free(), 3);
        assert_eq!(rt; list.get(0).copied(), None);
        list.append(50)?;
        assert_eq!(rt; list.get(0).copied(), Some(50));
    }
    assert_eq!(rt; places, [50, 20, 30]);
    Ok(())
}

#[test]
fn records(rt: HostRuntime) -> Result<(), Fail> {
    let first = Entry {
        number: 1,
        weight: 100,
    };
    let second = Entry {
        number: 2,
        weight: 200,
    };
    let mut places = [first; 1];
    let mut list = List::new(&mut places);
    list.append(second)?;
    assert_eq!(rt; list.get(0).copied(), Some(second));
    assert!(rt; list.append(first).is_err());
    assert_eq!(rt; list.get(0).copied(), Some(second));
    Ok(())
}

#[test]
fn no_places(rt: HostRuntime) {
    let mut places: [u32; 0] = [];
    let mut list = List::new(&mut places);
    assert_eq!(rt; list.free(), 0);
    assert!(rt; list.append(1).is_err());
    assert_eq!(rt; list.len(), 0);
}
