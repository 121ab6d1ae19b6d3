//! What is noted of each item of a volume: marks, users, names, and what leads to the root.

use ds_image::{Marks, NameCounts, Users, reached};
use std::test::Fail;

#[test]
fn marks_list_after_list(rt: HostRuntime) -> Result<(), Fail> {
    let mut marks = Marks::new(rt.alloc(), 8)?;
    assert!(rt; marks.mark_list(&[5, 0]));
    assert!(rt; marks.mark_list(&[]));
    assert!(rt; marks.mark_list(&[7, 2, 1]));
    assert!(rt; marks.are(&[true, true, true, false, false, true, false, true]));
    assert!(rt; !marks.are(&[true, true, true, false, false, true, false]));
    assert!(rt; marks.are_from(5, &[true, false, true]));
    assert!(rt; !marks.are_from(6, &[false, true, false]));
    assert!(rt; marks.are_from(9, &[]));
    assert!(rt; marks.is_marked(7));
    assert!(rt; !marks.is_marked(8));
    Ok(())
}

#[test]
fn stops_at_an_item_listed_twice_or_not_there(rt: HostRuntime) -> Result<(), Fail> {
    let mut marks = Marks::new(rt.alloc(), 4)?;
    assert!(rt; !marks.mark_list(&[1, 3, 1]));
    assert!(rt; marks.are(&[false, true, false, true]));
    assert!(rt; !marks.mark_list(&[0, 3, 2]));
    assert!(rt; marks.are(&[true, true, false, true]));
    assert!(rt; !marks.mark_list(&[2, 4]));
    assert!(rt; marks.are(&[true, true, true, true]));
    Ok(())
}

#[test]
fn keeps_the_first_two_users(rt: HostRuntime) -> Result<(), Fail> {
    let mut table = Users::new(rt.alloc(), 3)?;
    table.note(2, 4);
    table.note(0, 4);
    table.note(2, 4);
    table.note(2, 9);
    assert_eq!(rt; table.first(0), Some(4));
    assert_eq!(rt; table.second(0), None);
    assert_eq!(rt; table.first(1), None);
    assert_eq!(rt; table.first(2), Some(4));
    assert_eq!(rt; table.second(2), Some(4));
    assert_eq!(rt; table.first(3), None);
    let firsts = table.firsts(rt.alloc())?;
    assert_eq!(rt; firsts.as_slice(), [Some(4), None, Some(4)].as_slice());
    Ok(())
}

#[test]
fn counts_each_name(rt: HostRuntime) -> Result<(), Fail> {
    let mut names = NameCounts::new(rt.alloc(), 3)?;
    names.note(1);
    names.note(2);
    names.note(1);
    names.note(1);
    assert_eq!(rt; names.of(0), 0);
    assert_eq!(rt; names.of(1), 3);
    assert_eq!(rt; names.of(2), 1);
    assert_eq!(rt; names.of(3), 0);
    Ok(())
}

#[test]
fn tells_what_is_reached(rt: HostRuntime) -> Result<(), Fail> {
    let none = reached(rt.alloc(), &[])?;
    assert_eq!(rt; none.len(), 0);

    // 3 leads by 2 and 1 to the root; 4 and 5 lead to each other, and 6 to them; 7 has no parent, 8 one that isn't there.
    let parents = [
        None,
        Some(0),
        Some(1),
        Some(2),
        Some(5),
        Some(4),
        Some(4),
        None,
        Some(9),
    ];
    let which = reached(rt.alloc(), &parents)?;
    let wanted = [true, true, true, true, false, false, false, false, false];
    assert_eq!(rt; which.as_slice(), wanted.as_slice());
    Ok(())
}
