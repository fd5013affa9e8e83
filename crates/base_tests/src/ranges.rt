//! The range of neighbours that a merge takes.

use merge_choice::choose;
use std::test::Fail;

// The first range of the table below, by factor: only factors 2 and 4 have one.
fn expected(factor: u32) -> Option<(usize, usize)> {
    match factor {
        2 => Some((1, 3)),
        4 => Some((1, 5)),
        _ => None,
    }
}

#[test]
fn ranges_of_a_table(rt: HostRuntime) -> Result<(), Fail> {
    let sizes = [
        None,
        Some(0),
        Some(1),
        Some(3),
        Some(2),
        None,
        Some(4),
        Some(5),
        Some(9),
        Some(8),
    ];
    for factor in 2..17 {
        assert_eq!(rt; choose(&sizes, factor), expected(factor));
    }
    assert_eq!(rt; choose(&[], 2), None);
    Ok(())
}
