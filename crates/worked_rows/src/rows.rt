//! The rows as a list, by their names, and as branches.

use cax64_machine_code::row::{Branch, Row};

#[test]
fn each_row_is_found_by_its_name(rt: HostRuntime) {
    assert_eq!(rt; Row::all().len(), 158);
    assert_eq!(rt; Row::all().first(), Some(&Row::lock_addb_mi));
    assert_eq!(rt; Row::all().last(), Some(&Row::nopw_rm));
    for row in Row::all() {
        assert_eq!(rt; Row::from_name(row.name()), Some(*row));
    }
    for name in ["", "lock_addb", "lock_addb_mi ", "Lock_addb_mi", "nop_9b"] {
        assert_eq!(rt; Row::from_name(name), None);
    }
}

/// How many rows are such a branch.
fn count(branch: Option<Branch>) -> usize {
    let mut count = 0usize;
    for row in Row::all() {
        if row.branch() == branch {
            count = count.saturating_add(1);
        }
    }
    count
}

#[test]
fn some_rows_are_branches(rt: HostRuntime) {
    assert_eq!(rt; count(Some(Branch::Jump)), 3);
    assert_eq!(rt; count(Some(Branch::Call)), 2);
    assert_eq!(rt; count(Some(Branch::Conditional)), 32);
    assert_eq!(rt; count(None), 121);
    assert_eq!(rt; Row::callq_m.branch(), Some(Branch::Call));
    assert_eq!(rt; Row::jmpq_m.branch(), Some(Branch::Jump));
    assert_eq!(rt; Row::jge_d32.branch(), Some(Branch::Conditional));
    assert_eq!(rt; Row::mulxl_rvm.branch(), None);
}
