//! The one test: what is answered of each row.

use crate::integers::INTEGERS;
use crate::made::MADE;
use crate::orders::ORDERS;
use crate::terms::TERMS;
use crate::worlds::{atoms, found};
use std::test::Fail;

#[test]
fn each_row_is_answered(rt: HostRuntime) -> Result<(), Fail> {
    let atoms = atoms(rt.alloc())?;
    let rows = INTEGERS
        .iter()
        .chain(ORDERS.iter())
        .chain(TERMS.iter())
        .chain(MADE.iter());
    for (k, operands, room, wanted) in rows {
        let found = found(rt.alloc(), &atoms, *k, operands, *room)?;
        assert_eq!(rt; found.as_str(), *wanted, "{k} {operands} {room}");
    }
    Ok(())
}
