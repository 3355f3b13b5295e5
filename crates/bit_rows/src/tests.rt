use crate::BitRows;
use std::test::Fail;

#[test]
fn a_row_takes_the_bits_of_another(rt: HostRuntime) -> Result<(), Fail> {
    let mut rows = BitRows::new(rt.alloc(), 2, 130)?;
    rows.set(1, 0, true);
    rows.set(1, 63, true);
    rows.set(1, 64, true);
    rows.set(1, 129, true);
    assert!(rt; rows.or_row(0, 1));
    assert!(rt; rows.get(0, 63) && rows.get(0, 64) && rows.get(0, 129));
    assert!(rt; !rows.get(0, 65) && !rows.get(0, 128));
    assert!(rt; rows.meets(0, 1));
    assert!(rt; rows.minus_row(0, 1));
    assert!(rt; !rows.get(0, 63));
    assert!(rt; !rows.meets(0, 1));
    assert!(rt; rows.copy_row(0, 1));
    assert!(rt; rows.get(0, 129));
    Ok(())
}

#[test]
fn nothing_new_changes_no_row(rt: HostRuntime) -> Result<(), Fail> {
    let mut rows = BitRows::new(rt.alloc(), 2, 70)?;
    rows.set(1, 69, true);
    assert!(rt; rows.or_row(0, 1));
    assert!(rt; !rows.or_row(0, 1));
    assert!(rt; !rows.or_row(1, 1));
    Ok(())
}

#[test]
fn a_long_row_takes_bits_at_the_ends_of_its_blocks(rt: HostRuntime) -> Result<(), Fail> {
    let mut rows = BitRows::new(rt.alloc(), 2, 1090)?;
    rows.set(1, 511, true);
    rows.set(1, 512, true);
    rows.set(1, 1089, true);
    assert!(rt; !rows.meets(0, 1));
    assert!(rt; rows.or_row(0, 1));
    assert!(rt; rows.get(0, 511) && rows.get(0, 512) && rows.get(0, 1089));
    assert!(rt; !rows.get(0, 510) && !rows.get(0, 1023) && !rows.get(0, 1088));
    assert!(rt; !rows.copy_row(0, 1));
    rows.set(1, 1089, false);
    assert!(rt; rows.minus_row(0, 1) && !rows.meets(0, 1));
    assert!(rt; rows.get(0, 1089));
    Ok(())
}
