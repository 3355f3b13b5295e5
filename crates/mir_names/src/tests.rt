use crate::{NameFault, Names};
use std::test::Fail;

#[test]
fn a_name_is_numbered_once(rt: HostRuntime) -> Result<(), Fail> {
    let mut names = Names::new(rt.alloc());
    assert_eq!(rt; names.add(b"a".as_slice()).ok(), Some(0));
    assert_eq!(rt; names.add(b"b".as_slice()).ok(), Some(1));
    assert!(rt; matches!(names.add(b"a".as_slice()), Err(NameFault::Twice(0))));
    assert_eq!(rt; names.len(), 2);
    assert_eq!(rt; names.find(b"b".as_slice()), Some(1));
    assert_eq!(rt; names.find(b"c".as_slice()), None);
    assert!(rt; names.get(1) == Some(b"b".as_slice()));
    Ok(())
}
