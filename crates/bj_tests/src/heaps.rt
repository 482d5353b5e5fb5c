use bj_core::{HeapLimits, Ty, Val};
use bj_heap::{Heap, HeapFault};
use std::test::Fail;

#[test]
fn keeps_the_values_of_the_objects(rt: HostRuntime) -> Result<(), Fail> {
    let mut heap = Heap::new(
        rt.alloc(),
        HeapLimits {
            objects: 3,
            cells: 4,
        },
    );
    assert!(rt; heap.reserve(3, 4) == Ok(()));
    assert!(rt; heap.reserve(4, 0) == Err(HeapFault::Full));
    assert!(rt; heap.reserve(0, 5) == Err(HeapFault::Full));
    assert!(rt; heap.make(7, &[Val::Int(1), Val::Null]) == Ok(1));
    assert!(rt; heap.make(8, &[Val::Int(2), Val::Int(3), Val::Int(4)]) == Err(HeapFault::Full));
    assert!(rt; heap.make(8, &[Val::Int(2), Val::Bool(true)]) == Ok(2));
    assert!(rt; heap.make(9, &[]) == Ok(3));
    assert!(rt; heap.make(9, &[]) == Err(HeapFault::Full));
    if heap.cell(2, 0).is_some() {
        assert!(rt; heap.get(2, 0) == Val::Int(2));
        heap.put(2, 0, Val::Int(5));
    }
    for (object, slot, want) in [
        (1, 0, Some(Val::Int(1))),
        (1, 1, Some(Val::Null)),
        (1, 2, None),
        (2, 0, Some(Val::Int(5))),
        (2, 1, Some(Val::Bool(true))),
        (3, 0, None),
        (0, 0, None),
        (4, 0, None),
    ] {
        assert!(rt; heap.cell(object, slot) == want);
    }
    assert!(rt; heap.own(2) == Some(Ty::Class(8)));
    assert!(rt; heap.own(4) == None);
    Ok(())
}
