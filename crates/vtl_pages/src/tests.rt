use crate::Pages;
use std::rc::Rc;
use std::test::*;

// Over the small first block and some large ones: pushes into room made before and without, swaps from block to block,
// and a pop.
#[test]
fn drops_each_value_once(rt: HostRuntime) -> Result<(), Fail> {
    let counted = Rc::new(rt.alloc(), 0)?;
    let mut pages = Pages::new(rt.alloc(), 3);
    pages.reserve(3000)?;
    for _ in 0..6000 {
        let one = counted.clone()?;
        if pages.spare() > 0 {
            pages.push(one);
        } else {
            assert!(rt; pages.try_push(one).is_ok());
        }
    }
    for i in 0..2000 {
        let j = 5999 - i;
        if i < pages.len() && j < pages.len() {
            pages.swap(i, j);
        }
    }
    assert_eq!(rt; Rc::strong_count(&counted), 6001);
    drop(pages.pop());
    assert_eq!(rt; Rc::strong_count(&counted), 6000);
    drop(pages);
    assert_eq!(rt; Rc::strong_count(&counted), 1);
    Ok(())
}

// Over the small first block and some large ones: the first and the last item of each run are kept.
#[test]
fn narrows_each_run(rt: HostRuntime) -> Result<(), Fail> {
    let mut pages = Pages::new(rt.alloc(), 3);
    for i in 0..6000usize {
        assert!(rt; pages.try_push(i).is_ok());
    }
    if pages.len() == 6000 && pages.width() == 3 {
        let narrow = pages.narrowed(rt.alloc(), &[0, 2])?;
        assert_eq!(rt; narrow.len(), 4000);
        assert_eq!(rt; narrow.width(), 2);
        if narrow.len() == 4000 && narrow.width() == 2 {
            assert!(rt; narrow.run(0) == [0, 2].as_slice());
            assert!(rt; narrow.run(16) == [48, 50].as_slice());
            assert!(rt; narrow.run(1999) == [5997, 5999].as_slice());
        }
    }
    Ok(())
}

// Items that do not stay are dropped once, and those that stay as well.
#[test]
fn narrowed_drops_each_value_once(rt: HostRuntime) -> Result<(), Fail> {
    let counted = Rc::new(rt.alloc(), 0)?;
    let mut pages = Pages::new(rt.alloc(), 3);
    for _ in 0..6000 {
        assert!(rt; pages.try_push(counted.clone()?).is_ok());
    }
    assert_eq!(rt; Rc::strong_count(&counted), 6001);
    if pages.len() == 6000 && pages.width() == 3 {
        let narrow = pages.narrowed(rt.alloc(), &[1])?;
        assert_eq!(rt; Rc::strong_count(&counted), 2001);
        drop(narrow);
    }
    assert_eq!(rt; Rc::strong_count(&counted), 1);
    Ok(())
}

// No memory holds a block of this many places.
#[test]
fn hands_a_refused_value_back(rt: HostRuntime) -> Result<(), Fail> {
    let counted = Rc::new(rt.alloc(), 7)?;
    let mut pages = Pages::new(rt.alloc(), usize::MAX / 4);
    match pages.try_push(counted.clone()?) {
        Ok(()) => assert!(rt; false),
        Err(back) => assert_eq!(rt; *back, 7),
    }
    assert_eq!(rt; Rc::strong_count(&counted), 1);
    assert_eq!(rt; pages.len(), 0);
    Ok(())
}

// So many rows fit no memory; what is there stays, and no block is taken.
#[test]
fn refuses_too_large_a_reservation(rt: HostRuntime) -> Result<(), Fail> {
    let mut pages = Pages::new(rt.alloc(), 4);
    assert!(rt; pages.try_push(9u64).is_ok());
    let spare = pages.spare();
    assert!(rt; pages.reserve(1 << 42).is_err());
    assert_eq!(rt; pages.len(), 1);
    assert_eq!(rt; pages.spare(), spare);
    Ok(())
}

#[test]
fn is_a_list_of_runs(rt: HostRuntime) -> Result<(), Fail> {
    let mut pages = Pages::new(rt.alloc(), 4);
    for i in 0..6000usize {
        assert!(rt; pages.try_push(i).is_ok());
    }
    let mut last = vec![in rt.alloc(); 6000, 6001, 6002, 6003]?;
    if pages.len() == 6000 && pages.width() == 4 {
        if pages.spare() >= 4 {
            pages.push_run(&mut last);
        }
    }
    assert_eq!(rt; pages.len(), 6004);
    assert_eq!(rt; last.len(), 0);
    if pages.len() == 6004 && pages.width() == 4 {
        pages.swap(1, 4097);
        assert_eq!(rt; *pages.get(1), 4097);
    }
    if pages.len() == 6004 && pages.width() == 4 {
        assert!(rt; pages.slice(4096, 4) == [4096, 1, 4098, 4099].as_slice());
        assert!(rt; pages.run(0) == [0, 4097, 2, 3].as_slice());
        assert!(rt; pages.run(1500) == [6000, 6001, 6002, 6003].as_slice());
    }
    assert_eq!(rt; pages.pop(), Some(6003));
    Ok(())
}

#[test]
fn appends_other_pages(rt: HostRuntime) -> Result<(), Fail> {
    let mut front = Pages::new(rt.alloc(), 2);
    let mut back = Pages::new(rt.alloc(), 3);
    for i in 0..100usize {
        assert!(rt; front.try_push(i).is_ok());
        assert!(rt; back.try_push(100 + i).is_ok());
    }
    front.append(&mut back)?;
    assert_eq!(rt; front.len(), 200);
    assert!(rt; back.is_empty());
    if front.len() == 200 && front.width() == 2 {
        assert!(rt; front.run(0) == [0, 1].as_slice());
        assert!(rt; front.run(50) == [100, 101].as_slice());
        assert!(rt; front.run(99) == [198, 199].as_slice());
    }
    Ok(())
}
