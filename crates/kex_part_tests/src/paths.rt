//! Path trees of the machine of `/(a|b)*a/`, worked by hand.
use crate::made::ANY;
use kex_compile::compile;
use kex_paths::tree::PathTree;
use kex_sst::parts::{Part, Update};
use std::test::Fail;

// Whether a tree of this shape has come, and what is passed on; no tree, where the shape has no
// node.
fn has_come(next: Option<(PathTree<'_>, Update)>, shape: &[bool], out: &[Part]) -> bool {
    match next {
        None => shape.is_empty(),
        Some((tree, update)) => tree.shape() == shape && update.out().as_slice() == out,
    }
}

#[test]
fn trees_go_on_by_classes(rt: HostRuntime) -> Result<(), Fail> {
    let compiled = compile(rt.alloc(), b"main := /(a|b)*a/", &ANY)?;
    let machine = compiled.stages().first().ok_or("no stage")?.machine();
    let (start, _) = PathTree::start(rt.alloc(), machine)?;
    let small: &[bool] = &[true, true, false, false, false];
    let large: &[bool] = &[true, true, true, false, false, false, false];
    assert!(rt; start.shape() == small);
    assert_eq!(rt; start.key(rt.alloc())?.len(), 5);
    // class 0 has all bytes but `a` and `b`, 1 has `a`, 2 has `b`
    let rows: [(u8, &[bool], &[Part]); 4] = [
        (0, &[], &[]),
        (1, large, &[]),
        (2, small, &[Part::Old(0), Part::Old(2), Part::Input]),
        (3, &[], &[]),
    ];
    for (class, shape, out) in rows {
        let next = start.advance(rt.alloc(), class)?;
        assert!(rt; has_come(next, shape, out), "class {class}");
    }
    Ok(())
}
