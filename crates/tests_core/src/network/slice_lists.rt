//! Lists of slices.
use crate::comparing::assert_equal;
use tests_support::slice;
use tox_time::SliceList;

#[test]
fn a_list_is_made_from_a_vector_and_gives_it_back(rt: HostRuntime) {
    let listed = [slice(0, 2, 0), slice(2, 3, 1000)];
    let first = listed[..1].to_vec(rt.alloc()).expect(&rt, "memory");
    let mut slices = SliceList::from(first);
    slices.push(listed[1]).expect(&rt, "memory");
    let slices = slices.into_vec();
    assert_equal(&rt, &slices.as_slice(), &listed.as_slice());
}
