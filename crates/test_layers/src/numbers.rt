//! Sets of numbers against what a look at each number finds.
use sorted_pages::NumberSet;

#[test]
fn a_set_has_its_numbers_and_no_others(rt: HostRuntime) {
    // 7 and 135 share a place, as 0, 128 and 256 do; the greatest number is the mark of a free place.
    let all = [7, 135, 0, 128, 300, u64::MAX];
    let set = NumberSet::of(&all);
    for number in [7, 135, 0, 128, 300, u64::MAX] {
        assert!(rt; set.contains(number), "{number}");
    }
    for number in [1, 6, 8, 44, 127, 129, 256, 263, 301, u64::MAX - 1] {
        assert!(rt; !set.contains(number), "{number}");
    }
    assert!(rt; set.numbers() == [7, 135, 0, 128, 300, u64::MAX].as_slice());
}

#[test]
fn an_empty_set_has_none(rt: HostRuntime) {
    let set = NumberSet::of(&[]);
    for number in [0, 1, u64::MAX] {
        assert!(rt; !set.contains(number), "{number}");
    }
}
