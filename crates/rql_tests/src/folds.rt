//! What no clause says: that closures of the caller can be handed in, and what they then answer.

use fold_kit::{Combiner, FoldSet, Folds, How};

const BOUND: i128 = 1 << 100;

#[test]
fn closures_are_combined_by_their_names(rt: HostRuntime) {
    let folds = FoldSet::new(
        Combiner::new(How::Min, |a: i128, b: i128| a.min(b)),
        Combiner::new(How::Max, |a: i128, b: i128| a.max(b)),
        Combiner::new(How::Add, |a: i128, b: i128| a.wrapping_add(b)),
    );
    for (how, a, b, want) in [
        (How::Min, 3, -4, -4),
        (How::Min, -4, 3, -4),
        (How::Max, 3, -4, 3),
        (How::Max, -BOUND, BOUND, BOUND),
        (How::Add, 3, -4, -1),
        (How::Add, BOUND, BOUND, 2 * BOUND),
        (How::Add, -BOUND, BOUND, 0),
    ] {
        assert_eq!(rt; folds.combine(how, a, b), want);
    }
}
