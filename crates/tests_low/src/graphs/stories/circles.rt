//! Stories of circles.

use super::{NOTHING, Story, misfit};
use crate::steps::Step::{Enter, Give, Leave, Read, Reread, Write};
use crate::steps::{A, B, C, D};
use ld_task::Kind::{En, Er, Sn, Sr};
use ld_trace::Irq::Hard;

// What is on circles.
static CIRCLES: [Story; 18] = [
    NOTHING,
    Story {
        about: "two locks in both orders",
        traces: &[
            &[Write(A), Write(B), Give(B), Give(A)],
            &[Write(B), Write(A), Give(A), Give(B)],
        ],
        dependencies: 2,
        clean: 3,
        circles: &[&[(A, B, En), (B, A, En)], &[(B, A, En), (A, B, En)]],
        ..NOTHING
    },
    Story {
        about: "three locks round, and one beside",
        keys: 4,
        traces: &[
            &[Write(A), Write(B)],
            &[Write(B), Write(C)],
            &[Write(C), Write(A)],
            &[Write(A), Write(D)],
        ],
        dependencies: 4,
        clean: 5,
        circles: &[
            &[(A, B, En), (B, C, En), (C, A, En)],
            &[(B, C, En), (C, A, En), (A, B, En)],
            &[(C, A, En), (A, B, En), (B, C, En)],
        ],
        ..NOTHING
    },
    Story {
        about: "a shorter circle beside a longer",
        keys: 6,
        traces: &[
            &[Write(A), Write(B)],
            &[Write(B), Write(C)],
            &[Write(C), Write(A)],
            &[Write(A), Write(D)],
            &[Write(4), Write(5)],
            &[Write(5), Write(4)],
        ],
        dependencies: 6,
        clean: 5,
        circles: &[
            &[(A, B, En), (B, C, En), (C, A, En)],
            &[(B, C, En), (C, A, En), (A, B, En)],
            &[(C, A, En), (A, B, En), (B, C, En)],
            &[(4, 5, En), (5, 4, En)],
            &[(5, 4, En), (4, 5, En)],
        ],
        ..NOTHING
    },
    Story {
        about: "a recursive reader between is passed over",
        keys: 3,
        traces: &[&[Write(A), Reread(B), Write(C)], &[Write(C), Write(A)]],
        dependencies: 4,
        clean: 4,
        circles: &[&[(A, C, En), (C, A, En)], &[(C, A, En), (A, C, En)]],
        ..NOTHING
    },
    Story {
        about: "two recursive readers of one lock",
        keys: 1,
        traces: &[&[Reread(A), Reread(A)]],
        dependencies: 1,
        clean: 2,
        ..NOTHING
    },
    Story {
        about: "a writer and then a recursive reader of one lock",
        keys: 1,
        traces: &[&[Write(A), Reread(A)]],
        dependencies: 1,
        clean: 1,
        circles: &[&[(A, A, Er)]],
        ..NOTHING
    },
    Story {
        about: "two readers of one lock",
        keys: 1,
        traces: &[&[Read(A), Read(A)]],
        dependencies: 1,
        clean: 1,
        circles: &[&[(A, A, Sn)]],
        ..NOTHING
    },
    Story {
        about: "recursive readers and then writers of one lock",
        keys: 1,
        traces: &[&[Reread(A), Reread(A)], &[Write(A), Write(A)]],
        dependencies: 2,
        clean: 3,
        circles: &[&[(A, A, Sr), (A, A, En)], &[(A, A, En)]],
        ..NOTHING
    },
    Story {
        about: "a closed walk is tested where its last meets its first: a recursive reader",
        traces: &[&[Write(A), Reread(B)], &[Reread(B), Write(A)]],
        dependencies: 2,
        clean: 4,
        ..NOTHING
    },
    Story {
        about: "a closed walk is tested where its last meets its first: a reader",
        traces: &[&[Write(A), Reread(B)], &[Read(B), Write(A)]],
        dependencies: 2,
        clean: 4,
        ..NOTHING
    },
    Story {
        about: "a closed walk is tested where its last meets its first: a writer",
        traces: &[&[Write(A), Reread(B)], &[Write(B), Write(A)]],
        dependencies: 2,
        clean: 3,
        circles: &[&[(A, B, Er), (B, A, En)], &[(B, A, En), (A, B, Er)]],
        ..NOTHING
    },
    Story {
        about: "a closed walk may meet a key twice",
        keys: 3,
        traces: &[
            &[Write(A), Reread(B)],
            &[Read(B), Write(A)],
            &[Write(B), Write(C)],
            &[Write(C), Write(B)],
        ],
        dependencies: 4,
        clean: 7,
        circles: &[
            &[(A, B, Er), (B, C, En), (C, B, En), (B, A, Sn)],
            &[(B, A, Sn), (A, B, Er), (B, C, En), (C, B, En)],
            &[(B, C, En), (C, B, En)],
            &[(C, B, En), (B, C, En)],
        ],
        ..NOTHING
    },
    Story {
        about: "a circle through a dependency is longer than the shortest",
        keys: 4,
        traces: &[
            &[Write(A), Write(B)],
            &[Write(B), Write(A)],
            &[Write(B), Write(C), Write(A)],
            &[Write(A), Write(D)],
        ],
        dependencies: 5,
        clean: 3,
        circles: &[
            &[(A, B, En), (B, A, En)],
            &[(B, A, En), (A, B, En)],
            &[(B, C, En), (C, A, En), (A, B, En)],
            &[(C, A, En), (A, B, En), (B, C, En)],
        ],
        ..NOTHING
    },
    Story {
        about: "one order alone",
        keys: 3,
        traces: &[&[Write(A), Write(B), Give(A), Write(C)]],
        dependencies: 2,
        clean: 3,
        ..NOTHING
    },
    Story {
        about: "a lock taken in an interrupt depends on none of the task",
        traces: &[&[Write(A), Enter(Hard), Write(B), Give(B), Leave]],
        clean: 2,
        ..NOTHING
    },
    Story {
        about: "a dependency between ranks is on no circle",
        keys: 3,
        ranks: &[0, 7, 7],
        traces: &[&[Write(A), Write(B)], &[Write(B), Write(C)]],
        dependencies: 2,
        clean: 4,
        ..NOTHING
    },
    Story {
        about: "a circle in a later rank",
        keys: 4,
        ranks: &[0, 0, 1, 1],
        traces: &[
            &[Write(A), Write(C)],
            &[Write(C), Write(D)],
            &[Write(D), Write(C)],
        ],
        dependencies: 3,
        clean: 5,
        circles: &[&[(C, D, En), (D, C, En)], &[(D, C, En), (C, D, En)]],
        ..NOTHING
    },
];

#[test]
fn circles_are_found(rt: HostRuntime) {
    assert_eq!(rt; misfit(rt.alloc(), &CIRCLES), None);
}
