//! Stories of doubles and inversions.

use super::{Inversion, NOTHING, Story, misfit};
use crate::steps::Step::{Enter, Give, Leave, Read, Reread, TurnOff, TurnOn, Write};
use crate::steps::{A, B, C, D, Step};
use ld_task::Kind::{En, Sn};
use ld_trace::Irq::{Hard, Soft};

// An inversion by one dependency.
const A_TO_B: Inversion = Inversion {
    irq: Hard,
    ends: (A, B),
    forms: (false, false),
    walk: &[(A, B, En)],
};

// That it is found, and nothing else.
const INVERTED: Story = Story {
    dependencies: 1,
    clean: 3,
    inversions: &[A_TO_B],
    inverted: &[(A, B, En)],
    ..NOTHING
};

// What is wrong with interrupts.
static INTERRUPTS: [Story; 15] = [
    Story {
        about: "a double of a writer, and none of readers alone",
        traces: &[
            &[Enter(Hard), Read(A), Give(A), Leave],
            &[Read(A), Give(A)],
            &[Enter(Hard), Write(B), Give(B), Leave],
            &[Write(B), Give(B)],
        ],
        clean: 3,
        doubles: &[(Hard, B, (false, false))],
        ..NOTHING
    },
    Story {
        about: "a double of two writers",
        keys: 1,
        traces: &[
            &[Enter(Hard), Write(A), Give(A), Leave],
            &[Write(A), Give(A)],
        ],
        clean: 1,
        doubles: &[(Hard, A, (false, false))],
        ..NOTHING
    },
    Story {
        about: "a double that is used by a reader",
        keys: 1,
        traces: &[
            &[Enter(Hard), Read(A), Give(A), Leave],
            &[Write(A), Give(A)],
        ],
        clean: 1,
        doubles: &[(Hard, A, (false, true))],
        ..NOTHING
    },
    Story {
        about: "a double that is enabled by a reader",
        keys: 1,
        traces: &[
            &[Enter(Hard), Write(A), Give(A), Leave],
            &[Read(A), Give(A)],
        ],
        clean: 1,
        doubles: &[(Hard, A, (true, false))],
        ..NOTHING
    },
    Story {
        about: "two readers make no double",
        keys: 1,
        traces: &[&[Enter(Hard), Read(A), Give(A), Leave], &[Read(A), Give(A)]],
        clean: 2,
        ..NOTHING
    },
    Story {
        about: "a double in a later rank",
        ranks: &[3, 5],
        traces: &[
            &[Enter(Hard), Write(B), Give(B), Leave],
            &[TurnOff(Hard), Write(A), Write(B), Give(B), Give(A)],
            &[Write(B), Give(B)],
        ],
        dependencies: 1,
        clean: 3,
        doubles: &[(Hard, B, (false, false))],
        ..NOTHING
    },
    Story {
        about: "an inversion is tested where its walk begins: a reader",
        traces: &[
            &[Enter(Hard), Read(A), Give(A), Leave],
            &[TurnOff(Hard), Read(A), Write(B), Give(B), Give(A)],
            &[Write(B), Give(B)],
        ],
        dependencies: 1,
        clean: 4,
        ..NOTHING
    },
    Story {
        about: "an inversion is tested where its walk begins: a writer",
        traces: &[
            &[Enter(Hard), Read(A), Give(A), Leave],
            &[TurnOff(Hard), Write(A), Write(B), Give(B), Give(A)],
            &[Write(B), Give(B)],
        ],
        inversions: &[Inversion {
            forms: (false, true),
            ..A_TO_B
        }],
        ..INVERTED
    },
    Story {
        about: "an inversion is tested where its walk ends: a recursive reader",
        traces: &[
            &[Enter(Hard), Write(A), Give(A), Leave],
            &[TurnOff(Hard), Write(A), Reread(B), Give(B), Give(A)],
            &[Reread(B), Give(B)],
        ],
        dependencies: 1,
        clean: 4,
        ..NOTHING
    },
    Story {
        about: "an inversion is tested where its walk ends: a writer",
        traces: &[
            &[Enter(Hard), Write(A), Give(A), Leave],
            &[TurnOff(Hard), Write(A), Write(B), Give(B), Give(A)],
            &[Reread(B), Give(B)],
        ],
        inversions: &[Inversion {
            forms: (true, false),
            ..A_TO_B
        }],
        ..INVERTED
    },
    Story {
        about: "an inversion of hardirqs",
        traces: &[
            &[Enter(Hard), Write(A), Give(A), Leave],
            &[TurnOff(Hard), Write(A), Write(B), Give(B), Give(A)],
            &[Write(B), Give(B)],
        ],
        ..INVERTED
    },
    Story {
        about: "an inversion of three dependencies, and one of four",
        keys: 5,
        traces: &[
            &[Enter(Soft), Write(A), Give(A), Leave],
            &[TurnOff(Soft), Write(A), Write(C)],
            &[TurnOff(Soft), Write(C), Write(D)],
            &[TurnOff(Soft), Write(D), Write(B)],
            &[Write(B), Write(4)],
        ],
        dependencies: 4,
        clean: 7,
        inversions: &[
            Inversion {
                irq: Soft,
                ends: (A, B),
                forms: (false, false),
                walk: &[(A, C, En), (C, D, En), (D, B, En)],
            },
            Inversion {
                irq: Soft,
                ends: (A, 4),
                forms: (false, false),
                walk: &[(A, C, En), (C, D, En), (D, B, En), (B, 4, En)],
            },
        ],
        inverted: &[(A, C, En), (C, D, En), (D, B, En), (B, 4, En)],
        ..NOTHING
    },
    Story {
        about: "a dependency beside an inversion is in none",
        keys: 4,
        traces: &[
            &[Enter(Hard), Write(A), Give(A), Leave],
            &[TurnOff(Hard), Write(A), Write(B)],
            &[TurnOff(Hard), Write(A), Write(C)],
            &[TurnOff(Hard), Write(D), Write(B)],
            &[Write(B), Give(B)],
        ],
        dependencies: 3,
        clean: 7,
        inversions: &[A_TO_B],
        inverted: &[(A, B, En)],
        ..NOTHING
    },
    Story {
        about: "the shorter of two links' walks",
        keys: 3,
        traces: &[
            &[Enter(Hard), Read(A), Give(A), Leave],
            &[Enter(Hard), Write(A), Give(A), Leave],
            &[TurnOff(Hard), Read(A), Write(B), Give(B), Give(A)],
            &[TurnOff(Hard), Write(A), Write(C)],
            &[TurnOff(Hard), Write(C), Write(B)],
            &[Write(B), Give(B)],
        ],
        dependencies: 3,
        clean: 8,
        inversions: &[Inversion {
            irq: Hard,
            ends: (A, B),
            forms: (false, false),
            walk: &[(A, B, Sn)],
        }],
        inverted: &[(A, B, Sn), (A, C, En), (C, B, En)],
        ..NOTHING
    },
    Story {
        about: "an inversion in a later rank",
        keys: 4,
        ranks: &[0, 1, 1, 1],
        traces: &[
            &[Enter(Hard), Write(B), Give(B), Leave],
            &[Enter(Hard), Write(C), Give(C), Leave],
            &[TurnOff(Hard), Write(C), Write(D)],
            &[Write(D), Give(D)],
        ],
        dependencies: 1,
        clean: 4,
        inversions: &[Inversion {
            irq: Hard,
            ends: (C, D),
            forms: (false, false),
            walk: &[(C, D, En)],
        }],
        inverted: &[(C, D, En)],
        ..NOTHING
    },
];

const USED: &[Step] = &[Enter(Soft), Write(A), Give(A), Leave];

const ENABLED: &[Step] = &[Write(B), Give(B)];

const UNDER: &[Step] = &[
    TurnOff(Soft),
    Write(A),
    Write(B),
    Give(B),
    Give(A),
    TurnOn(Soft),
];

const SOFT_A_TO_B: Inversion = Inversion {
    irq: Soft,
    ..A_TO_B
};

// One inversion, whose two marks and dependency come in three orders: it is found with the last of them.
static THREE_ORDERS: [Story; 3] = [
    Story {
        about: "an inversion in the order used, under, enabled",
        traces: &[USED, UNDER, ENABLED],
        clean: 4,
        inversions: &[SOFT_A_TO_B],
        ..INVERTED
    },
    Story {
        about: "an inversion in the order enabled, under, used",
        traces: &[ENABLED, UNDER, USED],
        clean: 4,
        inversions: &[SOFT_A_TO_B],
        ..INVERTED
    },
    Story {
        about: "an inversion in the order used, enabled, under",
        traces: &[USED, ENABLED, UNDER],
        clean: 3,
        inversions: &[SOFT_A_TO_B],
        ..INVERTED
    },
];

#[test]
fn three_orders(rt: HostRuntime) {
    assert_eq!(rt; misfit(rt.alloc(), &THREE_ORDERS), None);
}

#[test]
fn doubles_and_inversions_are_found(rt: HostRuntime) {
    assert_eq!(rt; misfit(rt.alloc(), &INTERRUPTS), None);
}
