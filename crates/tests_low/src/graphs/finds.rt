//! What a graph and a graph in parts are both asked.

use ld_graph::{Circle, Graph, InversionWalk, Kind, Walk};
use ld_parts::Settled;
use ld_trace::Irq;

pub(crate) trait Finds {
    fn clean(&self) -> bool;

    fn circle(&self, from: u16, to: u16, kind: Kind) -> Option<Walk>;

    fn is_on_circle(&self, from: u16, to: u16, kind: Kind) -> bool;

    fn shortest(&self) -> Option<Circle>;

    fn double(&self, irq: Irq, key: u16) -> Option<(bool, bool)>;

    fn has_double(&self, irq: Irq, key: u16) -> bool;

    fn inversion(&self, irq: Irq, a: u16, b: u16) -> Option<InversionWalk>;

    fn has_inversion(&self, irq: Irq, a: u16, b: u16) -> bool;

    fn is_in_inversion(&self, from: u16, to: u16, kind: Kind) -> bool;
}

impl Finds for Graph {
    fn clean(&self) -> bool {
        self.is_clean()
    }

    fn circle(&self, from: u16, to: u16, kind: Kind) -> Option<Walk> {
        self.circle_through(from, to, kind)
    }

    fn is_on_circle(&self, from: u16, to: u16, kind: Kind) -> bool {
        self.on_circle(from, to, kind)
    }

    fn shortest(&self) -> Option<Circle> {
        self.shortest_circle()
    }

    fn double(&self, irq: Irq, key: u16) -> Option<(bool, bool)> {
        self.double_forms(irq, key)
    }

    fn has_double(&self, irq: Irq, key: u16) -> bool {
        self.is_double(irq, key)
    }

    fn inversion(&self, irq: Irq, a: u16, b: u16) -> Option<InversionWalk> {
        self.inversion_walk(irq, a, b)
    }

    fn has_inversion(&self, irq: Irq, a: u16, b: u16) -> bool {
        self.is_inversion(irq, a, b)
    }

    fn is_in_inversion(&self, from: u16, to: u16, kind: Kind) -> bool {
        self.in_inversion(from, to, kind)
    }
}

impl Finds for Settled {
    fn clean(&self) -> bool {
        self.is_clean()
    }

    fn circle(&self, from: u16, to: u16, kind: Kind) -> Option<Walk> {
        self.circle_through(from, to, kind)
    }

    fn is_on_circle(&self, from: u16, to: u16, kind: Kind) -> bool {
        self.on_circle(from, to, kind)
    }

    fn shortest(&self) -> Option<Circle> {
        self.shortest_circle()
    }

    fn double(&self, irq: Irq, key: u16) -> Option<(bool, bool)> {
        self.double_forms(irq, key)
    }

    fn has_double(&self, irq: Irq, key: u16) -> bool {
        self.is_double(irq, key)
    }

    fn inversion(&self, irq: Irq, a: u16, b: u16) -> Option<InversionWalk> {
        self.inversion_walk(irq, a, b)
    }

    fn has_inversion(&self, irq: Irq, a: u16, b: u16) -> bool {
        self.is_inversion(irq, a, b)
    }

    fn is_in_inversion(&self, from: u16, to: u16, kind: Kind) -> bool {
        self.in_inversion(from, to, kind)
    }
}
