//! Frames of a task.

ghost use Rattle.std.specs.Prelude.{◌≡◌};

use ld_trace::Irq;

/// The kind of a frame: what the task runs in between an entry and its leave.
#[derive(Clone, Copy, PartialEq, Eq, Debug, Hash)]
pub enum Frame {
    /// The task itself, outside every interrupt.
    Task,
    /// A softirq handler.
    Softirq,
    /// A hardirq handler.
    Hardirq,
}

impl Frame {
    ghost use Rattle.ld_task.specs.Flags.{may_change, starts_on};
    ghost use Rattle.ld_task.specs.Frames.{is_task};

    // Whether it is the task frame.
    pub(crate) fn is_task(self) -> bool
        ensures { result ≡ is_task self }
    {
        matches!(self, Frame::Task)
    }

    // Whether the flag of this state is on at its start.
    fn starts_on(self, irq: Irq) -> bool
        ensures { result ≡ starts_on irq self }
    {
        match (irq, self) {
            (_, Frame::Task) => true,
            (Irq::Hard, Frame::Softirq) => true,
            (Irq::Soft, Frame::Softirq) => false,
            (_, Frame::Hardirq) => false,
        }
    }

    // Whether the flag of this state may change in it: one that is off at its start stays off.
    pub(crate) fn may_change(self, irq: Irq) -> bool
        ensures { result ≡ may_change irq self }
    {
        self.starts_on(irq)
    }
}

/// Which states are on in a frame.
#[derive(Clone, Copy, PartialEq, Eq, Debug, Hash)]
pub struct Flags {
    /// Hardware interrupts are on.
    pub hard_on: bool,
    /// Software interrupts are on.
    pub soft_on: bool,
}

impl Flags {
    ghost use Rattle.ld_task.specs.Flags.{flags_of, is_enabled, is_on, starts_on, with_flag};

    // The flags at the start of a frame of this kind.
    fn at_start(frame: Frame) -> Flags
        ensures { result ≡ flags_of (λ irq. starts_on irq frame) }
    {
        Flags {
            hard_on: frame.starts_on(Irq::Hard),
            soft_on: frame.starts_on(Irq::Soft),
        }
    }

    /// Whether this state is on.
    pub fn is_on(self, irq: Irq) -> bool
        ensures { result ≡ is_on irq self }
    {
        match irq {
            Irq::Hard => self.hard_on,
            Irq::Soft => self.soft_on,
        }
    }

    /// Whether a lock used with these flags is used with this state enabled.
    pub fn is_enabled(self, irq: Irq) -> bool
        ensures { result ≡ is_enabled irq self }
    {
        match irq {
            Irq::Hard => self.hard_on,
            Irq::Soft => self.hard_on && self.soft_on,
        }
    }

    // The flags with the flag of this state set to `on`.
    pub(crate) fn with(self, irq: Irq, on: bool) -> Flags
        ensures { result ≡ with_flag irq on self }
    {
        match irq {
            Irq::Hard => Flags {
                hard_on: on,
                ..self
            },
            Irq::Soft => Flags {
                soft_on: on,
                ..self
            },
        }
    }
}

/// An open frame, with its own flags.
#[derive(Clone, Copy, PartialEq, Eq, Debug)]
pub struct OpenFrame {
    pub kind: Frame,
    pub flags: Flags,
}

impl Default for OpenFrame {
    ghost use Rattle.ld_task.specs.declared.frame.Frame.TheVariants.{Task};
    ghost use Rattle.ld_task.specs.Inside.OpenFrames.{fresh};

    // The task frame at its start.
    fn default() -> Self
        ensures { result ≡ fresh Task }
    {
        OpenFrame::fresh(Frame::Task)
    }
}

impl OpenFrame {
    ghost use Rattle.ld_task.specs.Flags.{may_enter};
    ghost use Rattle.ld_task.specs.Inside.OpenFrames.{fresh, fresh_frame, turned};

    // A frame of this kind at its start.
    fn fresh(kind: Frame) -> OpenFrame
        ensures { result ≡ fresh kind }
    {
        OpenFrame {
            kind,
            flags: Flags::at_start(kind),
        }
    }

    // Whether the state may be entered from it.
    pub(crate) fn may_enter(self, irq: Irq) -> bool
        ensures { result ≡ may_enter irq self.kind self.flags }
    {
        match irq {
            Irq::Hard => self.flags.is_enabled(irq),
            Irq::Soft => self.kind.is_task() && self.flags.is_enabled(irq),
        }
    }

    // The frame that an entry of the state opens.
    pub(crate) fn entered_by(irq: Irq) -> OpenFrame
        ensures { result ≡ fresh_frame irq }
    {
        match irq {
            Irq::Hard => OpenFrame::fresh(Frame::Hardirq),
            Irq::Soft => OpenFrame::fresh(Frame::Softirq),
        }
    }

    // The frame with the flag of this state set to `on`.
    pub(crate) fn turned(self, irq: Irq, on: bool) -> OpenFrame
        ensures { result ≡ turned irq on self }
    {
        OpenFrame {
            kind: self.kind,
            flags: self.flags.with(irq, on),
        }
    }
}
