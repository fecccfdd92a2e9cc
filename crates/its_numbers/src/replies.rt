//! Replies as numbers.
ghost use Rattle.std.specs.Prelude.{◌≡◌};
ghost use Rattle.its_numbers.specs.Replies as spec;

use its_plain::{Ack, Cause, Reason, Reply, Route, Signal, StepReply};

/// Where a signal went.
#[repr(C)]
#[derive(Clone, Copy)]
pub struct SignalOut {
    /// 0: the LPI is pending. Else why the signal went nowhere: 1 the translator is not enabled, 2
    /// the device is not mapped, 3 the event is not mapped, 4 the event's collection is not mapped,
    /// 5 the target's LPIs are off.
    pub cause: u32,
    /// The virtual processor, counted from 0; 0 where the signal went nowhere.
    pub vcpu: u32,
    /// The interrupt; 0 where the signal went nowhere.
    pub intid: u32,
}

/// What a device's write by address was.
#[repr(C)]
#[derive(Clone, Copy)]
pub struct DmaOut {
    /// 0 guest memory was written, 1 its bytes don't lie in one window, 2 it is a message of a
    /// requester that is no device, 3 it meets a frame and is no message, 4 it is a message.
    pub outcome: u32,
    /// Where the message went; all zero where it is none.
    pub signal: SignalOut,
}

/// The LPI that is acknowledged.
#[repr(C)]
#[derive(Clone, Copy)]
pub struct AckOut {
    /// 0: none is pending and enabled.
    pub intid: u32,
    /// 0 to 252, a multiple of 4; lower is more urgent.
    pub priority: u32,
}

/// What became of a step.
#[repr(C)]
#[derive(Clone, Copy)]
pub struct StepOut {
    /// 0 there was no command, or the translator is not enabled; 1 the command ran; 2 it was
    /// refused; 3 its 32 bytes don't lie in one window.
    pub outcome: u32,
    /// The opcode: byte 0 of a command that ran or was refused, else 0.
    pub op: u32,
    /// Of a refused command: 1 unknown command, 2 DeviceID out of range, 3 size, 4 target, 5
    /// collection, 6 the device is not mapped, 7 EventID out of range, 8 INTID out of range, 9 the
    /// event is not mapped, 10 the collection is not mapped, 11 the target's LPIs are off.
    pub reason: u32,
    /// Where the command is whose bytes don't lie in one window, else 0.
    pub address: u64,
    /// Bit v % 64 of word v / 64: the pending LPIs or the configuration of virtual processor v may
    /// have changed.
    pub concerned: [u64; 8],
}

// A cause as its number.
fn cause_number(cause: Cause) -> u32
    ensures { result ≡ spec.cause_number cause }
{
    match cause {
        Cause::Disabled => 1,
        Cause::NoDevice => 2,
        Cause::NoEvent => 3,
        Cause::NoCollection => 4,
        Cause::LpisOff => 5,
    }
}

/// A signal's answer.
pub fn signal_out(signal: Signal) -> SignalOut
    ensures { result ≡ spec.signal_out signal }
{
    match signal {
        Signal::Delivered { vcpu, intid } => SignalOut {
            cause: 0,
            vcpu: u32::from(vcpu.0),
            intid: intid.0,
        },
        Signal::Dropped(cause) => SignalOut {
            cause: cause_number(cause),
            vcpu: 0,
            intid: 0,
        },
    }
}

/// The answer of a write by address that went so.
pub fn dma_out(route: Route, reply: Reply) -> DmaOut
    ensures { result ≡ spec.dma_out route reply }
{
    let outcome = match route {
        Route::Poke => u32::from(!matches!(reply, Reply::Ok)),
        Route::NoRequester => 2,
        Route::Frame => 3,
        Route::Signal { .. } => 4,
    };
    let signal = match reply {
        Reply::Signal(signal) => signal_out(signal),
        _ => SignalOut {
            cause: 0,
            vcpu: 0,
            intid: 0,
        },
    };
    DmaOut { outcome, signal }
}

/// An acknowledgement's answer.
pub fn ack_out(ack: Ack) -> AckOut
    ensures { result ≡ spec.ack_out ack }
{
    match ack {
        Ack::Some { intid, priority } => AckOut {
            intid: intid.0,
            priority: u32::from(priority),
        },
        Ack::None => AckOut {
            intid: 0,
            priority: 0,
        },
    }
}

// A reason as its number.
fn reason_number(reason: Reason) -> u32
    ensures { result ≡ spec.reason_number reason }
{
    match reason {
        Reason::UnknownCommand => 1,
        Reason::DeviceRange => 2,
        Reason::SizeRange => 3,
        Reason::TargetRange => 4,
        Reason::CollectionRange => 5,
        Reason::NoDevice => 6,
        Reason::EventRange => 7,
        Reason::IntidRange => 8,
        Reason::NoEvent => 9,
        Reason::NoCollection => 10,
        Reason::LpisOff => 11,
    }
}

/// A step's answer, and whom it concerns.
pub fn step_out(step: StepReply, concerned: [u64; 8]) -> StepOut
    ensures { result ≡ spec.step_out step concerned }
{
    match step {
        StepReply::Idle => StepOut {
            outcome: 0,
            op: 0,
            reason: 0,
            address: 0,
            concerned,
        },
        StepReply::Ran(op) => StepOut {
            outcome: 1,
            op: u32::from(op.opcode()),
            reason: 0,
            address: 0,
            concerned,
        },
        StepReply::Refused(op, reason) => StepOut {
            outcome: 2,
            op: u32::from(op.opcode()),
            reason: reason_number(reason),
            address: 0,
            concerned,
        },
        StepReply::QueueFault(at) => StepOut {
            outcome: 3,
            op: 0,
            reason: 0,
            address: at.0,
            concerned,
        },
    }
}
