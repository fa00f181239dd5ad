//! A law: a circuit under test can be handed to other threads of the program.
ghost use Rattle.std.specs.Thread.{IsSend};

use crate::device::Device;
use net_core::Engine;

fn sent<T: Send>(_value: &T) {}

/// That a value's type can be sent, as a fact.
fn sendable<T: Send>(_value: &T)
    ensures { IsSend T.row }
{}

/// A device can be sent to another thread of the program where its engine can be.
pub fn devices_can_be_sent<E: Engine + Send>(device: &Device<E>) {
    let design = device.design();
    sendable(design.elab());
    sendable(design.net());
    sent(device)
}
