//! The arms of a gate's devices.

ghost use Rattle.std.specs.Prelude.{◌≡◌, OnErr, OnOk};
ghost use Rattle.disk_model.specs.Controls.{taint_armed};
ghost use Rattle.rpmb_card.specs.Arms.{arm_loss};
ghost use Rattle.rpmb_card.specs.Port.{Rearmed};
ghost use Rattle.store_commit.specs.Arming.{ArmsFile, FailsDevice, IsRearmedFile, IsRearmedPort, StayArmed, StopsDevice};

use crate::gate::Gate;
use dir_file::DirFile;
use rpmb_card::CardRig;
use rpmb_host::Host;
use tee_ports::FileRig;
use tee_types::{Device, NoMemory};

// Arms one of the two to pass so many calls, and to fail all later ones.
fn stop_device<F: FileRig, R: CardRig>(
    dir: &mut DirFile<F>,
    host: &mut Host<R>,
    device: Device,
    calls: u64,
)
    ensures stops { StopsDevice device calls (F.state dir.old.file) (F.state dir.new.file) (R.state host.old.port) (R.state host.new.port) }
    ensures dir { dir.new.dir ≡ dir.old.dir }
    ensures key { host.new.key ≡ host.old.key }
    ensures file { IsRearmedFile (F.state dir.old.file) (F.state dir.new.file) }
    ensures port { IsRearmedPort (R.state host.old.port) (R.state host.new.port) }
{
    match device {
        Device::Dir => dir.stop_after(calls),
        Device::Card => host.stop_after(calls),
        Device::File(_) | Device::Entropy => {}
    }
}

// Arms one of the two to fail that call.
fn fail_device<F: FileRig, R: CardRig>(
    dir: &mut DirFile<F>,
    host: &mut Host<R>,
    device: Device,
    call: u64,
) -> Result<(), NoMemory>
    ensures fails { OnOk result (FailsDevice device call (F.state dir.old.file) (F.state dir.new.file) (R.state host.old.port) (R.state host.new.port)) }
    ensures refused { OnErr result (StayArmed (F.state dir.old.file) (F.state dir.new.file) (R.state host.old.port) (R.state host.new.port)) }
    ensures dir { dir.new.dir ≡ dir.old.dir }
    ensures key { host.new.key ≡ host.old.key }
    ensures file { IsRearmedFile (F.state dir.old.file) (F.state dir.new.file) }
    ensures port { IsRearmedPort (R.state host.old.port) (R.state host.new.port) }
{
    match device {
        Device::Dir => dir.fail_call(call),
        Device::Card => host.fail_call(call),
        Device::File(_) | Device::Entropy => Ok(()),
    }
}

impl<F: FileRig + Drop, R: CardRig + Drop> Gate<F, R> {
    /// Arms the directory's file or the card to pass so many calls, and to fail all later ones. Of another device nothing is armed.
    pub fn stop_after(&mut self, device: Device, calls: u64)
        ensures stops { StopsDevice device calls (F.state self.old.dir.file) (F.state self.new.dir.file) (R.state self.old.host.port) (R.state self.new.host.port) }
        ensures same { self.new ≡ record self.old {
          dir = record self.old.dir { file = self.new.dir.file };
          host = record self.old.host { port = self.new.host.port };
        } }
    {
        stop_device(&mut self.dir, &mut self.host, device, calls);
    }

    /// Arms the directory's file or the card to fail that call, counted from 1. Of another device nothing is armed.
    ///
    /// # Errors
    ///
    /// Memory ran out; nothing changed.
    pub fn fail_call(&mut self, device: Device, call: u64) -> Result<(), NoMemory>
        ensures fails { OnOk result (FailsDevice device call (F.state self.old.dir.file) (F.state self.new.dir.file) (R.state self.old.host.port) (R.state self.new.host.port)) }
        ensures refused { OnErr result (StayArmed (F.state self.old.dir.file) (F.state self.new.dir.file) (R.state self.old.host.port) (R.state self.new.host.port)) }
        ensures same { self.new ≡ record self.old {
          dir = record self.old.dir { file = self.new.dir.file };
          host = record self.old.host { port = self.new.host.port };
        } }
    {
        fail_device(&mut self.dir, &mut self.host, device, call)
    }

    /// Lets the card act on that exchange, and loses its answer.
    ///
    /// # Errors
    ///
    /// Memory ran out; nothing changed.
    pub fn lose_call(&mut self, call: u64) -> Result<(), NoMemory>
        ensures loses { OnOk result (Rearmed (R.state self.old.host.port) (R.state self.new.host.port) (arm_loss (R.state self.old.host.port).arms call)) }
        ensures refused { OnErr result (R.state self.new.host.port ≡ R.state self.old.host.port) }
        ensures same { self.new ≡ record self.old { host = record self.old.host { port = self.new.host.port } } }
    {
        self.host.lose_call(call)
    }

    /// Arms the directory's file to have a mask laid over its bytes from a place on, before that call.
    ///
    /// # Errors
    ///
    /// Memory ran out; nothing changed.
    pub fn taint_call(&mut self, call: u64, at: u64, mask: &[u8]) -> Result<(), NoMemory>
        ensures taints { OnOk result (F.state self.new.dir.file ≡
            taint_armed (F.state self.old.dir.file) (record { call = call; at = at; mask = mask.now })) }
        ensures refused { OnErr result (F.state self.new.dir.file ≡ F.state self.old.dir.file) }
        ensures same { self.new ≡ record self.old { dir = record self.old.dir { file = self.new.dir.file } } }
    {
        self.dir.taint_call(call, at, mask)
    }
}
