//! The arms of the devices of a mounted store.

ghost use Rattle.std.specs.Prelude.{◌≡◌, length, OnErr, OnOk};
ghost use Rattle.tee_types.specs.Limits.{last_file};
ghost use Rattle.rpmb_card.specs.Arms.{arm_loss};
ghost use Rattle.rpmb_card.specs.Port.{Rearmed};
ghost use Rattle.store_commit.specs.Gates.{GateValue};
ghost use Rattle.object_calls.specs.OpeningArms.{FailsOnBench, IsFileOnBench, IsOnBench, StayDevices, StopsOnBench, TaintsOnBench};
ghost use Rattle.object_calls.specs.OpeningFiles.{numbered_files};
ghost use Rattle.object_calls.specs.Opening.{bench_files};

use crate::opening::Opening;
use rpmb_card::CardRig;
use store_commit::Gate;
use tee_ports::FileRig;
use tee_types::{Device, NoMemory};

// Arms one device to pass so many calls, and to fail all later ones.
fn stop_device<F: FileRig + Drop, R: CardRig + Drop>(
    gate: &mut Gate<F, R>,
    files: &mut [F],
    device: Device,
    calls: u64,
)
    requires files { length files.old ≡ last_file }
    requires device { IsOnBench device }
    ensures stops { (spare : F) → StopsOnBench device calls (numbered_files F.state spare gate.old.dir.file files.old) (numbered_files F.state spare gate.new.dir.file files.new)
        (R.state gate.old.host.port) (R.state gate.new.host.port) }
    ensures gate { gate.new ≡ record gate.old {
      dir = record gate.old.dir { file = gate.new.dir.file };
      host = record gate.old.host { port = gate.new.host.port };
    } }
{
    match device {
        Device::File(file) => files[file as usize - 1].stop_after(calls),
        Device::Dir | Device::Card | Device::Entropy => gate.stop_after(device, calls),
    }
}

// Arms one device to fail that call.
fn fail_device<F: FileRig + Drop, R: CardRig + Drop>(
    gate: &mut Gate<F, R>,
    files: &mut [F],
    device: Device,
    call: u64,
) -> Result<(), NoMemory>
    requires files { length files.old ≡ last_file }
    requires device { IsOnBench device }
    ensures fails { (spare : F) → OnOk result (FailsOnBench device call (numbered_files F.state spare gate.old.dir.file files.old) (numbered_files F.state spare gate.new.dir.file files.new)
        (R.state gate.old.host.port) (R.state gate.new.host.port)) }
    ensures refused { (spare : F) → OnErr result (StayDevices (numbered_files F.state spare gate.old.dir.file files.old) (numbered_files F.state spare gate.new.dir.file files.new)
        (R.state gate.old.host.port) (R.state gate.new.host.port)) }
    ensures gate { gate.new ≡ record gate.old {
      dir = record gate.old.dir { file = gate.new.dir.file };
      host = record gate.old.host { port = gate.new.host.port };
    } }
{
    match device {
        Device::File(file) => files[file as usize - 1].fail_call(call),
        Device::Dir | Device::Card | Device::Entropy => gate.fail_call(device, call),
    }
}

// Arms one file to have a mask laid over its bytes.
fn taint_device<F: FileRig + Drop, R: CardRig + Drop>(
    gate: &mut Gate<F, R>,
    files: &mut [F],
    device: Device,
    call: u64,
    at: u64,
    mask: &[u8],
) -> Result<(), NoMemory>
    requires files { length files.old ≡ last_file }
    requires device { IsFileOnBench device }
    ensures taints { (spare : F) → OnOk result (TaintsOnBench device (record { call = call; at = at; mask = mask.now })
        (numbered_files F.state spare gate.old.dir.file files.old) (numbered_files F.state spare gate.new.dir.file files.new)
        (R.state gate.old.host.port) (R.state gate.new.host.port)) }
    ensures refused { (spare : F) → OnErr result (StayDevices (numbered_files F.state spare gate.old.dir.file files.old) (numbered_files F.state spare gate.new.dir.file files.new)
        (R.state gate.old.host.port) (R.state gate.new.host.port)) }
    ensures gate { gate.new ≡ record gate.old {
      dir = record gate.old.dir { file = gate.new.dir.file };
      host = record gate.old.host { port = gate.new.host.port };
    } }
{
    match device {
        Device::File(file) => files[file as usize - 1].taint_call(call, at, mask),
        Device::Dir | Device::Card | Device::Entropy => gate.taint_call(call, at, mask),
    }
}

impl<F: FileRig + Drop, R: CardRig + Drop> Opening<F, R> {
    /// Arms a device of the bench to pass so many calls, and to fail all later ones.
    pub fn stop_after(&mut self, device: Device, calls: u64)
        requires { IsOnBench device }
        ensures stops { StopsOnBench device calls (bench_files F.state self.old) (bench_files F.state self.new)
            (R.state self.old.gate.host.port) (R.state self.new.gate.host.port) }
        ensures same { self.new ≡ record self.old {
          gate = record self.old.gate {
            dir = record self.old.gate.dir { file = self.new.gate.dir.file };
            host = record self.old.gate.host { port = self.new.gate.host.port };
          };
          files = self.new.files;
        } }
    {
        stop_device(&mut self.gate, &mut self.files, device, calls);
    }

    /// Arms a device of the bench to fail that call, counted from 1.
    ///
    /// # Errors
    ///
    /// Memory ran out; nothing changed.
    pub fn fail_call(&mut self, device: Device, call: u64) -> Result<(), NoMemory>
        requires { IsOnBench device }
        ensures fails { OnOk result (FailsOnBench device call (bench_files F.state self.old) (bench_files F.state self.new)
            (R.state self.old.gate.host.port) (R.state self.new.gate.host.port)) }
        ensures refused { OnErr result (StayDevices (bench_files F.state self.old) (bench_files F.state self.new)
            (R.state self.old.gate.host.port) (R.state self.new.gate.host.port)) }
        ensures same { self.new ≡ record self.old {
          gate = record self.old.gate {
            dir = record self.old.gate.dir { file = self.new.gate.dir.file };
            host = record self.old.gate.host { port = self.new.gate.host.port };
          };
          files = self.new.files;
        } }
    {
        fail_device(&mut self.gate, &mut self.files, device, call)
    }

    /// Lets the card act on that exchange, and loses its answer.
    ///
    /// # Errors
    ///
    /// Memory ran out; nothing changed.
    pub fn lose_call(&mut self, call: u64) -> Result<(), NoMemory>
        ensures loses { OnOk result (Rearmed (R.state self.old.gate.host.port) (R.state self.new.gate.host.port)
            (arm_loss (R.state self.old.gate.host.port).arms call)) }
        ensures refused { OnErr result (R.state self.new.gate.host.port ≡ R.state self.old.gate.host.port) }
        ensures same { self.new ≡ record self.old {
          gate = record self.old.gate { host = record self.old.gate.host { port = self.new.gate.host.port } };
        } }
    {
        self.gate.lose_call(call)
    }

    /// Arms a file of the bench to have a mask laid over its bytes from a place on, before that call.
    ///
    /// # Errors
    ///
    /// Memory ran out; nothing changed.
    pub fn taint_call(
        &mut self,
        device: Device,
        call: u64,
        at: u64,
        mask: &[u8],
    ) -> Result<(), NoMemory>
        requires { IsFileOnBench device }
        ensures taints { OnOk result (TaintsOnBench device (record { call = call; at = at; mask = mask.now })
            (bench_files F.state self.old) (bench_files F.state self.new)
            (R.state self.old.gate.host.port) (R.state self.new.gate.host.port)) }
        ensures refused { OnErr result (StayDevices (bench_files F.state self.old) (bench_files F.state self.new)
            (R.state self.old.gate.host.port) (R.state self.new.gate.host.port)) }
        ensures same { self.new ≡ record self.old {
          gate = record self.old.gate {
            dir = record self.old.gate.dir { file = self.new.gate.dir.file };
            host = record self.old.gate.host { port = self.new.gate.host.port };
          };
          files = self.new.files;
        } }
    {
        taint_device(&mut self.gate, &mut self.files, device, call, at, mask)
    }
}
