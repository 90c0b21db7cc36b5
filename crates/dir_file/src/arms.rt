// The arms of a directory's file.
ghost use Rattle.std.specs.Prelude.{◌≡◌, OnErr, OnOk};
ghost use Rattle.disk_model.specs.Controls.{disarmed, failure_armed, stop_armed, taint_armed};

use crate::file::DirFile;
use tee_ports::{FileRig, NoMemory};

impl<F: FileRig> DirFile<F> {
    /// Arms the file to pass this many calls, and to fail all later ones.
    pub fn stop_after(&mut self, calls: u64)
        ensures file { F.state self.new.file ≡ stop_armed (F.state self.old.file) calls }
        ensures same { self.new ≡ record self.old { file = self.new.file } }
    {
        self.tree.stop_after(calls);
    }

    /// Arms the file to fail this call, counted from 1.
    pub fn fail_call(&mut self, call: u64) -> Result<(), NoMemory>
        ensures armed { OnOk result (F.state self.new.file ≡ failure_armed (F.state self.old.file) call) }
        ensures refused { OnErr result (F.state self.new.file ≡ F.state self.old.file) }
        ensures same { self.new ≡ record self.old { file = self.new.file } }
    {
        self.tree.fail_call(call)
    }

    /// Arms the file to have a mask laid over its bytes from a place on, before this call.
    pub fn taint_call(&mut self, call: u64, at: u64, mask: &[u8]) -> Result<(), NoMemory>
        ensures armed { OnOk result (F.state self.new.file ≡
            taint_armed (F.state self.old.file) (record { call = call; at = at; mask = mask.now })) }
        ensures refused { OnErr result (F.state self.new.file ≡ F.state self.old.file) }
        ensures same { self.new ≡ record self.old { file = self.new.file } }
    {
        self.tree.taint_call(call, at, mask)
    }

    /// Removes all arms of the file.
    pub fn disarm(&mut self)
        ensures file { F.state self.new.file ≡ disarmed (F.state self.old.file) }
        ensures same { self.new ≡ record self.old { file = self.new.file } }
    {
        self.tree.disarm();
    }
}
