//! Running an audit: the store in a folder is audited, and the lines of its objects are put.

ghost use Rattle.std.specs.Prelude.{◌≡◌, ◌⊎◌, ◌≤◌, vec_len};
ghost use Rattle.tee_ports.specs.Faults.{Rose};
ghost use Rattle.folder_export.specs.Folders.{folder_count};
ghost use Rattle.folder_audit.specs.Audit.{folder_states};
ghost use Rattle.script_runner.specs.Audits.{RunsAudit};

use crate::Status;
use crate::act_text::print_last_lines;
use crate::mount_refusal::print_mount_refusal;
use folder_audit::{Audit, AuditFault, audit_folder};
use hmac_keys::Keys;
use std::alloc::Global;
use tee_ports::{Sink, StoreFile};

/// Audits the store in a folder, and writes the line of each object, or of a refusal. Who owns the folder reads these lines, so a computed
/// tag is not among them.
pub(crate) fn run_audit<K: Sink, G: StoreFile + Drop>(
    alloc: Global,
    sink: &mut K,
    keys: &Keys,
    folder: &mut Vec<G>,
) -> Status
    requires { vec_len folder.old ≡ folder_count }
    ensures audits { RunsAudit keys.now (Rose (K.faults sink.old) (K.faults sink.new) ⊎ K.is_full sink.new) (K.held sink.old) (K.held sink.new)
        (folder_states G.state folder.old.items) (folder_states G.state folder.new.items) result }
    ensures counted { K.faults sink.old ≤ K.faults sink.new }
    ensures whole { vec_len folder.new ≡ folder_count }
{
    let Audit { lines, end } = audit_folder(alloc, keys, folder);
    match end {
        Ok(()) => print_last_lines(lines, sink),
        Err(AuditFault::Refused(fault)) => {
            let told = fault.without_computed_tag();
            print_mount_refusal(told, sink, lines)
        }
        Err(AuditFault::Failed(fault)) => {
            let _put = print_last_lines(lines, sink);
            Status::FileFault(fault)
        }
        Err(AuditFault::NoMemory) => {
            let _put = print_last_lines(lines, sink);
            Status::NoMemory
        }
    }
}
