//! Exports into a folder of files in memory, audits of it, and a certificate.
//!
//! A store with two objects is exported: each file of the folder must read as the bench's file of its number, the last as the card's block, and
//! each must be written once. Then a file of the folder fails at its first call, or a file of the bench does, one after another: the export
//! tells which, and the bench stays.
//!
//! The folder is audited as it was exported, and then with one of its files altered, cut, longer, missing, or taken from the export of another
//! store: the objects that can be read are still told with their certificates. Then one file of the folder after another fails at its first
//! call: the audit tells which.
//!
//! The last line is of the certificate of the first object: with another last byte its last block is bad, and without it the form ends early.
#![tactic(auto)]

use alterations::CASES;
use audits::{audit_lines, untold_line};
use certificates::certificate_line;
use exports::{OTHER, export_line, export_made};
use trial_runs::print_line;

mod alterations;
mod audits;
mod certificates;
mod exports;

fn main(rt: HostRuntime) -> anyhow::Result<()> {
    print_line(&rt, export_line(&rt, rt.alloc())?.as_str())?;
    let other = export_made(&rt, rt.alloc(), OTHER)?;
    for case in CASES {
        let lines = audit_lines(&rt, rt.alloc(), case, &other.folder)?;
        print_line(&rt, lines.trim_end())?;
    }
    print_line(&rt, untold_line(&rt, rt.alloc())?.as_str())?;
    print_line(&rt, certificate_line(rt.alloc(), &other.folder)?.as_str())
}
