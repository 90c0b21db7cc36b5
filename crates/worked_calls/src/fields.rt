// Fields of bytes, and spans of changes.

use crate::report::Report;
use byte_fields::{field, put};
use disk_model::{Span, touched};

/// Fields of six bytes.
fn add_fields(report: &mut Report) {
    let mut bytes = [1, 2, 3, 4, 5, 6];
    report.line("byte_fields: two bytes at 0", &field::<2>(&bytes, 0));
    report.line("byte_fields: three bytes at 3", &field::<3>(&bytes, 3));
    put(&mut bytes, 2, &[7, 8]);
    report.line("byte_fields: 7 and 8 put at 2", &bytes);
    put(&mut bytes, 6, &[]);
    report.line("byte_fields: nothing put at 6", &bytes);
}

/// Places in sectors that spans meet, in others and past the end.
fn add_touched(report: &mut Report) {
    let written = Span { at: 600, length: 2 };
    let empty = Span {
        at: 1600,
        length: 0,
    };
    for at in [511, 512, 601, 1023, 1024, 1600, 2000] {
        let is = touched(&[written, empty], 2000, at);
        report.add(&format_args!(
            "disk_model: two bytes written at 600, none at 1600, of 2000; is {at} touched -> {is}"
        ));
    }
}

/// Places past the end, and the last place that there is.
fn add_edges(report: &mut Report) {
    let is = touched(&[], 10, 10);
    report.line("disk_model: nothing written of 10; is 10 touched", &is);
    let far = [Span {
        at: u64::MAX,
        length: u64::MAX,
    }];
    let is = touched(&far, u64::MAX, u64::MAX);
    report.line(
        "disk_model: as many bytes as can be, at the last place; is it touched",
        &is,
    );
}

/// Adds the calls of `byte_fields` and `disk_model`.
pub fn add_calls(report: &mut Report) {
    add_fields(report);
    add_touched(report);
    add_edges(report);
}
