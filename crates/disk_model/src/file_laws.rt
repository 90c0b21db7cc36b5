// What is true of every file, whatever its calls.
ghost use Rattle.disk_model.specs.Images.{MoreSpansLeaveMore};
ghost use Rattle.disk_model.specs.Seen.{RunsReadMasked, MasksUndo};

/// A law of files, with no code: calls that write at none of some places leave what a file that tells its arms reads there, but
/// for masks that were armed.
pub fn runs_read_masked()
    ensures { RunsReadMasked }
{}

/// A law of masks, with no code: laid over once more, the same masks give back the bytes that they were laid over.
pub fn masks_undo_themselves()
    ensures { MasksUndo }
{}

/// A law of images, with no code: what a crash may leave where some spans changed, it may leave where more did.
pub fn more_spans_leave_more()
    ensures { MoreSpansLeaveMore }
{}
