ghost use Rattle.ak_lab.specs.LabStops.{IsDeskStop};
ghost use Rattle.ak_lab_lines.specs.LabTexts.{no_device_text, no_request_text};
ghost use Rattle.ak_line_runs.specs.LineStops.{IsStopBy};

use ak_base::{Memory, Text};
use ak_desk_texts::write_desk_fault;
use ak_edit::DeskFault;
use ak_lab_lines::{write_no_device, write_no_request};
use ak_line_runs::LineStop;
use std::alloc::Global;

/// The stop for a line that names a request that the log does not have.
pub(crate) fn no_request(alloc: Global, number: u64) -> LineStop
    ensures { IsStopBy (no_request_text number) result }
{
    match write_no_request(alloc, number) {
        Ok(text) => LineStop::Refused(text),
        Err(Memory) => LineStop::Memory,
    }
}

/// The stop for a line that names no device.
pub(crate) fn no_device(alloc: Global, name: &Text) -> LineStop
    ensures { IsStopBy (no_device_text name.now) result }
{
    match write_no_device(alloc, name.as_str()) {
        Ok(text) => LineStop::Refused(text),
        Err(Memory) => LineStop::Memory,
    }
}

/// The stop for new reviews that are refused. A fault without a text, but that of the keeper, is that memory was out.
pub(crate) fn desk_stop(alloc: Global, fault: &DeskFault) -> LineStop
    ensures { IsDeskStop fault.now result }
{
    match write_desk_fault(alloc, fault) {
        Ok(Some(text)) => LineStop::Refused(text),
        Ok(None) => LineStop::Memory,
        Err(Memory) => LineStop::Memory,
    }
}
