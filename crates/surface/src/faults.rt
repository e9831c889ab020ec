//! The types of faults, each an error of std with a text.

use abnf_cert::CertFault;
use abnf_syntax::SyntaxFault;
use ls_answers::RenameFault;
use ls_desk::DeskFault;
use ls_frame::FrameFault;
use ls_server::{DeviceFault, ServeFault};
use ls_text::TextFault;
use std::error::Error;

fn is_error<E: Error>(_: &E) {}

pub fn frame_fault(fault: FrameFault) {
    is_error(&fault)
}

pub fn text_fault(fault: TextFault) {
    is_error(&fault)
}

pub fn syntax_fault(fault: SyntaxFault) {
    is_error(&fault)
}

pub fn cert_fault(fault: CertFault) {
    is_error(&fault)
}

pub fn rename_fault(fault: RenameFault) {
    is_error(&fault)
}

pub fn desk_fault(fault: DeskFault) {
    is_error(&fault)
}

pub fn device_fault(fault: DeviceFault) {
    is_error(&fault)
}

pub fn serve_fault(fault: ServeFault) {
    is_error(&fault)
}
