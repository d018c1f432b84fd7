//! A caller of `rec_reader`, as its page has it.

use rec_reader::{Audit, AuditFault, Auditor, ReadEnd, Reader};
use std::alloc::Global;
use std::io::Read;

/// The audit of what the input gives, if all of it is read.
pub fn audited<R: Read + Drop>(
    alloc: Global,
    input: R,
) -> Result<Result<Audit, AuditFault>, ReadEnd> {
    let mut reader = Reader::new(alloc, input);
    let mut auditor = Auditor::new(alloc);
    for _ in 0..u64::MAX {
        let Some(packet) = reader.next()? else {
            break;
        };
        let _ = auditor.take(&packet.packet());
        reader.give_back(packet);
    }
    Ok(auditor.end())
}
